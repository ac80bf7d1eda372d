//! What came of a row, against what is wanted.
use std::alloc::{AllocError, Global};
use std::process::Abort;

/// Compares what came of a row, as a text, with these lines.
pub fn check(
    rt: &impl Abort,
    alloc: Global,
    found: Result<String, AllocError>,
    wanted: &[&str],
) -> Result<(), AllocError> {
    let found = found?;
    let wanted = wanted.join(alloc, "\n")?;
    assert!(rt; found == wanted, "{found}");
    Ok(())
}
