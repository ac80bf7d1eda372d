//! Tables of rows: a text, and behind ` => ` what has to be shown of it. In a text `/` stands for a line feed and `^`
//! for a carriage return.
use std::alloc::{AllocError, Global};
use std::process::Abort;

/// What a public call makes of the text of a row, shown as a text.
pub trait Shown {
    fn shown(alloc: Global, text: &str) -> Result<String, AllocError>;
}

/// Whether a row comes out as it says.
fn comes_out<S: Shown>(alloc: Global, row: &str) -> Result<bool, AllocError> {
    let (text, wanted) = row.split_once(" => ").unwrap_or((row, ""));
    Ok(S::shown(alloc, text)?.as_str() == wanted)
}

/// Runs each row of a table, and compares.
pub fn check<S: Shown>(rt: &impl Abort, alloc: Global, table: &str) -> Result<(), AllocError> {
    for row in table.lines() {
        let comes_out = comes_out::<S>(alloc, row)?;
        assert!(rt; comes_out, "{row}");
    }
    Ok(())
}

/// The bytes of a row's text.
pub fn bytes_of(alloc: Global, row: &str) -> Result<Vec<u8>, AllocError> {
    let text = row.replace(alloc, "/", "\n")?.replace(alloc, "^", "\r")?;
    Ok(text.into_bytes())
}

/// The number that a text is, and 0 for another text.
pub fn number_of(text: &str) -> u32 {
    text.parse().unwrap_or(0)
}
