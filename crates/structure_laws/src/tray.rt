//! What the test structure computes from readings.
ghost use Rattle.std.specs.Prelude.{◌≡◌};
ghost use Rattle.structure_laws.specs.Tray.{tray_reaches};

use body_terms::{Place, Word};

/// The place of the test structure's link.
const LINK: Place = 2;

/// Whether one of these readings is a word of the link that leads to this node slot.
pub fn tray_links(readings: &[(Place, Word)], slot: u32) -> bool
    ensures { result ≡ tray_reaches readings.now slot }
{
    readings.iter().any(|&(place, word)| place == LINK
        && u64::from(word.value()) == u64::from(slot) + 1)
}
