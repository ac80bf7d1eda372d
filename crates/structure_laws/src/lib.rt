//! What a structure means to the machine, and the laws that it meets.
//!
//! The definitions stand in specs: `Scene` is what the laws speak of, `Meaning` what a structure chooses, `Sound`
//! what the core supplies, and `Shape`, `InTurn`, `Keeps`, `Gives` and `Fitting` are the five laws, joined in `Laws`;
//! `Lawful` is the core's side. `structure` is the trait by which code asks a structure. `Tray` is the test structure:
//! `tray` has what it computes from readings, `laws` that it meets the laws.
#![tactic(auto)]

mod laws;
mod ranks;
mod structure;
mod tray;

pub use laws::{tray_meets_the_laws, tray_moves_are_lawful};
pub use ranks::ranks_fall;
pub use structure::Structure;
pub use tray::tray_links;

// Passed on to the layers above, so that they needn't name these libraries themselves.
pub use body_terms;
pub use body_terms::block_words::table_words;
pub use map_history;
