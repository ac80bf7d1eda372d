//! The kinds of step that can be made again and again, with their names.

use machine_states::table_words::DESCRIPTOR_WORDS;

/// A kind of step, or a cycle of steps that comes back to where it began.
#[derive(Clone, Copy, Debug, PartialEq, Eq)]
pub enum Kind {
    /// The load of a request's stamp word.
    LoadEntry,
    /// The load of a cell by an entered runner.
    LoadCell,
    /// The load of a word of an own free descriptor.
    PrivateLoad,
    /// A store into a word of an own free descriptor.
    PrivateStore,
    /// The loads of all words of an own free descriptor, each compared with a number.
    Descriptor,
    /// An entry and its end: two loads of the epoch, two stores of the announcement, and one of the guard word.
    Enter,
    /// A scan of two workers and the keeper: four loads, and the exchange that advances the epoch.
    Scan,
}

pub const KINDS: [Kind; 7] = [
    Kind::LoadEntry,
    Kind::LoadCell,
    Kind::PrivateLoad,
    Kind::PrivateStore,
    Kind::Descriptor,
    Kind::Enter,
    Kind::Scan,
];

impl Kind {
    pub fn name(self) -> &'static str {
        match self {
            Kind::LoadEntry => "load_entry",
            Kind::LoadCell => "load_cell",
            Kind::PrivateLoad => "private_load",
            Kind::PrivateStore => "private_store",
            Kind::Descriptor => "descriptor",
            Kind::Enter => "enter",
            Kind::Scan => "scan",
        }
    }

    /// How many steps a round has.
    pub fn steps(self) -> u32 {
        match self {
            Kind::LoadEntry | Kind::LoadCell | Kind::PrivateLoad | Kind::PrivateStore => 1,
            Kind::Descriptor => DESCRIPTOR_WORDS as u32,
            Kind::Enter | Kind::Scan => 5,
        }
    }

    /// The kind of this name.
    pub fn named(name: &str) -> Option<Kind> {
        KINDS.into_iter().find(|kind| kind.name() == name)
    }
}
