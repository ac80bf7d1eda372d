//! A run of a section, and what is kept of one that came to its end.

use std::marker::Model;
use structure_laws::body_terms::{Outcome, Place, Word};

/// A run of a section in progress.
///
/// `opened` has the thunk words and then the done word, as far as they were loaded. `at` is the place in the body's
/// line of atomic steps. `word` is the number that the last step gave and the next one goes by: a cell's word, an
/// epoch, the clock or the agreed stamp. `made` is the slot that a Make fills, and `worn` says whether one of the cells
/// stored for it now has the greatest version. `ended` counts the exchanges of the run's end. `links` has the blocks on
/// which the section's runs agreed, in the order of the links, and `won` those of them that this run linked itself;
/// `block` is the own block that it empties to link it, and `emptied` how many of that block's words it has made 0.
#[derive(Drop)]
pub struct Run {
    pub descriptor: u32,
    pub opened: Vec<u64>,
    pub at: u32,
    pub word: u64,
    pub trail: Vec<u64>,
    pub made: Option<u32>,
    pub worn: bool,
    pub ended: u32,
    pub links: Vec<u32>,
    pub block: Option<u32>,
    pub emptied: u32,
    pub won: Vec<u32>,
}

impl Model for Run {
    ghost use Rattle.runner_parts.specs.State.{RunState};

    ghost Value = { RunState };

    ghost view = { λ a. record {
      descriptor = a.descriptor;
      opened = a.opened.items;
      at = a.at;
      word = a.word;
      trail = a.trail.items;
      made = a.made;
      worn = a.worn;
      ended = a.ended;
      links = a.links.items;
      block = a.block;
      emptied = a.emptied;
      won = a.won.items;
    } };
}

/// A section that the runner ran to its end: its name (its descriptor, and the outer lock with the free
/// word that it had before), how it ended, and its trail.
#[derive(Drop)]
pub struct Finished {
    pub descriptor: u32,
    pub lock: Place,
    pub word: Word,
    pub outcome: Outcome,
    pub trail: Vec<u64>,
    pub late: bool,
}

impl Model for Finished {
    ghost use Rattle.runner_parts.specs.State.{FinishedState};

    ghost Value = { FinishedState };

    ghost view = { λ a. record {
      descriptor = a.descriptor;
      lock = a.lock;
      word = a.word;
      outcome = a.outcome;
      trail = a.trail.items;
      late = a.late;
    } };
}
