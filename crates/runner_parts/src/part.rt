//! What one runner is at and keeps.

use crate::entries::{BoardRead, Published};
use crate::lists::{Blocks, Descriptors, Guards, Nodes, Reads, Records};
use crate::run::Run;
use epoch_core::Stage;
use std::marker::Model;

/// What one runner is at and keeps. A worker that was joined makes no further step.
#[derive(Drop)]
pub struct Part {
    pub stage: Stage,
    pub run: Option<Run>,
    pub published: Option<Published>,
    pub nodes: Nodes,
    pub descriptors: Descriptors,
    pub blocks: Blocks,
    pub guards: Guards,
    pub reads: Reads,
    /// The loads of the board since the runner was idle last, the latest one first.
    pub board: Vec<BoardRead>,
    pub records: Records,
    pub gone: bool,
}

impl Model for Part {
    ghost use Rattle.runner_parts.specs.State.{PartState};

    ghost Value = { PartState };

    ghost view = { λ a. record {
      stage = a.stage;
      run = a.run;
      published = a.published;
      nodes = a.nodes;
      descriptors = a.descriptors;
      blocks = a.blocks;
      guards = a.guards;
      reads = a.reads;
      board = a.board.items;
      records = a.records;
      gone = a.gone;
    } };
}
