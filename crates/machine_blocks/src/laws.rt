//! The laws of logs in the machine, each on a contract.
ghost use Rattle.std.specs.Prelude.{List};
ghost use Rattle.machine_states.specs.map_history.specs.declared.op.Request.{Request};
ghost use Rattle.machine_states.specs.table_words.specs.declared.layout.Layout.{Layout};
ghost use Rattle.machine_blocks.specs.Keeps.{LogsStandFirst, StepsKeepLogs, CommitsFindTheLog, LinksLeadOn, LinkedAreFew};
ghost use Rattle.machine_blocks.specs.Writes.{StepsWriteLogs};

use machine_states::structure_laws::Structure;

/// In the machine's first state no log has a word, and no descriptor a block.
pub fn logs_stand_at_first<S: Structure>(structure: &S)
    ensures { (layout : Layout) (requests : List Request) → LogsStandFirst (S.meaning structure.now) layout requests }
{}

/// Each step of the machine, with the events that it is in agreement and in epochs and slots, keeps that both have the
/// same logs, and where these stand: in the descriptors, and as long as somebody is sure of a descriptor in its blocks.
pub fn steps_keep_logs<S: Structure>(structure: &S)
    ensures { (layout : Layout) (requests : List Request) → StepsKeepLogs (S.meaning structure.now) layout requests }
{}

/// A step leaves the log of each section whose descriptor isn't free with the stepping runner, but where a run of that
/// section commits there: then the word that was there is agreed on, or else the run's proposal.
pub fn steps_write_logs<S: Structure>(structure: &S)
    ensures { (layout : Layout) (requests : List Request) → StepsWriteLogs (S.meaning structure.now) layout requests }
{}

/// A commit of a run finds the word that its section's log has at the place to which the run commits.
pub fn commits_find_the_log<S: Structure>(structure: &S)
    ensures { (layout : Layout) (requests : List Request)
        → CommitsFindTheLog (S.meaning structure.now) layout requests }
{}

/// A run that puts a block into the link behind the parts of its log that it knows finds there the next block, or 0 where
/// it knows them all.
pub fn links_lead_on<S: Structure>(structure: &S)
    ensures { (layout : Layout) (requests : List Request) → LinksLeadOn (S.meaning structure.now) layout requests }
{}

/// One that wins there has fewer blocks before it than the number of the part in which the run's next word stands: so a
/// log never has more blocks than its words need.
pub fn linked_blocks_are_few<S: Structure>(structure: &S)
    ensures { (layout : Layout) (requests : List Request) → LinkedAreFew (S.meaning structure.now) layout requests }
{}
