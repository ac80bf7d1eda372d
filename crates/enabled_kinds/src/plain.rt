//! The kinds whose events carry no argument.
ghost use Rattle.std.specs.Prelude.{◌≡◌, Some};
ghost use Rattle.enabled_kinds.specs.Kinds.{kind_number, plain_kind};
ghost use Rattle.machine_states.specs.runner_parts.specs.declared.event.EventKind.{EventKind};

use machine_states::runner_parts::EventKind;

/// The event of the kind with this number, where its events carry no argument.
pub fn plain_kind(number: u32) -> Option<EventKind>
    ensures kind { result ≡ plain_kind number }
    ensures number { (k : EventKind) → result ≡ Some k → kind_number k ≡ number }
{
    match number {
        0 => Some(EventKind::EnterLoad),
        1 => Some(EventKind::Announce),
        2 => Some(EventKind::EnterAgain),
        3 => Some(EventKind::Idle),
        4 => Some(EventKind::ScanEpoch),
        6 => Some(EventKind::Advance),
        7 => Some(EventKind::Split),
        8 => Some(EventKind::Commit),
        10 => Some(EventKind::ExchangeCell),
        13 => Some(EventKind::MakeCommit),
        14 => Some(EventKind::RetireCommit),
        15 => Some(EventKind::EpochForRetire),
        17 => Some(EventKind::LoadDone),
        19 => Some(EventKind::SetDone),
        20 => Some(EventKind::Release),
        22 => Some(EventKind::StampExchange),
        23 => Some(EventKind::ClockRaise),
        24 => Some(EventKind::ReplyExchange),
        27 => Some(EventKind::NestedLoad),
        28 => Some(EventKind::NestedHold),
        29 => Some(EventKind::OutcomeLoad),
        30 => Some(EventKind::OutcomeCommit),
        35 => Some(EventKind::ReadReply),
        36 => Some(EventKind::ReadStamp),
        _ => None,
    }
}
