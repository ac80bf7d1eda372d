// Worked rows, and scripts on two real threads.

use body_terms::StepKind;
use runner_gate::{
    Free, FreeGates, Gate, Gates, HaltAt, Pass, Pause, PlannedGates, Scripted, ScriptedGates,
};
use std::sync::atomic::{AtomicBool, Ordering};
use std::test::Fail;
use std::thread;

/// At which of three asks the gate halts.
fn halts<G: Gate>(gate: &mut G) -> [bool; 3] {
    let entered = gate.after(StepKind::Entered) == Pass::Halt;
    let walked = gate.after(StepKind::Walk) == Pass::Halt;
    let held = gate.after(StepKind::Hold) == Pass::Halt;
    [entered, walked, held]
}

#[test]
fn a_gate_halts_at_its_number_and_at_each_later_ask(rt: HostRuntime) {
    assert!(rt; halts(&mut HaltAt::new(Some(2))) == [false, true, true]);
    assert!(rt; halts(&mut HaltAt::new(None)) == [false, false, false]);
    assert!(rt; halts(&mut Free::new()) == [false, false, false]);
}

/// At which asks the gate of runner 3 halts, where it is planned to at its third; then the gate is given back.
fn halts_as_planned<G: Gates>(gates: &mut G) -> [bool; 3] {
    let mut gate = gates.gate(3, Some(3));
    let halts = halts(&mut gate);
    gates.back(gate);
    halts
}

#[test]
fn gates_follow_their_plan_or_never_halt(rt: HostRuntime) {
    assert!(rt; halts_as_planned(&mut PlannedGates::new()) == [false, false, true]);
    assert!(rt; halts_as_planned(&mut FreeGates::new()) == [false, false, false]);
}

/// A script in which the gate of 0, at `at`, waits for that of 1 at `Hold`, and the gate of 1, as it enters, for that
/// of 0.
fn crossed(at: StepKind) -> [Pause; 2] {
    [
        Pause {
            runner: 0,
            at,
            until_runner: 1,
            until: StepKind::Hold,
        },
        Pause {
            runner: 1,
            at: StepKind::Entered,
            until_runner: 0,
            until: StepKind::Entered,
        },
    ]
}

/// Whether the gate lets its runner go on as it enters, and where the flag is up then.
fn enters_behind(gate: &mut Scripted, flag: &AtomicBool) -> bool {
    gate.after(StepKind::Entered) == Pass::Go && flag.load(Ordering::SeqCst)
}

/// Whether the gate lets its runner go on as it enters and as it publishes, with the flag raised between.
fn publishes(gate: &mut Scripted, flag: &AtomicBool) -> bool {
    let enters = gate.after(StepKind::Entered) == Pass::Go;
    flag.store(true, Ordering::SeqCst);
    enters && gate.after(StepKind::Hold) == Pass::Go
}

#[test]
fn two_gates_wait_for_each_other(rt: HostRuntime) -> Result<(), Fail> {
    let pauses = crossed(StepKind::Entered).to_vec(rt.alloc())?;
    let mut gates = ScriptedGates::new(rt.alloc(), pauses)?;
    let (mut first, mut second) = (gates.gate(0, None), gates.gate(1, None));
    let flag = AtomicBool::new(false);
    let (enters, goes_on) = thread::join(
        &rt,
        || enters_behind(&mut first, &flag),
        || publishes(&mut second, &flag),
    );
    assert!(rt; enters);
    assert!(rt; goes_on);
    gates.back(first);
    gates.back(second);
    Ok(())
}

#[test]
fn a_gate_that_waits_in_vain_halts(rt: HostRuntime) -> Result<(), Fail> {
    let pauses = crossed(StepKind::Walk).to_vec(rt.alloc())?;
    let mut gates = ScriptedGates::with_limit(rt.alloc(), pauses, 10_000)?;
    let mut gate = gates.gate(0, None);
    assert!(rt; halts(&mut gate) == [false, true, false]);
    gates.back(gate);
    Ok(())
}
