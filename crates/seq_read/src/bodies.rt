//! What a read asks of a body.
ghost use Rattle.std.specs.Prelude.{◌≡◌, position, not};
ghost use Rattle.machine_states.specs.body_terms.specs.Shape.{is_look, IsShaped};
ghost use Rattle.machine_states.specs.runner_steps.specs.Sections.{reply_in};
ghost use Rattle.seq_read.specs.View.{steps_in};

use crate::view::BodyView;
use machine_states::body_terms::Step;

/// Whether this step changes nothing: it loads a cell, tests what was loaded, or is the stamp or the answer.
fn looks(step: &Step) -> bool
    ensures { result ≡ is_look step.now }
{
    matches!(
        step,
        Step::Load { .. } | Step::Want { .. } | Step::Stamp | Step::Answer { .. }
    )
}

/// The place of the first of these steps that changes something, if one does.
fn first_change_in(steps: &[Step]) -> Option<usize>
    ensures { result ≡ position (λ step. not (is_look step)) steps.now }
{
    steps.iter().position(|step| !looks(step))
}

/// The reply of the Answer, which is the last of these steps.
fn last_reply(steps: &[Step]) -> u64
    requires { IsShaped steps.now }
    ensures { result ≡ reply_in steps.now }
{
    match steps[steps.len() - 1] {
        Step::Answer { reply } => reply,
        _ => unreachable!(),
    }
}

/// The place of the first step of a body that changes something, if one does.
#[inline(always)]
pub fn first_change(body: &BodyView) -> Option<usize>
    ensures { result ≡ position (λ step. not (is_look step)) (steps_in body.now) }
{
    match body {
        BodyView::Written(steps) => first_change_in(steps),
        BodyView::Glanced(_) => None,
    }
}

/// The reply of a body's Answer.
#[inline(always)]
pub fn reply_of(body: &BodyView) -> u64
    requires { IsShaped (steps_in body.now) }
    ensures { result ≡ reply_in (steps_in body.now) }
{
    match body {
        BodyView::Written(steps) => last_reply(steps),
        BodyView::Glanced(glance) => glance.reply,
    }
}
