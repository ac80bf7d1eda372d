//! What holds of the lines of bodies.
ghost use Rattle.std.specs.Prelude.{◌≡◌, ◌<◌, ℕ, List, true};
ghost use Rattle.structure_laws.specs.body_terms.specs.Shape.{IsShaped};
ghost use Rattle.structure_laws.specs.body_terms.specs.Line.{line, micro_at, is_check, committed};
ghost use Rattle.structure_laws.specs.body_terms.specs.Cost.{cost_of, steps_to};
ghost use Rattle.structure_laws.specs.body_terms.specs.Run.{Setting, Run};
ghost use Rattle.structure_laws.specs.body_terms.specs.declared.step.Step.{Step};
ghost use Rattle.structure_laws.specs.body_terms.specs.declared.micro.Micro.{Micro};
ghost use Rattle.section_lines.specs.Line.{IsInPhases, IsOrdered, IsCounted, IsResolved};
ghost use Rattle.section_lines.specs.Runs.{Follows, AgreesWith};
ghost use Rattle.section_lines.specs.Rests.{RestsAt, Rests};

/// The line of a body that has the shape: its phases never fall, the atomic steps of one step stand next to
/// one another, each commit has the number of words committed before it as its place in the log, and what a
/// check or a store goes by was agreed before.
pub fn bodies_have_such_lines()
    ensures phases { (body : List Step) → IsShaped body → IsInPhases (micro_at (line body)) }
    ensures order { (body : List Step) → IsOrdered (micro_at (line body)) }
    ensures counts { (body : List Step) → IsShaped body → IsCounted (micro_at (line body)) (committed (line body)) }
    ensures registers { (body : List Step) → IsShaped body → IsResolved (micro_at (line body)) (committed (line body)) }
{}

/// A run of a body in one go, with the cells and the choices that a shared log tells so far: its trail is
/// what the log says, as far as the line was gone; the whole run's trail begins with it, and is no more
/// where the line is over or a check doesn't pass.
pub fn runs_agree_with_logs()
    ensures { (body : List Step) → IsShaped body → (s : Setting) (start : Run) (log : ℕ → ℕ) (edge : ℕ)
        → Follows s start (line body) log edge → AgreesWith s start (line body) log edge }
{}

/// A run goes behind each check that passes, and rests before every other step of its line. So before a
/// step of its body that isn't a check alone it rests where the step begins; a Want or a Fresh that passes
/// plays no part, and at one that doesn't it rests, to leave. Within a step it has the locks of the Takes
/// before the step to release.
pub fn runs_rest_at_steps()
    ensures line { (s : Setting) (trail : List ℕ) (ms : List Micro) → RestsAt s trail ms }
    ensures steps { (s : Setting) (trail : List ℕ) (body : List Step) → Rests s trail body }
{}

/// A run that leaves at a check makes fewer events, from its opening to its end, than one that goes through.
pub fn leaving_runs_make_fewer_steps()
    ensures { (body : List Step) → IsShaped body → (at lock word : ℕ) → is_check (micro_at (line body) at) ≡ true
        → steps_to body at lock word < cost_of body }
{}
