// What the counts of a legal report say where each trace has keys of its own.
ghost use Rattle.std.specs.Prelude.{◌≡◌, ◌<◌, ℕ, All, List, Option, true};
ghost use Rattle.structure_laws.specs.map_history.specs.declared.op.Entry.{Entry};
ghost use Rattle.structure_laws.specs.map_history.specs.declared.op.Request.{Request};
ghost use Rattle.run_reports.specs.report_text.specs.Entries.{AreLegal};
ghost use Rattle.trace_reader.specs.Generator.{generated};
ghost use Rattle.trace_reader.specs.declared.generator.Gen.{Gen};
ghost use Rattle.load_counts.specs.Apart.{AreApart, pairs_alone, replies_alone, unserved_in};
ghost use Rattle.load_counts.specs.Counts.{counts_in, counts_of};

/// Where each trace has keys of its own and each request is served, a legal report has the replies of each trace served
/// by itself, as often as they come there, and as many pairs are left.
pub fn traces_apart_are_answered_alone()
    ensures counts { (requests : List Request) (traces : ℕ) (entries : List (Option Entry)) (size : ℕ)
        → AreLegal requests entries size → unserved_in entries ≡ 0 → AreApart requests traces
        → All (λ (request : Request). request.trace < traces) requests
        → counts_in entries ≡ counts_of (replies_alone requests traces) }
    ensures pairs { (requests : List Request) (traces : ℕ) (entries : List (Option Entry)) (size : ℕ)
        → AreLegal requests entries size → unserved_in entries ≡ 0 → AreApart requests traces
        → All (λ (request : Request). request.trace < traces) requests
        → size ≡ pairs_alone requests traces }
{}

/// A plan whose traces are to be apart gives requests that are.
pub fn generated_traces_are_apart()
    ensures { (plan : Gen) → plan.apart ≡ true → AreApart (generated plan) plan.traces }
{}
