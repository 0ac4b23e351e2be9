//! Laws of the meaning of processes. Each function does nothing: its contract is the law.

ghost use Rattle.std.specs.Prelude.{◌≡◌, ℕ, List, [], ◌∷◌, ◌++◌, ◌↔◌, IsTrue};
ghost use Rattle.term.specs.Events.{Event, tick};
ghost use Rattle.term.specs.Traces.{Refusal};
ghost use Rattle.term.specs.Proc.{bodies_of, Proc};
ghost use Rattle.term.specs.Limits.{Reach};
ghost use Rattle.term.specs.Specs.{IsClosed, IsProcessOf, Specified};
ghost use Rattle.term.specs.Meaning.{Trace, Failure};
ghost use Rattle.term.specs.Steps.{Run, Refuses};
ghost use Rattle.term.specs.Examples.{ExternalChoice, HiddenLoop, InternalChoice, Interleaving, Interrupted, Renamed, Sequence, SkipBesideLoop, SkipInChoice, Synchronised, Unguarded};

/// Runs are the meaning: the traces of a process are those of its runs, and its failures are what the last
/// processes of its runs refuse. For all bodies, processes, traces and refusals.
pub fn runs_are_the_meaning()
    ensures traces { (B : ℕ → Proc) (P : Proc) (u : List Event) → Run B (λ _. Unit {0}) P u ↔ Trace B P u }
    ensures failures { (B : ℕ → Proc) (P : Proc) (u : List Event) (X : Refusal) → Run B (Refuses B X) P u ↔ Failure B P u X }
{}

/// Tick stands at most last in a trace, and each beginning of a trace is a trace.
pub fn traces_end_with_tick()
    ensures last { (B : ℕ → Proc) (P : Proc) (s t : List Event) → Trace B P (s ++ tick ∷ t) → t ≡ [] }
    ensures begins { (B : ℕ → Proc) (P : Proc) (s t : List Event) → Trace B P (s ++ t) → Trace B P s }
{}

/// The trace of a failure is a trace, and what refuses a set refuses all that is in it.
pub fn failures_go_down()
    ensures trace { (B : ℕ → Proc) (P : Proc) (u : List Event) (X : Refusal) → Failure B P u X → Trace B P u }
    ensures subset { (B : ℕ → Proc) (P : Proc) (u : List Event) (X Y : Refusal) → Failure B P u X → ((x : Event) → IsTrue (Y x) → IsTrue (X x)) → Failure B P u Y }
{}

/// The definitions give what is known of these processes.
pub fn worked_examples()
    ensures internal_choice { InternalChoice }
    ensures external_choice { ExternalChoice }
    ensures skip_in_choice { SkipInChoice }
    ensures skip_beside_loop { SkipBesideLoop }
    ensures unguarded { Unguarded }
    ensures hidden_loop { HiddenLoop }
    ensures interleaving { Interleaving }
    ensures synchronised { Synchronised }
    ensures renamed { Renamed }
    ensures sequence { Sequence }
    ensures interrupted { Interrupted }
{}

/// What is reached from a process of a specification is one of its processes.
pub fn processes_stay()
    ensures { (s : Specified) (P Q : Proc) (u : List Event) → IsClosed s → IsProcessOf s P → Reach (bodies_of s.bodies) P u Q → IsProcessOf s Q }
{}
