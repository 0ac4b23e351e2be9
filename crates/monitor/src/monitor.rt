//! Monitors and judgments.

ghost use Rattle.std.specs.Prelude.{IfOk, IfErr, OnOk, ◌≡◌, ◌++◌, [], ◌∷◌, ◌↔◌, IsTrue, List, length};
ghost use Rattle.alphabet.specs.declared.events.Event.{Event};
ghost use Rattle.alphabet.specs.EventSets.{member};
ghost use Rattle.term.specs.Meaning.{Trace};
ghost use Rattle.term.specs.Proc.{bodies_of, root};
ghost use Rattle.term.specs.Verdict.{Verdict};
ghost use Rattle.spaces.specs.Acceptances.{AreAcceptances};
ghost use Rattle.spaces.specs.Limits.{OpeningMeets, OpeningMeetsNone};
ghost use Rattle.spaces.specs.Spaces.{Belongs, GrewFrom, IsSetOf};
ghost use Rattle.monitor.specs.TraceAfter.{trace_after};
ghost use Rattle.monitor.specs.Monitors.{IsJudgment, IsOf, MeetsNone, Stops, space_of};

use alphabet::{Event, EventSet, Report};
use past::Past;
use spaces::{AfterFault, Space, StateSet};
use std::alloc::{AllocError, Allocator};
use std::marker::Model;
use std::snapshot::Snapshot;
use term::Spec;

/// A monitor: a specification and a trace of it, the events accepted so far. It keeps what the root may be after the trace,
/// and not the trace: what it takes doesn't grow with it.
#[derive(Drop)]
pub struct Monitor<A: Allocator> {
    space: Space<A>,
    /// The trace, which clauses alone read.
    trace: Past<Event>,
    /// How many events it has.
    len: usize,
    /// What the root may be after the trace.
    states: StateSet,
}

impl<A: Allocator> Model for Monitor<A> {
    ghost use Rattle.monitor.specs.Monitors.{Monitoring, monitoring_code};

    ghost Value = { Monitoring };

    ghost coded = { monitoring_code };

    ghost use Rattle.std.specs.Prelude.{◌≡◌, ◌-◌, ◌^◌, length};
    ghost use Rattle.spaces.specs.Spaces.{Belongs};

    ghost view = { λ m. record {
      spec = m.space.spec;
      trace = m.trace.items;
      room = 2 ^ 64 - 1 - m.len;
      sets = m.space.sets;
    } };

    ghost invariant = { λ m. Belongs m.space m.states m.trace.items × (m.len ≡ length m.trace.items) };
}

/// What a monitor found of a report, after the trace that it then had. It has no copy of the report.
#[derive(Drop)]
pub struct Judged {
    /// The report, which clauses alone read.
    report: Snapshot<Report>,
    /// The event, where the report is of one.
    event: Option<Event>,
    verdict: bool,
    /// What the root may be after the event, where it is accepted.
    next: Option<StateSet>,
}

impl Model for Judged {
    ghost use Rattle.monitor.specs.Monitors.{Judgment, judgment_code};

    ghost Value = { Judgment };

    ghost coded = { judgment_code };

    ghost use Rattle.std.specs.Prelude.{◌≡◌, ◌↔◌, Some};
    ghost use Rattle.alphabet.specs.declared.events.Event.{Event};
    ghost use Rattle.alphabet.specs.declared.events.Report.TheVariants as reported;

    ghost view = { λ j. record { report = j.report.value; verdict = j.verdict; next = j.next } };

    ghost invariant = { λ j. (x : Event) → (j.report.value ≡ reported.Event x) ↔ (j.event ≡ Some x) };
}

impl Judged {
    /// Whether the report is accepted. Takes no memory.
    pub fn verdict(&self) -> bool
        ensures { result ≡ self.now.verdict }
    {
        self.verdict
    }
}

impl<A: Allocator + Copy> Monitor<A> {
    /// A monitor of this specification, before any event. It is refused where the levels from the root's name on meet
    /// a limit.
    pub fn new(alloc: A, spec: Spec<A>) -> Result<Monitor<A>, AfterFault>
        ensures spec { IfOk result (λ monitor. monitor.spec ≡ spec) }
        ensures trace { IfOk result (λ monitor. monitor.trace ≡ []) }
        ensures within { OnOk result (OpeningMeetsNone spec) }
        ensures limit { IfErr result (OpeningMeets spec) }
    {
        let mut space = Space::new(alloc, spec);
        match StateSet::start(&mut space) {
            Ok(states) => Ok(Monitor {
                space,
                trace: Past::new(),
                len: 0,
                states,
            }),
            Err(fault) => {
                drop(space);
                Err(fault)
            }
        }
    }

    /// Judges the report after the present trace, which stays. An event is refused where the levels from its targets on
    /// meet a limit; a refusal meets none.
    pub fn judge(&mut self, report: &Report) -> Result<Judged, AfterFault>
        ensures report { IfOk result (λ judged. judged.report ≡ report.now) }

        // An event is accepted exactly where it makes the trace longer, a refusal exactly where it is a stable failure.
        ensures verdict { IfOk result (λ judged. IsTrue judged.verdict ↔ Verdict (bodies_of self.old.spec.bodies) self.old.trace report.now) }
        ensures judged { IfOk result (IsOf self.new) }
        ensures within { OnOk result (MeetsNone self.old.spec self.old.trace report.now) }
        ensures limit { IfErr result (Stops self.old.spec self.old.trace report.now) }
        ensures spec { self.new.spec ≡ self.old.spec }
        ensures trace { self.new.trace ≡ self.old.trace }

        // What was judged before the trace grows is of this monitor still.
        ensures grown { GrewFrom (space_of self.old) (space_of self.new) }
    {
        if self.len == usize::MAX {
            return Err(AfterFault::Memory);
        }
        judge_by(self.states, &mut self.space, report)
    }

    /// Takes the report over: the trace grows by an accepted event, and by nothing else. Takes no memory.
    pub fn commit(&mut self, judged: Judged)
        requires { IsOf self.old judged }
        ensures spec { self.new.spec ≡ self.old.spec }
        ensures trace { self.new.trace ≡ trace_after self.old.trace judged.report judged.verdict }
        ensures sets { self.new.sets ≡ self.old.sets }
    {
        let Judged {
            report: _,
            event,
            verdict: _,
            next,
        } = judged;
        let Some(event) = event else {
            return;
        };
        let Some(states) = next else {
            return;
        };
        self.trace = self.trace.and(&event);
        self.len += 1;
        self.states = states;
    }

    /// Begins anew with what the root may be after the present trace alone, where the sets of states that it has found are
    /// many (`Space::is_large`). What was judged before isn't of this monitor any more. Where memory is refused for that, all
    /// stays.
    pub fn forget(&mut self)
        ensures spec { self.new.spec ≡ self.old.spec }
        ensures trace { self.new.trace ≡ self.old.trace }
        ensures room { self.new.room ≡ self.old.room }
    {
        if !self.space.is_large() {
            return;
        }
        if let Ok(states) = self.states.renew(&mut self.space) {
            self.states = states;
        }
    }
}

impl<A: Allocator + Copy> Monitor<A> {
    /// The minimal acceptances after the present trace, in a fixed order: of two sets the first event that is in one of
    /// them alone decides which is first, by having it. Refused only where memory is.
    pub fn acceptances(&self, alloc: A) -> Result<Vec<EventSet, A>, AllocError>
        ensures { IfOk result (λ sets. AreAcceptances (bodies_of self.now.spec.bodies) root self.now.trace sets.items) }
    {
        self.states.acceptances(&self.space, alloc)
    }
}

impl<A: Allocator> Monitor<A> {
    /// The events that go on from the present trace, tick among them. Takes no memory.
    pub fn next(&self) -> EventSet
        ensures { (x : Event) → IsTrue (member result x) ↔ Trace (bodies_of self.now.spec.bodies) root (self.now.trace ++ x ∷ []) }
    {
        self.states.next(&self.space)
    }

    /// How many events the trace has. Takes no memory.
    pub fn trace_len(&self) -> usize
        ensures { result ≡ length self.now.trace }
    {
        self.len
    }

    /// The specification. Takes no memory.
    pub fn spec(&self) -> &Spec<A>
        ensures { result.now ≡ self.now.spec }
    {
        self.space.spec()
    }
}

/// Judges a report after each trace to which the states belong.
fn judge_by<A: Allocator + Copy>(
    states: StateSet,
    space: &mut Space<A>,
    report: &Report,
) -> Result<Judged, AfterFault>
    requires { IsSetOf space.old states }
    ensures judged { (u : List Event) → Belongs space.old states u → IfOk result (IsJudgment space.new u report.now) }
    ensures within { (u : List Event) → Belongs space.old states u → OnOk result (MeetsNone space.old.spec u report.now) }
    ensures limit { (u : List Event) → Belongs space.old states u → IfErr result (Stops space.old.spec u report.now) }
    ensures grown { GrewFrom space.old space.new }
{
    match report {
        Report::Event(event) => match states.advance(space, *event) {
            Ok(next) => Ok(Judged {
                report: Snapshot::of(report),
                event: Some(*event),
                verdict: next.is_some(),
                next,
            }),
            Err(fault) => Err(fault),
        },
        Report::Refusal(set) => Ok(Judged {
            report: Snapshot::of(report),
            event: None,
            verdict: states.refuses(space, set),
            next: None,
        }),
    }
}
