//! Where connections come from, and where they are served.

ghost use Rattle.std.specs.Prelude.{◌≡◌, ◌≢◌, ◌⊎◌, ◌+◌, ◌<◌, ℕ, List, Option, Result, Err, IsErrOf, IfOk, IfErr, IfSome, IfNone, OnOk, OnErr};
ghost use Rattle.wire.specs.Faults.{Fault};
ghost use Rattle.answers.specs.declared.fault.Fault.TheVariants.{Seats};
ghost use Rattle.wire.specs.declared.answer.Tally.{Tally};
ghost use Rattle.wire.specs.declared.engine.End.{End};
ghost use Rattle.wire.specs.declared.engine.WireError.{WireError};

use std::alloc::Global;
use std::sync::Wait;
use wire::{End, Fault, Sink, Source, Tally, WireError};

/// No connection could be taken.
#[derive(Clone, Copy, Debug, PartialEq, Eq)]
pub struct AcceptFault;

/// What the lines of a connection are read from, as the connection is closed.
pub trait Close {
    /// The connection was closed while this was so. Of a type that isn't known, only `close` shows it.
    ghost is_closed: { Self → Type 0 } = { λ _. Unit {0} };

    /// Closes the connection, which is over, so that its peer still gets all that was written.
    fn close(self)
        ensures { is_closed self };
}

/// Where connections come from. It says by relations of its own which connections come.
pub trait Accept {
    /// What a connection's lines are read from.
    type Reader: Source + Close + Send + Drop;

    /// What its replies are written to.
    type Writer: Sink + Send + Drop;

    /// A connection with this reader and this writer is taken: what it was before, the reader, the writer, and what it is then.
    ghost takes: { Self → Self.Reader → Self.Writer → Self → Type 0 };

    /// None can be taken: what it was before, and what it is then.
    ghost fails: { Self → Self → Type 0 };

    /// Takes the next connection. It may wait for one without end.
    fn accept(&mut self) -> Result<(Self::Reader, Self::Writer), AcceptFault>
        ensures taken { IfOk result (λ connection. takes self.old connection.0 connection.1 self.new) }
        ensures failed { OnErr result (fails self.old self.new) };
}

/// Where connections are served. It says by relations of its own what that means.
pub trait Gate {
    /// What a connection is served at. A thread takes it along and gives it back.
    type Place: Send + Drop;

    /// The gate gives this place.
    ghost gives: { Self → Self.Place → Type 0 };

    /// It gives none, for this fault.
    ghost refuses: { Self → Fault → Type 0 };

    /// A connection is served to its end at a place: the place before and after it, what there was among its answers, what is left to
    /// be read before and after it, what is written before and after it, and how it ends.
    ghost serves: { Self → Self.Place → Self.Place → Tally → Option (List ℕ) → Option (List ℕ) → Option (List ℕ) → Option (List ℕ) → Result End WireError → Type 0 };

    /// Gives a place, or says why there is none. The thread that takes connections asks for a place for each, before the connection
    /// has a thread of its own; it may wait, as for a lock. The fault goes to the client as the only line (`ERR 22 seats`, say),
    /// that connection is closed, and the next one is taken. `serve` gives the place back when its connection is over.
    fn place<T: Wait>(&self, rt: &T, alloc: Global) -> Result<Self::Place, Fault>
        ensures given { IfOk result (λ place. gives self.now place) }
        ensures refused { IfErr result (λ fault. refuses self.now fault) };

    /// Serves a connection at a place, and gives the place back.
    fn serve<T: Wait, R: Source, W: Sink>(
        &self,
        rt: &T,
        alloc: Global,
        place: Self::Place,
        reader: &mut R,
        writer: &mut W,
    ) -> Over<Self::Place>
        ensures serves { serves self.now place result.place result.tally (R.left reader.old) (R.left reader.new) (W.contents writer.old) (W.contents writer.new) result.end }
        ensures handed_on { W.has_handed_on writer.old → result.end ≢ Err WireError.Write → W.has_handed_on writer.new }
        ensures reader_failed { IsErrOf result.end WireError.Read → R.failures reader.old < R.failures reader.new }
        ensures writer_failed { IsErrOf result.end WireError.Write → W.failures writer.old < W.failures writer.new };
}

/// Where connections come from without end.
pub trait Listen: Accept {
    /// None came within a moment: what it was before, and what it is then.
    ghost waits: { Self → Self → Type 0 } = { λ old new. new ≡ old };

    /// Takes the next connection, or answers within a moment that none came. Where it can't, it stays as it is, and may be asked again.
    fn accept_soon(&mut self) -> Result<Option<(Self::Reader, Self::Writer)>, AcceptFault>
        ensures taken { IfOk result (λ next. IfSome next (λ connection. Self.takes self.old connection.0 connection.1 self.new)) }
        ensures none { IfOk result (λ next. IfNone next (waits self.old self.new)) }
        ensures failed { OnErr result (Self.fails self.old self.new × (self.new ≡ self.old)) };
}

/// A gate whose places are given back once their connections are over, so that they may be given again. One thread has the free places.
pub trait Reusable: Gate {
    /// The places that are free, and how many reports were answered at those that were given back.
    type Places: Drop;

    /// How many places are free.
    ghost free: { Self.Places → ℕ };

    /// How many reports were answered at the places that were given back.
    ghost counted: { Self.Places → ℕ };

    /// How many reports were answered at a place.
    ghost answered: { Self.Place → ℕ };

    /// It can take places back.
    ghost takes_back: { Self → Type 0 } = { λ _. Unit {0} };

    /// Gives one of the free places, or says why there is none, as `place` does; where all were given, by the fault 22.
    fn take<T: Wait>(
        &self,
        rt: &T,
        alloc: Global,
        places: &mut Self::Places,
    ) -> Result<Self::Place, Fault>
        ensures given { IfOk result (λ place. Self.gives self.now place × (answered place ≡ 0)) }
        ensures refused { IfErr result (λ fault. Self.refuses self.now fault ⊎ ((fault ≡ Seats) × (free places.old ≡ 0))) }
        ensures one { OnOk result (free places.new + 1 ≡ free places.old) }
        ensures none { OnErr result (free places.new ≡ free places.old) }
        ensures counted { counted places.new ≡ counted places.old };

    /// Takes a place back, which is free then. It may wait, as for a lock.
    fn leave<T: Wait>(&self, rt: &T, place: Self::Place, places: &mut Self::Places)
        requires { takes_back self.now }
        ensures free { free places.new ≡ free places.old + 1 }
        ensures counted { counted places.new ≡ counted places.old + answered place };
}

/// A connection that is over.
#[derive(Drop)]
pub struct Over<P> {
    /// The place that it was served at.
    pub place: P,
    /// How it ended.
    pub end: Result<End, WireError>,
    /// What there was among its answers.
    pub tally: Tally,
}
