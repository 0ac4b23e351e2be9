//! A shared session as a gate.

ghost use Rattle.std.specs.Prelude.{◌≡◌};

use alphabet::Alphabet;
use connections::{Gate, Over};
use left_right::Absorb;
use seats::SeatJudge;
use shared::{Board, Recorder, Share, Shared, Sharing, Summary};
use std::alloc::Global;
use std::sync::Wait;
use wire::{Fault, Sink, Source, Tally};

/// A shared session at which connections are served, each at a seat of its own. Its places are the seats' shares. It isn't `Drop`:
/// end it by `end`.
pub struct SharedGate<'a, J: Recorder, N: Sharing<J>>
where
    Board<N, Global>: Absorb<Summary, State = Summary>,
{
    shared: &'a Shared<J, Global, N>,
    alphabet: &'a Alphabet<Global>,
    ghost same: { alphabet.now ≡ N.spec.alphabet },
}

impl<'a, J: Recorder, N: Sharing<J>> SharedGate<'a, J, N> {
    /// The gate to this session. The alphabet is that of its specification. By it `connections::serve_all` serves the session, each
    /// connection at a seat of its own. All threads read the alphabet without the session's lock (`Spec::shared_alphabet`). No seat is given yet: `place` gives one for each connection, or answers 22, 26 or 31.
    /// Constant cost; takes no memory.
    pub fn new(
        shared: &'a Shared<J, Global, N>,
        alphabet: &'a Alphabet<Global>,
    ) -> SharedGate<'a, J, N>
        requires { alphabet.now ≡ N.spec.alphabet }
    {
        SharedGate { shared, alphabet }
    }

    /// Ends the gate.
    pub fn end(self) {
        let Self {
            shared: _,
            alphabet: _,
        } = self;
    }
}

impl<J: Recorder, N: Sharing<J> + Send + Sync> Gate for SharedGate<'_, J, N> {
    type Place = Share<N, Global>;

    ghost use Rattle.serving.specs.Runs.{IsAnsweredAt, IsNewSeat};
    ghost use Rattle.answers.specs.Faults.{IsNoSeat};

    ghost gives = { λ _ share. IsNewSeat N.opening share };

    ghost refuses = { λ _ fault. IsNoSeat fault };

    ghost serves = { λ _ share last tally left rest old new end. IsAnsweredAt N.spec share last tally left rest old new end };

    fn place<T: Wait>(&self, rt: &T, alloc: Global) -> Result<Share<N, Global>, Fault> {
        match self.shared.seat(rt, alloc) {
            Ok(seat) => Ok(seat.end()),
            Err(fault) => Err(fault.plain()),
        }
    }

    fn serve<T: Wait, R: Source, W: Sink>(
        &self,
        rt: &T,
        alloc: Global,
        place: Share<N, Global>,
        reader: &mut R,
        writer: &mut W,
    ) -> Over<Share<N, Global>> {
        let mut judge = SeatJudge::new(rt, self.shared.again(place));
        let mut tally = Tally::new();
        let end = judge.serve(alloc, reader, writer, self.alphabet, &mut tally);
        Over {
            place: judge.end(),
            end,
            tally,
        }
    }
}
