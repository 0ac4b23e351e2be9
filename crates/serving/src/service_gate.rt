//! A shared session as a gate that gives its places again.

ghost use Rattle.std.specs.Prelude.{◌≡◌};

use alphabet::Alphabet;
use connections::{Gate, Over, Reusable};
use left_right::Absorb;
use seats::ServiceJudge;
use shared::{Board, Places, Recorder, Share, Shared, Sharing, Summary};
use std::alloc::Global;
use std::sync::Wait;
use wire::{Fault, Sink, Source, Tally};

/// A service at which connections are served, each at a seat of its own, which leaves once its connection is over. Its places are the
/// seats' shares. It isn't `Drop`: end it by `end`.
pub struct ServiceGate<'a, J: Recorder, N: Sharing<J>>
where
    Board<N, Global>: Absorb<Summary, State = Summary>,
{
    shared: &'a Shared<J, Global, N>,
    alphabet: &'a Alphabet<Global>,
    ghost same: { alphabet.now ≡ N.spec.alphabet },
}

impl<'a, J: Recorder, N: Sharing<J>> ServiceGate<'a, J, N> {
    /// The gate to this service. The alphabet is that of its specification, which all threads read without the session's lock
    /// (`Spec::shared_alphabet`). By it `connections::serve_on` serves the session, with the places that `Shared::service` made.
    /// Constant cost; takes no memory.
    pub fn new(
        shared: &'a Shared<J, Global, N>,
        alphabet: &'a Alphabet<Global>,
    ) -> ServiceGate<'a, J, N>
        requires { alphabet.now ≡ N.spec.alphabet }
    {
        ServiceGate { shared, alphabet }
    }

    /// Ends the gate.
    pub fn end(self) {
        let Self {
            shared: _,
            alphabet: _,
        } = self;
    }
}

impl<J: Recorder, N: Sharing<J> + Send + Sync> Gate for ServiceGate<'_, J, N> {
    type Place = Share<N, Global>;

    ghost use Rattle.serving.specs.Runs.{IsNewSeat};
    ghost use Rattle.answers.specs.Faults.{IsNoSeat};
    ghost use Rattle.serving.specs.Services.{IsServedAt};

    ghost gives = { λ _ share. IsNewSeat N.opening share };

    ghost refuses = { λ _ fault. IsNoSeat fault };

    ghost serves = { λ _ share last tally left rest old new end. IsServedAt N.spec share last tally left rest old new end };

    // Without the places there is none.
    fn place<T: Wait>(&self, _rt: &T, _alloc: Global) -> Result<Share<N, Global>, Fault> {
        Err(Fault::Seats)
    }

    fn serve<T: Wait, R: Source, W: Sink>(
        &self,
        rt: &T,
        alloc: Global,
        place: Share<N, Global>,
        reader: &mut R,
        writer: &mut W,
    ) -> Over<Share<N, Global>> {
        let mut judge = ServiceJudge::new(rt, self.shared.again(place));
        let mut tally = Tally::new();
        let end = judge.serve(alloc, reader, writer, self.alphabet, &mut tally);
        Over {
            place: judge.end(),
            end,
            tally,
        }
    }
}

impl<J: Recorder, N: Sharing<J> + Send + Sync> Reusable for ServiceGate<'_, J, N> {
    type Places = Places<N>;

    ghost use Rattle.std.specs.Prelude.{◌≡◌};
    ghost use Rattle.shared.specs.Seats.{answers_to};

    ghost free = { λ places. places.free };

    ghost counted = { λ places. places.receipts };

    ghost answered = { λ share. answers_to share };

    ghost takes_back = { λ _. N.all ≡ N.parts };

    fn take<T: Wait>(
        &self,
        rt: &T,
        _alloc: Global,
        places: &mut Places<N>,
    ) -> Result<Share<N, Global>, Fault> {
        match self.shared.take_place(rt, places) {
            Ok(seat) => Ok(seat.end()),
            Err(fault) => Err(fault.plain()),
        }
    }

    fn leave<T: Wait>(&self, rt: &T, place: Share<N, Global>, places: &mut Places<N>) {
        self.shared.leave(rt, place, places);
    }
}
