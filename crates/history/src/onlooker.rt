//! Those who look on while the entries of a history are judged.

ghost use Rattle.std.specs.Prelude.{◌≡◌, ◌++◌, [], ◌∷◌, Bool, false, List, ⊤};
ghost use Rattle.term.specs.Specs.{Specified};
ghost use Rattle.history.specs.declared.entry.Entry.{Entry as entry_type};
ghost use Rattle.history.specs.Legal.{IsJudged};

use crate::entry::Entry;
use crate::legal::LegalHistory;
use std::alloc::Allocator;

/// One who sees each entry of a history while what could come in its place is known, and may write of it.
pub trait Onlooker<A: Allocator + Copy, W> {
    /// It has seen the entries of this history, of this specification, with this output, and no others.
    ghost has_seen: { Self → W → Specified → List entry_type → Type 0 };

    /// What stays of it as it sees more: the second is the first, further on.
    ghost kept: { Self → Self → Type 0 };

    /// It wants to see no more.
    ghost is_over: { Self → Bool };

    /// Sees the next entry of this history, before it is appended.
    fn see(&mut self, legal: &LegalHistory<A>, entry: &Entry, output: &mut W)
        requires judged { IsJudged legal.now.spec (legal.now.entries ++ entry.now ∷ []) }
        requires seen { has_seen self.old output.old legal.now.spec legal.now.entries }
        ensures seen { has_seen self.new output.new legal.now.spec (legal.now.entries ++ entry.now ∷ []) }
        ensures kept { (first : Self) → kept first self.old → kept first self.new };

    /// Whether it wants to see no more. What comes is shown to it all the same, unless the one who judges can end there.
    fn is_over(&self) -> bool
        ensures { result ≡ is_over self.now };
}

/// Nobody looks on.
#[derive(Clone, Copy)]
pub struct Nobody;

impl<A: Allocator + Copy, W> Onlooker<A, W> for Nobody {
    ghost has_seen = { λ _ _ _ _. ⊤ };

    ghost kept = { λ _ _. ⊤ };

    ghost is_over = { λ _. false };

    fn see(&mut self, _legal: &LegalHistory<A>, _entry: &Entry, _output: &mut W) {}

    fn is_over(&self) -> bool {
        false
    }
}
