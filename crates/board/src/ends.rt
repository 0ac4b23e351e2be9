//! The two ends of the board: one publishes, the others look.

ghost use Rattle.std.specs.Prelude.{◌≡◌, [], ◌∷◌, ◌++◌, length, ◌<◌, ◌^◌, IfSome};
ghost use Rattle.term.specs.Proc.{bodies_of};
ghost use Rattle.history.specs.Entries.{summary_of};
ghost use Rattle.history.specs.Legal.{Fits};
ghost use Rattle.board.specs.Showing.{shows};

use crate::{Counts, Front, Naming, Spine};
use crossbeam_utils::rule::Unruled;
use history::{Entry, Summary};
use left_right::Absorb;
use left_right::reader::Reader;
use left_right::writer::Writer;
use std::alloc::{AllocError, Allocator};
use std::sync::{Arc, Mutex, Wait};

/// The counts that the next publication shows, with evidence of their list. Whoever publishes puts them here first.
pub type Source<N, A> = Arc<Mutex<Counts<N>>, A>;

/// What readers look at: the counts of the published entries, and the same counts with evidence of their list.
#[derive(Drop)]
pub struct Board<N: Naming, A: Allocator> {
    pub counts: Summary,
    known: Counts<N>,
    source: Source<N, A>,
}

impl<N: Naming, A: Allocator> Board<N, A> {
    /// A board that shows these counts. A writer of `left_right` takes two with the same counts: readers look at one while it
    /// changes the other. `source` is shared by both and by whoever publishes, who puts the next counts there first: an entry alone
    /// is no evidence of a list, so the board takes the evidence from there. Constant cost; takes no memory.
    pub fn new(known: Counts<N>, source: Source<N, A>) -> Board<N, A>
        ensures { result.counts ≡ summary_of (N.opening ++ known) }
    {
        Board {
            counts: known.summary(),
            known,
            source,
        }
    }

    /// The published counts, with evidence of their list. `None` where the evidence is of other counts.
    pub fn shown(&self) -> Option<Counts<N>>
        ensures { IfSome result (λ c. self.now.counts ≡ summary_of (N.opening ++ c)) }
    {
        if self.known.summary() == self.counts {
            Some(self.known.again())
        } else {
            None
        }
    }
}

// An operation is the counts that are published. They are no evidence of a list, so those that the writer has prepared are taken over with
// them.
impl<N: Naming, A: Allocator> Absorb<Summary> for Board<N, A> {
    type State = Summary;

    ghost state = { λ b. b.counts };

    ghost applied = { shows };

    ghost never_fails = { Unit {0} };

    fn absorb_first(
        &mut self,
        operation: &Summary,
        _other: &Board<N, A>,
    ) -> Result<(), AllocError> {
        self.counts = *operation;
        if let Some(known) = self.source.try_lock() {
            self.known = known.again();
        }
        Ok(())
    }

    // What was shown before is absorbed again right before the next operation, which brings the next counts. So this one leaves the
    // cell alone, which costs two atomic steps.
    fn absorb_second(&mut self, operation: Summary, _other: &Board<N, A>) -> Result<(), Summary> {
        self.counts = operation;
        Ok(())
    }
}

/// The end that publishes. It isn't `Drop`: end it by `take`.
pub type Publisher<N, A> = Writer<Board<N, A>, Summary, (), Unruled, A>;

/// The end that looks.
pub type BoardReader<N, A> = Reader<Board<N, A>, (), Unruled, A>;

/// What is published now, with evidence. It waits for nobody. `None` where the reader gets no look. By this a status is answered
/// while a report holds the lock. There is no look where the publisher is gone, or where the evidence is of other counts than the
/// published ones. The reader comes back each time. Costs a few atomic steps; takes no memory.
pub fn look<N: Naming, A: Allocator>(
    board_reader: BoardReader<N, A>,
) -> (BoardReader<N, A>, Option<Counts<N>>) {
    match board_reader.enter_as::<Unruled>() {
        Ok(reading) => {
            let counts = reading.get().shown();
            (reading.leave(), counts)
        }
        Err(board_reader) => (board_reader, None),
    }
}

/// Adds an entry to the list, of which `front` is the whole.
///
/// It tries again while the list is longer than `front`. Where `front` is the longest that there is, and nobody else adds, the first
/// turn ends it: so it is under a lock that has the longest front.
pub fn add<N: Naming, R: Wait>(rt: &R, spine: &Spine<N>, front: &mut Front<N>, entry: &Entry)
    requires room { length front.old < 2 ^ 62 }
    requires fits { Fits (bodies_of N.spec.bodies) (N.opening ++ front.old) entry.now }
    ensures { front.new ≡ front.old ++ entry.now ∷ [] }
{
    for _ in rt.forever() {
        if front.add(spine, entry) {
            return;
        }
    }
    unreachable!()
}
