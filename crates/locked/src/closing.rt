//! How the board ends.

ghost use Rattle.std.specs.Prelude.{◌≡◌, ◌+◌, ◌<◌, ◌++◌, length, None, IfSome};
ghost use Rattle.session.specs.Beginnings.{StartsWith};
ghost use Rattle.locked.specs.Lasting.{Lasts};

use crate::locked::Locked;
use crate::sharing::Sharing;
use board::{Board, Counts};
use left_right::Absorb;
use session::{Entry, Recorder, SessionOn, Summary};
use std::alloc::Allocator;
use std::sync::Wait;
use std::sync::ledger::{Book, Share};

/// Settles what is offered and ends the board, and gives what is left: the session, the list of its entries after the opening, the book
/// of all that were offered to it, what is left of the ledger, and how many seats were given. It waits for readers that look at the board in this moment.
pub fn close<J: Recorder, A: Allocator + Copy, N: Sharing<J>, R: Wait>(
    rt: &R,
    locked: Locked<J, A, N>,
) -> (SessionOn<J, A>, Counts<N>, Book<N>, Share<N>, u64)
    ensures session { (result.0.spec ≡ N.spec) × (result.0.history ≡ N.opening ++ result.1) }
    ensures lasts { IfSome N.before (λ before. Lasts J.recording before result.0) }
    ensures settled { StartsWith result.1 locked.settled }
    ensures book { result.0.failed ≡ None → result.2.total ≡ length result.1 }
    ensures rest { (result.3.parts + result.4 ≡ N.all) × (result.3.amount ≡ 0) × (result.4 < N.all) }
{
    let mut locked = locked;
    locked.settle(rt);
    let Locked {
        session,
        spine: _,
        settled,
        publisher,
        source: _,
        book,
        rest,
        given,
        places: _,
        names: _,
        waiting: _,
    } = locked;
    let _ = publisher.take(rt);
    (session, settled, book, rest, given)
}
