//! Callers, each on a thread of its own.

use crate::held::Gate;
use alphabet::{Event, EventSet, Report};
use journal::Prepared;
use shared::{
    Counts, Entry, Failed, Names, Naming, Publisher, Receipt, Recorder, SeatNumber, Share, Shared,
    Sharing, Source, Spine, Summary, Waiting, crosses, legal_crosses,
};
use std::alloc::{AllocError, Global};
use std::sync::{Wait, ledger};
use std::thread::{Threads, map_vec};
use std::time::Clock;

/// What a caller does.
#[derive(Clone, Copy)]
pub(crate) enum Task {
    /// It reports tick so many times.
    Report(usize),
    /// It looks at the status while a sync is held, and then lets that go.
    Look,
}

/// A place, and what is done at it.
#[derive(Drop)]
pub(crate) struct Caller<N: Naming> {
    pub(crate) share: Share<N, Global>,
    pub(crate) task: Task,
}

/// What a caller was answered.
#[derive(Drop)]
pub(crate) struct Answers {
    seat: SeatNumber,
    /// The receipts of its reports, in their order.
    receipts: Vec<Receipt, Global>,
    /// How many reports the status had.
    pub(crate) seen: Option<u64>,
}

impl Answers {
    /// Whether the history has these as the answers to all reports of the seat, in their order.
    pub(crate) fn are_in(&self, history: &[Entry]) -> bool {
        let mut left = self.receipts.as_slice();
        for (index, entry) in history.iter().enumerate() {
            if entry.seat == self.seat {
                match left {
                    [first, rest @ ..] if is_of(first, index, entry) => left = rest,
                    _ => return false,
                }
            }
        }
        left.is_empty()
    }
}

/// Whether the receipt is the answer to the report of this entry, which has so many before it.
fn is_of(receipt: &Receipt, index: usize, entry: &Entry) -> bool {
    receipt.place.checked_sub(1) == Some(index as u64) && receipt.verdict == entry.verdict
}

/// Reports tick so many times. A receipt for which there is no memory is left out, and so the history doesn't explain the others.
fn ticks<J: Recorder, N: Sharing<J>, T: Wait>(
    rt: &T,
    alloc: Global,
    shared: &Shared<J, Global, N>,
    share: Share<N, Global>,
    times: usize,
) -> (Share<N, Global>, Vec<Receipt, Global>) {
    let mut receipts = Vec::new(alloc);
    let mut seat = shared.again(share);
    for _ in 0..times {
        if let Ok(receipt) = seat.report(rt, Report::Event(Event::TICK)) {
            let _ = receipts.push(receipt);
        }
    }
    (seat.end(), receipts)
}

/// Looks while a sync is held. Sees nothing where none is.
fn look_meanwhile<J: Recorder, N: Sharing<J>, C: Clock>(
    clock: &C,
    gate: &Gate,
    shared: &Shared<J, Global, N>,
    share: Share<N, Global>,
) -> (Share<N, Global>, Option<u64>) {
    if !gate.is_held(clock) {
        return (share, None);
    }
    let mut seat = shared.again(share);
    let status = seat.status();
    gate.let_go();
    (seat.end(), Some(status.summary.judged))
}

/// Does what the caller is to do.
fn run<J: Recorder, N: Sharing<J>, T: Wait + Clock>(
    rt: &T,
    alloc: Global,
    gate: &Gate,
    shared: &Shared<J, Global, N>,
    caller: Caller<N>,
) -> (Share<N, Global>, Answers) {
    let Caller { share, task } = caller;
    let seat = share.number();
    let (share, receipts, seen) = match task {
        Task::Report(times) => {
            let (share, receipts) = ticks(rt, alloc, shared, share, times);
            (share, receipts, None)
        }
        Task::Look => {
            let (share, seen) = look_meanwhile(rt, gate, shared, share);
            (share, Vec::new(alloc), seen)
        }
    };
    let answers = Answers {
        seat,
        receipts,
        seen,
    };
    (share, answers)
}

/// Runs each caller on a thread of its own, in the order of the list where no thread can be made.
pub(crate) fn run_all<
    J: Recorder + Send,
    N: Sharing<J> + Send + Sync,
    R: Threads + Wait + Clock + Sync,
>(
    rt: &R,
    alloc: Global,
    gate: &Gate,
    shared: &Shared<J, Global, N>,
    callers: Vec<Caller<N>, Global>,
) -> Result<Vec<(Share<N, Global>, Answers), Global>, AllocError> {
    // The parts of what lies under the lock: the proof that the whole may go to another thread asks for each.
    legal_crosses();
    crosses::<J>();
    crosses::<Option<Failed>>();
    crosses::<Spine<N>>();
    crosses::<Counts<N>>();
    crosses::<Publisher<N, Global>>();
    crosses::<Source<N, Global>>();
    crosses::<ledger::Book<N>>();
    crosses::<ledger::Share<N>>();
    crosses::<Prepared<Global>>();
    crosses::<EventSet>();
    crosses::<Summary>();
    crosses::<Names>();
    crosses::<Waiting>();
    let each = |caller: Caller<N>| run(rt, alloc, gate, shared, caller);
    map_vec(rt, callers, &each)
}
