//! How some reports of a seat are answered together.
ghost use Rattle.std.specs.Prelude.{◌≡◌, ◌<◌, ◌≤◌, ◌+◌, ◌^◌, ◌++◌, ◌∷◌, [], List, Result, length, take, vec_len, vec_capacity};
ghost use Rattle.std.specs.List.{AllByRecursion};
ghost use Rattle.alphabet.specs.Channels.{event_count};
ghost use Rattle.wire.specs.Requests.{IsReportBelow};
ghost use Rattle.wire.specs.Groups.{AllReported};
ghost use Rattle.answers.specs.declared.receipt.Receipt.{Receipt};
ghost use Rattle.wire.specs.Faults.{Fault};
ghost use Rattle.seats.specs.Judges.{Reports};
ghost use Rattle.seats.specs.Groups.{receipts_of};

use crate::judge::SeatJudge;
use alphabet::Report;
use shared::{GROUP, Recorder, Sharing};
use std::alloc::Allocator;
use std::sync::Wait;
use wire::{Fault, Receipt};

// Adds an answer, for which there is room.
fn add<B: Allocator>(answers: &mut Vec<Result<Receipt, Fault>, B>, answer: Result<Receipt, Fault>)
    requires { vec_len answers.old < vec_capacity answers.old }
    ensures items { answers.new.items ≡ answers.old.items ++ answer ∷ [] }
    ensures len { vec_len answers.new ≡ vec_len answers.old + 1 }
    ensures room { vec_capacity answers.old ≤ vec_capacity answers.new }
{
    match answers.push(answer) {
        Ok(()) => {}
        Err(_) => unreachable!(),
    }
}

// Adds receipts with these verdicts, for which there is room, and with places one after the other from this one on.
fn add_receipts<B: Allocator>(
    answers: &mut Vec<Result<Receipt, Fault>, B>,
    verdicts: &[bool],
    place: u64,
)
    requires room { vec_len answers.old + length verdicts.now ≤ vec_capacity answers.old }
    requires place { place + length verdicts.now ≤ 2 ^ 63 }
    ensures items { answers.new.items ≡ answers.old.items ++ receipts_of verdicts.now place }
    ensures len { vec_len answers.new ≡ vec_len answers.old + length verdicts.now }
    ensures room { vec_capacity answers.old ≤ vec_capacity answers.new }
{
    match verdicts {
        [] => {}
        [first, others @ ..] => {
            add(
                answers,
                Ok(Receipt {
                    verdict: *first,
                    place,
                }),
            );
            add_receipts(answers, others, place + 1);
        }
    }
}

impl<J: Recorder, A: Allocator + Copy, N: Sharing<J>, R: Wait> SeatJudge<'_, J, A, N, R> {
    /// Reports in one turn of the seat, up to the first that is refused, and adds the answers, for which there is room. The result is how
    /// many they are.
    pub(crate) fn report_some<B: Allocator>(
        &mut self,
        reports: &[Report],
        answers: &mut Vec<Result<Receipt, Fault>, B>,
    ) -> usize
        requires below { AllByRecursion (IsReportBelow (event_count N.spec.alphabet)) reports.now }
        requires some { 0 < length reports.now }
        requires room { vec_len answers.old + length reports.now ≤ vec_capacity answers.old }
        ensures count { (0 < result) × (result ≤ length reports.now) }
        ensures answered { (more : List (Result Receipt Fault)) × (answers.new.items ≡ answers.old.items ++ more)
            × AllReported (Reports N.spec) self.old.seat.share (take result reports.now) more self.new.seat.share }
        ensures len { vec_len answers.new ≡ vec_len answers.old + result }
        ensures room { vec_capacity answers.old ≤ vec_capacity answers.new }
    {
        let mut verdicts = [false; GROUP];
        let some = &reports[..reports.len().min(GROUP)];
        let round = self.seat.turn(self.rt, some, &mut verdicts);
        let count = round.count as usize;
        add_receipts(answers, &verdicts[..count], round.place);
        match round.fault {
            Some(fault) => {
                add(answers, Err(fault.plain()));
                count + 1
            }
            None => count,
        }
    }
}
