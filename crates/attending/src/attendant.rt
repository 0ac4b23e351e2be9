//! One who attends to the lines of a check, one after the other.

ghost use Rattle.std.specs.Prelude.{◌≡◌, ◌≢◌, ◌≤◌, ◌⊎◌, ◌&&◌, [], suc, true, false, codes, cond, vec_capacity, is_some, IfSome, IfOk, None};
ghost use Rattle.term.specs.Proc.{bodies_of};
ghost use Rattle.term.specs.Specs.{Specified};
ghost use Rattle.alphabet.specs.Channels.{event_count};
ghost use Rattle.alphabet.specs.EventSets.{Set};
ghost use Rattle.session.specs.Entries.{events};
ghost use Rattle.session.specs.Legal.{IsJudged};
ghost use Rattle.wire.specs.Replies.{Answers, IsAnswerBelow, answer_text, TakesNoName};
ghost use Rattle.answers.specs.declared.fault.Fault.TheVariants.{Memory as out_of_memory};
ghost use Rattle.wire.specs.declared.answer.Answer.TheVariants.{Next as next_events, Fault as fault_answer};
ghost use Rattle.attending.specs.Courses.{Course, Reports, Statuses, Nexts};
ghost use Rattle.attending.specs.Lines.{ExplainsIf, is_acceptance};
ghost use Rattle.attending.specs.Preparing.{HasLast, IsReady, Moves, Prepares, standing};

use crate::alone::{Alone, alone_at, answer};
use crate::attending::Attended;
use crate::manner::{Ending, Manner};
use crate::reasons::put_explanation;
use alphabet::Alphabet;
use disk::Disk;
use session::Session;
use shown::Monitor;
use std::alloc::{AllocError, Allocator};
use term::Names;
use wire::{Answer, Fault, Request, Tally, WireError, put_answer, read_request};

/// The reply to a line has room in so many bytes, but for that to `N`.
const ROOM: usize = 128;

/// One who attends to lines: the session, where it stands, and the buffers, with room for all that needs no further memory.
#[derive(Drop)]
pub(crate) struct Attendant<D: Disk, A: Allocator> {
    pub(crate) alone: Alone<D, A>,
    pub(crate) monitor: Option<Monitor<A>>,
    pub(crate) manner: Manner,
    pub(crate) tally: Tally,
    pub(crate) lines: u64,
    pub(crate) whole: bool,
    alloc: A,
    // The names of the events that may come next, which alone may want further memory.
    offered: Vec<u8, A>,
    pub(crate) reply: Vec<u8, A>,
    // What is to be written on the errors.
    pub(crate) said: Vec<u8, A>,
    ghost reply_room: { 128 ≤ vec_capacity reply },
}

/// Whether the answer is that a report was accepted.
fn accepts(answer: &Answer) -> bool
    ensures { result ≡ is_acceptance answer.now }
{
    match answer {
        Answer::Judged(receipt) => receipt.verdict,
        _ => false,
    }
}

/// Makes the reply, or where there is no memory for it, that of the fault. The result is what is replied.
fn put_reply<A: Allocator>(
    alphabet: &Alphabet<A>,
    answer: Answer,
    offered: &mut Vec<u8, A>,
    reply: &mut Vec<u8, A>,
) -> Answer
    requires below { IsAnswerBelow (event_count alphabet.now) answer }
    requires room { 128 ≤ vec_capacity reply.old }
    ensures text { reply.new.items ≡ answer_text alphabet.now result }
    ensures same { (result ≡ answer) ⊎ ((set : Set) × (answer ≡ next_events set) × (result ≡ fault_answer out_of_memory)) }
    ensures room { 128 ≤ vec_capacity reply.new }
{
    if put_answer(alphabet, &answer, offered, reply).is_ok() {
        return answer;
    }
    let fault = Answer::Fault(Fault::Memory);
    let _ = put_answer(alphabet, &fault, offered, reply);
    fault
}

/// Counts a line, or answers that there are no further numbers.
fn count(lines: &mut u64) -> bool
    ensures { result ≡ true → lines.new ≡ suc lines.old }
{
    match lines.checked_add(1) {
        Some(next) => {
            *lines = next;
            true
        }
        None => false,
    }
}

/// Makes what is to be written on the errors for a line, if reasons are wanted. The result is whether there was memory for it. The
/// session is that after the line.
fn explained<D: Disk, A: Allocator + Copy>(
    said: &mut Vec<u8, A>,
    monitor: &mut Option<Monitor<A>>,
    alloc: A,
    number: u64,
    line: &[u8],
    request: &Request,
    answer: &Answer,
    session: &Session<D, A>,
) -> bool
    requires none { said.old.items ≡ [] }
    requires judged { IfSome monitor.old (λ m. IsJudged m.spec session.now.history) }
    requires answers { IfSome monitor.old (λ m. Moves m.spec m.trace request.now answer.now session.now.history) }
    requires last { HasLast answer.now session.now.gone session.now.history }
    ensures some { is_some monitor.new ≡ is_some monitor.old }
    ensures stands { result ≡ true → IfSome monitor.old (λ old. IfSome monitor.new (λ new. (new.spec ≡ old.spec) × (new.trace ≡ events session.now.history))) }
    ensures explains { (spec : Specified) (old : Course) (new : Course) → IfSome monitor.old (λ m. (m.spec ≡ spec) × (m.trace ≡ events old.history)) → new.history ≡ session.now.history
        → Answers (Reports spec) Statuses (Nexts (bodies_of spec.bodies)) TakesNoName old request.now new answer.now
        → result ≡ true → ExplainsIf (is_some monitor.old) spec number old.history line.now request.now answer.now said.new.items }
{
    match monitor {
        None => true,
        Some(monitor) => put_explanation(
            said, monitor, alloc, number, line, request, answer, session,
        ).is_ok(),
    }
}

/// Counts the line, and makes what is to be written on the errors for it. The result is whether all was made, also before.
fn note<D: Disk, A: Allocator + Copy>(
    said: &mut Vec<u8, A>,
    monitor: &mut Option<Monitor<A>>,
    alloc: A,
    lines: &mut u64,
    whole: bool,
    line: &[u8],
    request: &Request,
    answer: &Answer,
    session: &Session<D, A>,
) -> bool
    requires none { said.old.items ≡ [] }
    requires judged { whole ≡ true → IfSome monitor.old (λ m. IsJudged m.spec session.now.history) }
    requires answers { whole ≡ true → IfSome monitor.old (λ m. Moves m.spec m.trace request.now answer.now session.now.history) }
    requires last { HasLast answer.now session.now.gone session.now.history }
    ensures some { is_some monitor.new ≡ is_some monitor.old }
    ensures whole { result ≡ true → (whole ≡ true) × (lines.new ≡ suc lines.old) }
    ensures stands { result ≡ true → IfSome monitor.old (λ old. IfSome monitor.new (λ new. (new.spec ≡ old.spec) × (new.trace ≡ events session.now.history))) }
    ensures explains { (spec : Specified) (old : Course) (new : Course) → IfSome monitor.old (λ m. (m.spec ≡ spec) × (m.trace ≡ events old.history)) → new.history ≡ session.now.history
        → Answers (Reports spec) Statuses (Nexts (bodies_of spec.bodies)) TakesNoName old request.now new answer.now
        → result ≡ true → ExplainsIf (is_some monitor.old) spec lines.new old.history line.now request.now answer.now said.new.items }
{
    if !whole || !count(lines) {
        return false;
    }
    explained(said, monitor, alloc, *lines, line, request, answer, session)
}

/// Lets the entries go where the session keeps names as their bodies: nobody asks for them any more.
fn let_go<D: Disk, A: Allocator>(alone: &mut Alone<D, A>)
    ensures spec { alone.new.session.spec ≡ alone.old.session.spec }
    ensures history { alone.new.session.history ≡ alone.old.session.history }
    ensures failed { alone.new.session.failed ≡ alone.old.session.failed }
{
    let names = alone.session.spec().names();
    if names == Names::Bodies {
        let all = alone.session.len();
        alone.session.let_go(all);
    }
}

/// Leaves the reply out, if it is to an accepted report and such replies are left out.
fn leave_out<A: Allocator>(reply: &mut Vec<u8, A>, quiet: bool, accepted: bool)
    requires { 128 ≤ vec_capacity reply.old }
    ensures reply { reply.new.items ≡ cond (quiet && accepted) [] reply.old.items }
    ensures room { 128 ≤ vec_capacity reply.new }
{
    if quiet && accepted {
        reply.clear();
    }
}

impl<D: Disk, A: Allocator> Attendant<D, A> {
    /// Notes whether all that is wanted on the errors was written there.
    pub(crate) fn note_whole(&mut self, whole: bool)
        requires { whole ≡ true → self.old.whole ≡ true }
        ensures whole { self.new.whole ≡ whole }
        ensures alone { (self.new.alone ≡ self.old.alone) × (self.new.monitor ≡ self.old.monitor) }
        ensures same { (self.new.manner ≡ self.old.manner) × (self.new.tally ≡ self.old.tally) × (self.new.lines ≡ self.old.lines) }
    {
        self.whole = whole;
    }
}

impl<D: Disk, A: Allocator> Attendant<D, A> {
    /// What a check that ended so comes to.
    pub(crate) fn end(self, end: Result<Ending, WireError>) -> Attended<D, A>
        ensures session { result.session ≡ self.alone.session }
        ensures end { result.end ≡ end }
        ensures same { (result.tally ≡ self.tally) × (result.lines ≡ self.lines) × (result.whole ≡ self.whole) }
    {
        let Attendant {
            alone,
            monitor,
            tally,
            lines,
            whole,
            offered,
            reply,
            said,
            ..
        } = self;
        drop(monitor);
        drop(offered);
        drop(reply);
        drop(said);
        Attended {
            session: alone.into_session(),
            end,
            tally,
            lines,
            whole,
        }
    }
}

/// One who attends to the lines of a check of this session, which has no entries yet. The monitor is there where reasons are wanted.
pub(crate) fn attendant_of<D: Disk + Drop, A: Allocator + Copy>(
    alloc: A,
    session: Session<D, A>,
    monitor: Option<Monitor<A>>,
    manner: Manner,
) -> Result<Attendant<D, A>, AllocError>
    requires offered { session.offered ≡ [] }
    requires ready { IsReady manner session.spec session.history monitor true }
    ensures session { IfOk result (λ a. a.alone.session ≡ session) }
    ensures ready { IfOk result (λ a. IsReady a.manner a.alone.session.spec a.alone.session.history a.monitor a.whole) }
    ensures begins { IfOk result (λ a. (a.manner ≡ manner) × (a.tally ≡ record { begun = false; rejected = false; unjudged = 0; limit = false }) × (a.lines ≡ 0) × (a.whole ≡ true)) }
{
    let reply = match Vec::with_capacity(alloc, ROOM) {
        Ok(reply) => reply,
        Err(refused) => {
            drop(session);
            drop(monitor);
            return Err(refused);
        }
    };
    Ok(Attendant {
        alone: alone_at(session),
        monitor,
        manner,
        tally: Tally::new(),
        lines: 0,
        whole: true,
        alloc,
        offered: Vec::new(alloc),
        reply,
        said: Vec::new(alloc),
    })
}

impl<D: Disk, A: Allocator + Copy> Attendant<D, A> {
    /// Answers the line, and makes its reply and what is to be written on the errors. The result is whether it is a Q.
    fn answer_line(&mut self, line: &[u8]) -> bool
        requires ready { IsReady self.old.manner self.old.alone.session.spec self.old.alone.session.history self.old.monitor self.old.whole }
        ensures ready { IsReady self.new.manner self.new.alone.session.spec self.new.alone.session.history self.new.monitor self.new.whole }
        ensures prepares { Prepares self.old.manner self.old.alone.session.spec
            (standing self.old.alone.session.history self.old.alone.session.failed self.old.tally self.old.lines self.old.whole None) line.now
            (standing self.new.alone.session.history self.new.alone.session.failed self.new.tally self.new.lines self.new.whole None) self.new.reply.items self.new.said.items }
        ensures quit { result ≡ true → (line.now ≡ codes "Q") × (self.new.tally ≡ self.old.tally) }
        ensures other { result ≡ false → line.now ≢ codes "Q" }
        ensures same { (self.new.manner ≡ self.old.manner) × (self.new.alone.session.spec ≡ self.old.alone.session.spec) }
    {
        let request = read_request(self.alone.session.spec().alphabet(), line);
        let answer = answer(&mut self.alone, &request);
        let answer = put_reply(
            self.alone.session.spec().alphabet(),
            answer,
            &mut self.offered,
            &mut self.reply,
        );
        self.tally = self.tally.after(&answer);
        self.said.clear();
        let _ = self.alone.session.history();
        self.whole = note(
            &mut self.said,
            &mut self.monitor,
            self.alloc,
            &mut self.lines,
            self.whole,
            line,
            &request,
            &answer,
            &self.alone.session,
        );
        leave_out(&mut self.reply, self.manner.quiet, accepts(&answer));
        matches!(request, Request::Quit)
    }

    /// Answers the line, and makes its reply and what is to be written on the errors. The result is whether it is a Q. Where names are kept as
    /// their bodies, no entry is kept after it.
    pub(crate) fn prepare(&mut self, line: &[u8]) -> bool
        requires ready { IsReady self.old.manner self.old.alone.session.spec self.old.alone.session.history self.old.monitor self.old.whole }
        ensures ready { IsReady self.new.manner self.new.alone.session.spec self.new.alone.session.history self.new.monitor self.new.whole }
        ensures prepares { Prepares self.old.manner self.old.alone.session.spec
            (standing self.old.alone.session.history self.old.alone.session.failed self.old.tally self.old.lines self.old.whole None) line.now
            (standing self.new.alone.session.history self.new.alone.session.failed self.new.tally self.new.lines self.new.whole None) self.new.reply.items self.new.said.items }
        ensures quit { result ≡ true → (line.now ≡ codes "Q") × (self.new.tally ≡ self.old.tally) }
        ensures other { result ≡ false → line.now ≢ codes "Q" }
        ensures same { (self.new.manner ≡ self.old.manner) × (self.new.alone.session.spec ≡ self.old.alone.session.spec) }
    {
        let quit = self.answer_line(line);
        let_go(&mut self.alone);
        quit
    }
}
