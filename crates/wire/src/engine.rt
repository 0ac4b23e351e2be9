//! The engine: lines in, replies out.
ghost use Rattle.std.specs.Prelude.{◌≡◌, ◌≢◌, ◌+◌, ◌<◌, ◌≤◌, ◌++◌, true, false, [], ◌∷◌, length, take, vec_len, vec_capacity, codes, IfOk, OnOk, OnErr, IsErrOf, ℕ, List, Option, None, ◌⊎◌};
ghost use Rattle.std.specs.Io.KnownBytes.{Appends};
ghost use Rattle.alphabet.specs.Channels.{Channel, event_count};
ghost use Rattle.std.specs.List.{AllByRecursion};
ghost use Rattle.alphabet.specs.declared.events.Report.{Report};
ghost use Rattle.wire.specs.Requests.{Lacks, Asks, IsReportBelow, IsRequestBelow};
ghost use Rattle.wire.specs.Replies.{LineReplies, Noted, noted, fault_text};
ghost use Rattle.wire.specs.Talks.{Hears, Serves, Talk, HasQuit, IsCutOff, IsHeard, IsShort};
ghost use Rattle.wire.specs.Unjudged.{unjudged_lines};
ghost use Rattle.wire.specs.Waiting.{AllAsk, Waits, Quits, Passes, CutsOff, GoesOn};
ghost use Rattle.wire.specs.declared.engine.TheConstants.{GROUP, REPLIES};

use crate::answer::{Fault, Tally, reply_of};
use crate::ends::{Sink, SinkFault, Source};
use crate::judging::Judge;
use crate::lines::cut;
use crate::replies::{add, add_replies, answer};
use crate::requests::{Request, read_request};
use alphabet::{Alphabet, Report};
use answers::Receipt;
use std::alloc::{AllocError, Allocator};
use std::sync::Wait;
use thiserror::Error;

/// How a connection ended.
#[derive(Clone, Copy, Debug, PartialEq, Eq)]
pub enum End {
    /// By a line `Q`.
    Quit,
    /// The input ended.
    Input,
    /// By a line that is too long.
    Line,
}

/// Why a connection was given up.
#[derive(Clone, Copy, Debug, PartialEq, Eq, Error)]
pub enum WireError {
    /// A read failed.
    #[error("cannot read")]
    Read,
    /// A write or a flush failed.
    #[error("cannot write")]
    Write,
    /// There was no memory to begin with. Nothing was read or written.
    #[error("{}", Fault::Memory)]
    Memory,
}

/// How many lines of a connection that ended so, with this tally of its answers, were answered with `ERR 10`, `ERR 11` or `ERR 12`, and
/// so weren't judged. It stays at the greatest number once that is reached. Constant cost; takes no memory.
pub fn unjudged(end: &Result<End, WireError>, tally: &Tally) -> u64
    ensures { result ≡ unjudged_lines end.now tally.now }
{
    match end {
        Ok(End::Line) => tally.unjudged.saturating_add(1),
        _ => tally.unjudged,
    }
}

// The most bytes of a line, without its LF.
const LINE: usize = 4096;

// Bytes that one read may give.
const BLOCK: usize = 65_536;

// The most reports that are judged together.
const GROUP: usize = 1024;

// The most bytes of the reply to a report.
const REPLY: usize = 24;

// The most bytes of replies that wait to be written.
const REPLIES: usize = 65_536;

// So many bytes of replies leave room for those to a group of reports.
const BEFORE_A_GROUP: usize = REPLIES - GROUP * REPLY;

// The begun line, what waits to be judged and to be written, and the reply to a line that isn't judged, with room for all that needs
// no further memory.
#[derive(Drop)]
struct Desk<B: Allocator> {
    begun: Vec<u8, B>,
    reports: Vec<Report, B>,
    answers: Vec<Result<Receipt, Fault>, B>,
    replies: Vec<u8, B>,
    reply: Vec<u8, B>,
    // The names of the events that may come next, which alone may want further memory.
    offered: Vec<u8, B>,
    ghost line_room: { 4096 ≤ vec_capacity begun },
    ghost group_room: { GROUP ≤ vec_capacity reports },
    ghost answers_room: { GROUP ≤ vec_capacity answers },
    ghost replies_room: { REPLIES ≤ vec_capacity replies },
    ghost reply_room: { 128 ≤ vec_capacity reply },
    ghost group: { vec_len reports ≤ GROUP },
}

fn make_desk<B: Allocator + Clone>(alloc: B) -> Result<Desk<B>, AllocError>
    ensures { IfOk result (λ d. (d.begun.items ≡ []) × (d.reports.items ≡ []) × (d.replies.items ≡ [])) }
{
    Ok(Desk {
        begun: Vec::with_capacity(alloc.clone()?, LINE)?,
        reports: Vec::with_capacity(alloc.clone()?, GROUP)?,
        answers: Vec::with_capacity(alloc.clone()?, GROUP)?,
        replies: Vec::with_capacity(alloc.clone()?, REPLIES)?,
        reply: Vec::with_capacity(alloc.clone()?, 128)?,
        offered: Vec::new(alloc),
    })
}

/// Sends all of the text and flushes, or sends a beginning of it where the writer fails.
pub fn send<W: Sink>(writer: &mut W, text: &[u8]) -> Result<(), SinkFault>
    ensures ok { OnOk result (Appends (W.contents writer.old) (W.contents writer.new) text.now) }
    ensures handed_on { OnOk result (W.has_handed_on writer.new) }
    ensures cut { OnErr result ((n : ℕ) × Appends (W.contents writer.old) (W.contents writer.new) (take n text.now)) }
    ensures steady { OnOk result (W.failures writer.new ≡ W.failures writer.old) }
    ensures failed { OnErr result (W.failures writer.old < W.failures writer.new) }
{
    let mut at = 0;
    while at < text.len() {
        at += writer.write(&text[at..])?;
    }
    writer.flush()
}

/// Tells a fault on a connection that has no judge.
pub fn refuse<W: Sink>(writer: &mut W, fault: Fault) -> Result<(), SinkFault>
    ensures ok { OnOk result (Appends (W.contents writer.old) (W.contents writer.new) (fault_text fault)) }
    ensures handed_on { OnOk result (W.has_handed_on writer.new) }
    ensures cut { OnErr result ((n : ℕ) × Appends (W.contents writer.old) (W.contents writer.new) (take n (fault_text fault))) }
    ensures failed { OnErr result (W.failures writer.old < W.failures writer.new) }
{
    send(writer, reply_of(fault))
}

// Replies to a line that is too long, which ends the connection.
fn cut_off<W: Sink>(writer: &mut W) -> Result<Option<End>, WireError>
    ensures ok { OnOk result (Appends (W.contents writer.old) (W.contents writer.new) (codes "ERR 12 line\n")) }
    ensures handed_on { OnOk result (W.has_handed_on writer.new) }
    ensures cut { OnErr result ((n : ℕ) × Appends (W.contents writer.old) (W.contents writer.new) (take n (codes "ERR 12 line\n"))) }
    ensures steady { OnOk result (W.failures writer.new ≡ W.failures writer.old) }
    ensures failed { OnErr result (W.failures writer.old < W.failures writer.new) }
    ensures end { (result ≡ Ok (Some End.Line)) ⊎ (result ≡ Err WireError.Write) }
{
    match send(writer, b"ERR 12 line\n") {
        Ok(()) => Ok(Some(End::Line)),
        Err(SinkFault) => Err(WireError::Write),
    }
}

// What the line asks for whose last piece this is.
fn whole_request<A: Allocator, B: Allocator>(
    piece: &[u8],
    begun: &mut Vec<u8, B>,
    alphabet: &Alphabet<A>,
) -> Request
    requires fits { length begun.old.items + length piece.now ≤ 4096 }
    requires room { 4096 ≤ vec_capacity begun.old }
    ensures asks { Asks alphabet.now (begun.old.items ++ piece.now) result }
    ensures below { IsRequestBelow (event_count alphabet.now) result }
    ensures begun { begun.new.items ≡ [] }
    ensures room { 4096 ≤ vec_capacity begun.new }
{
    if begun.is_empty() {
        return read_request(alphabet, piece);
    }
    add(begun, piece);
    let request = read_request(alphabet, begun);
    begun.clear();
    request
}

// Writes the replies that wait.
fn write_replies<W: Sink, B: Allocator>(
    replies: &mut Vec<u8, B>,
    writer: &mut W,
) -> Result<(), SinkFault>
    ensures ok { OnOk result (Appends (W.contents writer.old) (W.contents writer.new) replies.old.items) }
    ensures empty { OnOk result (replies.new.items ≡ []) }
    ensures handed_on { W.has_handed_on writer.old → OnOk result (W.has_handed_on writer.new) }
    ensures cut { OnErr result ((n : ℕ) × Appends (W.contents writer.old) (W.contents writer.new) (take n replies.old.items)) }
    ensures room { vec_capacity replies.old ≤ vec_capacity replies.new }
    ensures steady { OnOk result (W.failures writer.new ≡ W.failures writer.old) }
    ensures failed { OnErr result (W.failures writer.old < W.failures writer.new) }
{
    if replies.is_empty() {
        return Ok(());
    }
    send(writer, replies.as_slice())?;
    replies.clear();
    Ok(())
}

// Lets a reply wait, where there is room for it, or writes it and those that wait.
fn put_reply<W: Sink, B: Allocator>(
    replies: &mut Vec<u8, B>,
    reply: &[u8],
    writer: &mut W,
) -> Result<(), SinkFault>
    requires { REPLIES ≤ vec_capacity replies.old }
    ensures ok { OnOk result ((out : List ℕ) × (out ++ replies.new.items ≡ replies.old.items ++ reply.now) × Appends (W.contents writer.old) (W.contents writer.new) out) }
    ensures handed_on { W.has_handed_on writer.old → OnOk result (W.has_handed_on writer.new) }
    ensures cut { OnErr result ((out : List ℕ) × (lost : List ℕ) × (out ++ lost ≡ replies.old.items ++ reply.now) × Appends (W.contents writer.old) (W.contents writer.new) out) }
    ensures room { REPLIES ≤ vec_capacity replies.new }
    ensures steady { OnOk result (W.failures writer.new ≡ W.failures writer.old) }
    ensures failed { OnErr result (W.failures writer.old < W.failures writer.new) }
{
    if replies.len() <= REPLIES && reply.len() <= REPLIES - replies.len() {
        add(replies, reply);
        return Ok(());
    }
    write_replies(replies, writer)?;
    send(writer, reply)
}

// Lets the judge judge the reports that wait, for whose replies there is room.
fn judge_all<J: Judge, B: Allocator>(desk: &mut Desk<B>, judge: &mut J, tally: &mut Tally)
    requires below { AllByRecursion (IsReportBelow (J.event_count judge.old)) desk.old.reports.items }
    requires room { vec_len desk.old.replies ≤ BEFORE_A_GROUP }
    ensures said { (channels : List Channel) (lines : List (List ℕ)) → AllAsk channels lines desk.old.reports.items →
        (text : List ℕ) × (Talk (LineReplies J.reports J.statuses J.nexts J.identifies channels) (noted judge.old tally.old) lines (noted judge.new tally.new) text)
        × (desk.new.replies.items ≡ desk.old.replies.items ++ text) }
    ensures events { J.event_count judge.new ≡ J.event_count judge.old }
    ensures none { desk.new.reports.items ≡ [] }
    ensures begun { desk.new.begun.items ≡ desk.old.begun.items }
{
    desk.answers.clear();
    judge.report_all(&desk.reports, &mut desk.answers);
    desk.reports.clear();
    add_replies(&mut desk.replies, &desk.answers, tally);
}

// Makes room for the replies to a group of reports. Where there is none, those that wait are written.
fn make_room<W: Sink, B: Allocator>(
    replies: &mut Vec<u8, B>,
    writer: &mut W,
) -> Result<(), SinkFault>
    ensures ok { OnOk result ((out : List ℕ) × (out ++ replies.new.items ≡ replies.old.items) × Appends (W.contents writer.old) (W.contents writer.new) out) }
    ensures few { OnOk result (vec_len replies.new ≤ BEFORE_A_GROUP) }
    ensures handed_on { W.has_handed_on writer.old → OnOk result (W.has_handed_on writer.new) }
    ensures cut { OnErr result ((out : List ℕ) × (lost : List ℕ) × (out ++ lost ≡ replies.old.items) × Appends (W.contents writer.old) (W.contents writer.new) out) }
    ensures room { vec_capacity replies.old ≤ vec_capacity replies.new }
    ensures steady { OnOk result (W.failures writer.new ≡ W.failures writer.old) }
    ensures failed { OnErr result (W.failures writer.old < W.failures writer.new) }
{
    if replies.len() <= BEFORE_A_GROUP {
        return Ok(());
    }
    write_replies(replies, writer)
}

// Lets the judge judge the reports that wait. Where there isn't room for their replies, those that wait are written before.
fn judge_waiting<W: Sink, J: Judge, B: Allocator>(
    desk: &mut Desk<B>,
    writer: &mut W,
    judge: &mut J,
    tally: &mut Tally,
) -> Result<(), SinkFault>
    requires below { AllByRecursion (IsReportBelow (J.event_count judge.old)) desk.old.reports.items }
    ensures judged { (channels : List Channel) → OnOk result (Passes (LineReplies J.reports J.statuses J.nexts J.identifies channels) channels (noted judge.old tally.old) (noted judge.new tally.new) (W.contents writer.old) (W.contents writer.new)
        desk.old.replies.items desk.old.reports.items desk.new.replies.items []) }
    ensures cut { (channels : List Channel) → OnErr result (CutsOff (LineReplies J.reports J.statuses J.nexts J.identifies channels) channels (noted judge.old tally.old) (noted judge.new tally.new) (W.contents writer.old) (W.contents writer.new)
        desk.old.replies.items desk.old.reports.items) }
    ensures none { OnOk result (desk.new.reports.items ≡ []) }
    ensures begun { desk.new.begun.items ≡ desk.old.begun.items }
    ensures events { J.event_count judge.new ≡ J.event_count judge.old }
    ensures handed_on { W.has_handed_on writer.old → OnOk result (W.has_handed_on writer.new) }
    ensures steady { OnOk result (W.failures writer.new ≡ W.failures writer.old) }
    ensures failed { OnErr result (W.failures writer.old < W.failures writer.new) }
{
    make_room(&mut desk.replies, writer)?;
    judge_all(desk, judge, tally);
    Ok(())
}

// Lets a report wait, for which there is room.
fn add_report<B: Allocator>(reports: &mut Vec<Report, B>, report: Report)
    requires { (vec_len reports.old < GROUP) × (GROUP ≤ vec_capacity reports.old) }
    ensures items { reports.new.items ≡ reports.old.items ++ report ∷ [] }
    ensures len { vec_len reports.new ≤ GROUP }
    ensures room { GROUP ≤ vec_capacity reports.new }
{
    match reports.push(report) {
        Ok(()) => {}
        Err(_) => unreachable!(),
    }
}

// Makes room for one more report. Where there is none, those that wait are judged.
fn make_place<W: Sink, J: Judge, B: Allocator>(
    desk: &mut Desk<B>,
    writer: &mut W,
    judge: &mut J,
    tally: &mut Tally,
) -> Result<(), SinkFault>
    requires below { AllByRecursion (IsReportBelow (J.event_count judge.old)) desk.old.reports.items }
    ensures judged { (channels : List Channel) → OnOk result (Passes (LineReplies J.reports J.statuses J.nexts J.identifies channels) channels (noted judge.old tally.old) (noted judge.new tally.new) (W.contents writer.old) (W.contents writer.new)
        desk.old.replies.items desk.old.reports.items desk.new.replies.items desk.new.reports.items) }
    ensures cut { (channels : List Channel) → OnErr result (CutsOff (LineReplies J.reports J.statuses J.nexts J.identifies channels) channels (noted judge.old tally.old) (noted judge.new tally.new) (W.contents writer.old) (W.contents writer.new)
        desk.old.replies.items desk.old.reports.items) }
    ensures few { OnOk result (vec_len desk.new.reports < GROUP) }
    ensures below { OnOk result (AllByRecursion (IsReportBelow (J.event_count judge.old)) desk.new.reports.items) }
    ensures begun { desk.new.begun.items ≡ desk.old.begun.items }
    ensures events { J.event_count judge.new ≡ J.event_count judge.old }
    ensures handed_on { W.has_handed_on writer.old → OnOk result (W.has_handed_on writer.new) }
    ensures steady { OnOk result (W.failures writer.new ≡ W.failures writer.old) }
    ensures failed { OnErr result (W.failures writer.old < W.failures writer.new) }
{
    if desk.reports.len() < GROUP {
        return Ok(());
    }
    judge_waiting(desk, writer, judge, tally)
}

// A line asks to judge this report.
fn judge_later<W: Sink, J: Judge, B: Allocator>(
    report: Report,
    desk: &mut Desk<B>,
    writer: &mut W,
    judge: &mut J,
    tally: &mut Tally,
) -> Result<Option<End>, WireError>
    requires report { IsReportBelow (J.event_count judge.old) report }
    requires below { AllByRecursion (IsReportBelow (J.event_count judge.old)) desk.old.reports.items }
    ensures hears { (channels : List Channel) (j : Noted J) (old : Option (List ℕ)) (heard line : List ℕ) →
        Waits (LineReplies J.reports J.statuses J.nexts J.identifies channels) channels j (noted judge.old tally.old) old (W.contents writer.old) heard desk.old.replies.items desk.old.reports.items →
        IsHeard line → Asks channels line (Request.Judge report) →
        GoesOn (LineReplies J.reports J.statuses J.nexts J.identifies channels) channels j (noted judge.new tally.new) old (W.contents writer.new)
        (heard ++ (line ++ 10 ∷ [])) desk.new.replies.items desk.new.reports.items result }
    ensures below { OnOk result (AllByRecursion (IsReportBelow (J.event_count judge.old)) desk.new.reports.items) }
    ensures begun { desk.new.begun.items ≡ desk.old.begun.items }
    ensures events { J.event_count judge.new ≡ J.event_count judge.old }
    ensures handed_on { W.has_handed_on writer.old → OnOk result (W.has_handed_on writer.new) }
    ensures steady { OnOk result (W.failures writer.new ≡ W.failures writer.old) }
    ensures failed { OnErr result (W.failures writer.old < W.failures writer.new) }
{
    match make_place(desk, writer, judge, tally) {
        Ok(()) => {
            add_report(&mut desk.reports, report);
            Ok(None)
        }
        Err(SinkFault) => Err(WireError::Write),
    }
}

// Answers a line that asks for this, after the reports that wait.
fn answer_line<W: Sink, J: Judge, A: Allocator, B: Allocator>(
    request: &Request,
    desk: &mut Desk<B>,
    writer: &mut W,
    judge: &mut J,
    alphabet: &Alphabet<A>,
    tally: &mut Tally,
) -> Result<(), SinkFault>
    requires request { IsRequestBelow (J.event_count judge.old) request.now }
    requires below { AllByRecursion (IsReportBelow (J.event_count judge.old)) desk.old.reports.items }
    requires events { J.event_count judge.old ≡ event_count alphabet.now }
    ensures goes_on { OnOk result ((j : Noted J) (old : Option (List ℕ)) (heard line : List ℕ) →
        Waits (LineReplies J.reports J.statuses J.nexts J.identifies alphabet.now) alphabet.now j (noted judge.old tally.old) old (W.contents writer.old) heard desk.old.replies.items desk.old.reports.items →
        IsHeard line → Asks alphabet.now line request.now →
        Waits (LineReplies J.reports J.statuses J.nexts J.identifies alphabet.now) alphabet.now j (noted judge.new tally.new) old (W.contents writer.new) (heard ++ (line ++ 10 ∷ [])) desk.new.replies.items []) }
    ensures quits { OnOk result ((j : Noted J) (old : Option (List ℕ)) (heard line : List ℕ) →
        Waits (LineReplies J.reports J.statuses J.nexts J.identifies alphabet.now) alphabet.now j (noted judge.old tally.old) old (W.contents writer.old) heard desk.old.replies.items desk.old.reports.items →
        line ≡ codes "Q" → Asks alphabet.now line request.now →
        Quits (LineReplies J.reports J.statuses J.nexts J.identifies alphabet.now) alphabet.now j (noted judge.new tally.new) old (W.contents writer.new) (heard ++ (line ++ 10 ∷ [])) desk.new.replies.items) }
    ensures cut { OnErr result ((j : Noted J) (old : Option (List ℕ)) (heard line : List ℕ) →
        Waits (LineReplies J.reports J.statuses J.nexts J.identifies alphabet.now) alphabet.now j (noted judge.old tally.old) old (W.contents writer.old) heard desk.old.replies.items desk.old.reports.items →
        IsHeard line ⊎ (line ≡ codes "Q") → Asks alphabet.now line request.now →
        IsCutOff (LineReplies J.reports J.statuses J.nexts J.identifies alphabet.now) j (noted judge.new tally.new) old (W.contents writer.new) (heard ++ (line ++ 10 ∷ []))) }
    ensures none { OnOk result (desk.new.reports.items ≡ []) }
    ensures begun { desk.new.begun.items ≡ desk.old.begun.items }
    ensures events { J.event_count judge.new ≡ J.event_count judge.old }
    ensures handed_on { W.has_handed_on writer.old → OnOk result (W.has_handed_on writer.new) }
    ensures steady { OnOk result (W.failures writer.new ≡ W.failures writer.old) }
    ensures failed { OnErr result (W.failures writer.old < W.failures writer.new) }
{
    judge_waiting(desk, writer, judge, tally)?;
    answer(
        judge,
        alphabet,
        *request,
        &mut desk.offered,
        &mut desk.reply,
        tally,
    );
    put_reply(&mut desk.replies, &desk.reply, writer)
}

// Answers a Q, and writes all replies.
fn quit<W: Sink, J: Judge, A: Allocator, B: Allocator>(
    desk: &mut Desk<B>,
    writer: &mut W,
    judge: &mut J,
    alphabet: &Alphabet<A>,
    tally: &mut Tally,
) -> Result<(), SinkFault>
    requires below { AllByRecursion (IsReportBelow (J.event_count judge.old)) desk.old.reports.items }
    requires events { J.event_count judge.old ≡ event_count alphabet.now }
    ensures quits { OnOk result ((j : Noted J) (old : Option (List ℕ)) (heard line : List ℕ) →
        Waits (LineReplies J.reports J.statuses J.nexts J.identifies alphabet.now) alphabet.now j (noted judge.old tally.old) old (W.contents writer.old) heard desk.old.replies.items desk.old.reports.items →
        line ≡ codes "Q" →
        HasQuit (LineReplies J.reports J.statuses J.nexts J.identifies alphabet.now) j (noted judge.new tally.new) old (W.contents writer.new) (heard ++ (line ++ 10 ∷ []))) }
    ensures cut { OnErr result ((j : Noted J) (old : Option (List ℕ)) (heard line : List ℕ) →
        Waits (LineReplies J.reports J.statuses J.nexts J.identifies alphabet.now) alphabet.now j (noted judge.old tally.old) old (W.contents writer.old) heard desk.old.replies.items desk.old.reports.items →
        line ≡ codes "Q" →
        IsCutOff (LineReplies J.reports J.statuses J.nexts J.identifies alphabet.now) j (noted judge.new tally.new) old (W.contents writer.new) (heard ++ (line ++ 10 ∷ []))) }
    ensures events { J.event_count judge.new ≡ J.event_count judge.old }
    ensures handed_on { W.has_handed_on writer.old → OnOk result (W.has_handed_on writer.new) }
    ensures steady { OnOk result (W.failures writer.new ≡ W.failures writer.old) }
    ensures failed { OnErr result (W.failures writer.old < W.failures writer.new) }
{
    answer_line(&Request::Quit, desk, writer, judge, alphabet, tally)?;
    write_replies(&mut desk.replies, writer)
}

// Hears a line that asks for this.
fn hear_request<W: Sink, J: Judge, A: Allocator, B: Allocator>(
    request: &Request,
    desk: &mut Desk<B>,
    writer: &mut W,
    judge: &mut J,
    alphabet: &Alphabet<A>,
    tally: &mut Tally,
) -> Result<Option<End>, WireError>
    requires request { IsRequestBelow (J.event_count judge.old) request.now }
    requires below { AllByRecursion (IsReportBelow (J.event_count judge.old)) desk.old.reports.items }
    requires events { J.event_count judge.old ≡ event_count alphabet.now }
    ensures hears { (j : Noted J) (old : Option (List ℕ)) (heard line : List ℕ) →
        Waits (LineReplies J.reports J.statuses J.nexts J.identifies alphabet.now) alphabet.now j (noted judge.old tally.old) old (W.contents writer.old) heard desk.old.replies.items desk.old.reports.items →
        IsShort line → Asks alphabet.now line request.now →
        GoesOn (LineReplies J.reports J.statuses J.nexts J.identifies alphabet.now) alphabet.now j (noted judge.new tally.new) old (W.contents writer.new)
        (heard ++ (line ++ 10 ∷ [])) desk.new.replies.items desk.new.reports.items result }
    ensures below { result ≡ Ok None → AllByRecursion (IsReportBelow (J.event_count judge.old)) desk.new.reports.items }
    ensures begun { result ≡ Ok None → desk.new.begun.items ≡ desk.old.begun.items }
    ensures events { J.event_count judge.new ≡ J.event_count judge.old }
    ensures handed_on { W.has_handed_on writer.old → OnOk result (W.has_handed_on writer.new) }
    ensures steady { OnOk result (W.failures writer.new ≡ W.failures writer.old) }
    ensures failed { OnErr result (W.failures writer.old < W.failures writer.new) }
{
    match request {
        Request::Judge(report) => judge_later(*report, desk, writer, judge, tally),
        Request::Quit => match quit(desk, writer, judge, alphabet, tally) {
            Ok(()) => Ok(Some(End::Quit)),
            Err(SinkFault) => Err(WireError::Write),
        },
        _ => match answer_line(request, desk, writer, judge, alphabet, tally) {
            Ok(()) => Ok(None),
            Err(SinkFault) => Err(WireError::Write),
        },
    }
}

// Judges the reports that wait, and writes all replies.
fn settle<W: Sink, J: Judge, B: Allocator>(
    desk: &mut Desk<B>,
    writer: &mut W,
    judge: &mut J,
    tally: &mut Tally,
) -> Result<(), SinkFault>
    requires below { AllByRecursion (IsReportBelow (J.event_count judge.old)) desk.old.reports.items }
    ensures settled { (channels : List Channel) → OnOk result (Passes (LineReplies J.reports J.statuses J.nexts J.identifies channels) channels (noted judge.old tally.old) (noted judge.new tally.new) (W.contents writer.old) (W.contents writer.new)
        desk.old.replies.items desk.old.reports.items [] []) }
    ensures cut { (channels : List Channel) → OnErr result (CutsOff (LineReplies J.reports J.statuses J.nexts J.identifies channels) channels (noted judge.old tally.old) (noted judge.new tally.new) (W.contents writer.old) (W.contents writer.new)
        desk.old.replies.items desk.old.reports.items) }
    ensures none { OnOk result ((desk.new.reports.items ≡ []) × (desk.new.replies.items ≡ [])) }
    ensures begun { OnOk result (desk.new.begun.items ≡ desk.old.begun.items) }
    ensures events { J.event_count judge.new ≡ J.event_count judge.old }
    ensures handed_on { W.has_handed_on writer.old → OnOk result (W.has_handed_on writer.new) }
    ensures steady { OnOk result (W.failures writer.new ≡ W.failures writer.old) }
    ensures failed { OnErr result (W.failures writer.old < W.failures writer.new) }
{
    judge_waiting(desk, writer, judge, tally)?;
    write_replies(&mut desk.replies, writer)
}

// Ends the connection at a line that is too long, after all that waits.
fn end_at_line<W: Sink, J: Judge, B: Allocator>(
    desk: &mut Desk<B>,
    writer: &mut W,
    judge: &mut J,
    tally: &mut Tally,
) -> Result<Option<End>, WireError>
    requires below { AllByRecursion (IsReportBelow (J.event_count judge.old)) desk.old.reports.items }
    ensures hears { (channels : List Channel) (j : Noted J) (old : Option (List ℕ)) (heard bytes more d : List ℕ) →
        Waits (LineReplies J.reports J.statuses J.nexts J.identifies channels) channels j (noted judge.old tally.old) old (W.contents writer.old) heard desk.old.replies.items desk.old.reports.items →
        4096 < length bytes → Lacks 10 bytes →
        Hears (LineReplies J.reports J.statuses J.nexts J.identifies channels) j (noted judge.new tally.new) old (W.contents writer.new) (heard ++ (bytes ++ more)) d result }
    ensures end { (result ≡ Ok (Some End.Line)) ⊎ (result ≡ Err WireError.Write) }
    ensures events { J.event_count judge.new ≡ J.event_count judge.old }
    ensures handed_on { OnOk result (W.has_handed_on writer.new) }
    ensures steady { OnOk result (W.failures writer.new ≡ W.failures writer.old) }
    ensures failed { OnErr result (W.failures writer.old < W.failures writer.new) }
{
    match settle(desk, writer, judge, tally) {
        Ok(()) => cut_off(writer),
        Err(SinkFault) => Err(WireError::Write),
    }
}

// Hears the last piece of a line, after which stood an LF.
fn hear_line<W: Sink, J: Judge, A: Allocator, B: Allocator>(
    piece: &[u8],
    desk: &mut Desk<B>,
    writer: &mut W,
    judge: &mut J,
    alphabet: &Alphabet<A>,
    tally: &mut Tally,
) -> Result<Option<End>, WireError>
    requires begun { IsShort desk.old.begun.items }
    requires plain { Lacks 10 piece.now }
    requires below { AllByRecursion (IsReportBelow (J.event_count judge.old)) desk.old.reports.items }
    requires events { J.event_count judge.old ≡ event_count alphabet.now }
    ensures hears { (j : Noted J) (old : Option (List ℕ)) (heard : List ℕ) →
        Waits (LineReplies J.reports J.statuses J.nexts J.identifies alphabet.now) alphabet.now j (noted judge.old tally.old) old (W.contents writer.old) heard desk.old.replies.items desk.old.reports.items →
        GoesOn (LineReplies J.reports J.statuses J.nexts J.identifies alphabet.now) alphabet.now j (noted judge.new tally.new) old (W.contents writer.new)
        (heard ++ ((desk.old.begun.items ++ piece.now) ++ 10 ∷ [])) desk.new.replies.items desk.new.reports.items result }
    ensures below { result ≡ Ok None → AllByRecursion (IsReportBelow (J.event_count judge.old)) desk.new.reports.items }
    ensures begun { result ≡ Ok None → desk.new.begun.items ≡ [] }
    ensures events { J.event_count judge.new ≡ J.event_count judge.old }
    ensures handed_on { W.has_handed_on writer.old → OnOk result (W.has_handed_on writer.new) }
    ensures steady { OnOk result (W.failures writer.new ≡ W.failures writer.old) }
    ensures failed { OnErr result (W.failures writer.old < W.failures writer.new) }
{
    if piece.len() > LINE - desk.begun.len() {
        return end_at_line(desk, writer, judge, tally);
    }
    let request = whole_request(piece, &mut desk.begun, alphabet);
    hear_request(&request, desk, writer, judge, alphabet, tally)
}

// Hears a block of input.
fn feed<W: Sink, J: Judge, A: Allocator, B: Allocator>(
    bytes: &[u8],
    desk: &mut Desk<B>,
    writer: &mut W,
    judge: &mut J,
    alphabet: &Alphabet<A>,
    tally: &mut Tally,
) -> Result<Option<End>, WireError>
    requires begun { IsShort desk.old.begun.items }
    requires none { (desk.old.reports.items ≡ []) × (desk.old.replies.items ≡ []) }
    requires events { J.event_count judge.old ≡ event_count alphabet.now }
    ensures none { result ≡ Ok None → (desk.new.reports.items ≡ []) × (desk.new.replies.items ≡ []) }
    ensures hears { Hears (LineReplies J.reports J.statuses J.nexts J.identifies alphabet.now)
        (noted judge.old tally.old) (noted judge.new tally.new) (W.contents writer.old) (W.contents writer.new)
        (desk.old.begun.items ++ bytes.now) desk.new.begun.items result }
    ensures handed_on { W.has_handed_on writer.old → OnOk result (W.has_handed_on writer.new) }
    ensures events { J.event_count judge.new ≡ J.event_count judge.old }
    ensures steady { OnOk result (W.failures writer.new ≡ W.failures writer.old) }
    ensures failed { OnErr result (W.failures writer.old < W.failures writer.new) }
{
    let mut rest = bytes;
    while let Some((line, others)) = cut(rest, b'\n') {
        match hear_line(line, desk, writer, judge, alphabet, tally) {
            Ok(None) => {}
            Ok(Some(end)) => return Ok(Some(end)),
            Err(fault) => return Err(fault),
        }
        rest = others;
    }
    if rest.len() > LINE - desk.begun.len() {
        return end_at_line(desk, writer, judge, tally);
    }
    add(&mut desk.begun, rest);
    match settle(desk, writer, judge, tally) {
        Ok(()) => Ok(None),
        Err(SinkFault) => Err(WireError::Write),
    }
}

/// Answers the lines of a connection until a Q, the end of the input, a line that is too long, or a fault. The judge has the
/// alphabet that is handed in. Room for a begun line, for a group of reports, and for every reply but that of `N` is made first, and
/// `Memory` comes then alone; an `N` for which there is no memory is answered so.
///
/// The reports of all lines that one read brought are judged together, 1,024 at most, and the replies to all these lines are written
/// together, by one write where they have room and the writer takes them whole. Before it reads again, each line that came whole has
/// been answered, and its reply written and flushed: where nothing waited in the writer before, no reply waits there afterwards, save
/// where a write or a flush failed. Each line's answer is tallied, also where the write of its reply failed; a line that is too long has
/// no answer.
/// Cost: each byte is looked at once to find the line's end; a line that lies whole in one read isn't copied.
pub fn serve<T: Wait, R: Source, W: Sink, J: Judge, A: Allocator, B: Allocator + Clone + Drop>(
    rt: &T,
    alloc: B,
    reader: &mut R,
    writer: &mut W,
    judge: &mut J,
    alphabet: &Alphabet<A>,
    tally: &mut Tally,
) -> Result<End, WireError>
    requires { J.event_count judge.old ≡ event_count alphabet.now }
    ensures serves { Serves (LineReplies J.reports J.statuses J.nexts J.identifies alphabet.now)
        (record {
          before = noted judge.old tally.old;
          after = noted judge.new tally.new;
          unread_before = R.left reader.old;
          unread_after = R.left reader.new;
          written_before = W.contents writer.old;
          written_after = W.contents writer.new;
        }) result }
    ensures handed_on { W.has_handed_on writer.old → result ≢ Err WireError.Write → W.has_handed_on writer.new }
    ensures events { J.event_count judge.new ≡ J.event_count judge.old }
    ensures reader_failed { IsErrOf result WireError.Read → R.failures reader.old < R.failures reader.new }
    ensures writer_failed { IsErrOf result WireError.Write → W.failures writer.old < W.failures writer.new }
{
    let Ok(mut desk) = make_desk(alloc) else {
        return Err(WireError::Memory);
    };
    let mut block = [0u8; BLOCK];
    'pieces: for _ in rt.forever() {
        let Ok(count) = reader.read(&mut block) else {
            return Err(WireError::Read);
        };
        if count == 0 {
            return Ok(End::Input);
        }
        match feed(&block[..count], &mut desk, writer, judge, alphabet, tally) {
            Ok(None) => {}
            Ok(Some(end)) => return Ok(end),
            Err(fault) => return Err(fault),
        }
    }
    unreachable!()
}
