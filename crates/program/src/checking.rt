//! A conversation of one who reports alone, judged by what a script denotes.

ghost use Rattle.std.specs.Prelude.{◌≡◌, ◌≢◌, ◌⊎◌, ◌<◌, [], false, true, ℕ, List, ◌∷◌, IfOk, IfErr, IfSome, IfNone, MatchResult, IsErrOf, Err, vec_len, vec_capacity};
ghost use Rattle.term.specs.Proc.{bodies_of};
ghost use Rattle.term.specs.Specs.{Specified};
ghost use Rattle.shared.specs.Legal.{Legal};
ghost use Rattle.shared.specs.Beginnings.{StartsWith};
ghost use Rattle.shared.specs.SessionFaults.{IsMemory};
ghost use Rattle.shared.specs.Replays.{IsUnopened};
ghost use Rattle.shared.specs.Scripts.{IsReadAs, IsUnbegun};
ghost use Rattle.shared.specs.SessionView.{IsFor};
ghost use Rattle.shared.specs.View.{SeatView};
ghost use Rattle.seats.specs.Judges.{SeatReplies};
ghost use Rattle.wire.specs.Replies.{noted};
ghost use Rattle.wire.specs.Talks.{Serves};
ghost use Rattle.program.specs.Conversations.{Conversed, no_answers};
ghost use Rattle.program.specs.Exits.{exit_of};

use crate::exit::exit_after;
use alphabet::Alphabet;
use answers::Exit;
use disk::Disk;
use journal::Journal;
use seats::SeatJudge;
use shared::{Naming, Opened, Recorder, Session, SessionError, Share, Shared, Sharing};
use std::alloc::{Allocator, Global};
use std::marker::Brand;
use std::sync::Wait;
use std::sync::ledger::Blank;
use term::Names;
use wire::{End, Sink, Source, Tally, WireError};

/// What a check comes to.
#[derive(Drop)]
pub struct Checked<D: Disk, A: Allocator = Global> {
    /// The session, with the history of what was reported.
    pub session: Session<D, A>,
    /// How the conversation ended.
    pub end: Result<End, WireError>,
    /// What there was among the answers.
    pub tally: Tally,
    /// The exit status, by how the conversation ended and what was answered.
    pub exit: Exit,
}

// How a conversation ended, and what was answered.
#[derive(Clone, Copy)]
struct Talk {
    end: Result<End, WireError>,
    tally: Tally,
}

// Whether there is room for one share more.
fn has_room<N: Naming, A: Allocator>(shares: &mut Vec<Share<N, A>, A>) -> bool
    ensures items { shares.new.items ≡ shares.old.items }
    ensures room { result ≡ true → vec_len shares.new < vec_capacity shares.new }
{
    shares.reserve(1).is_ok()
}

// Answers the lines of the reader from a seat, whose share comes to the shares. `None` where there is no memory for that.
fn hear<R: Wait, J: Recorder, A: Allocator + Copy + Drop, N: Sharing<J>, T: Source, W: Sink>(
    rt: &R,
    alloc: A,
    shared: &Shared<J, A, N>,
    alphabet: &Alphabet<A>,
    reader: &mut T,
    writer: &mut W,
    shares: &mut Vec<Share<N, A>, A>,
) -> Option<Talk>
    requires alphabet { alphabet.now ≡ N.spec.alphabet }
    requires none { shares.old.items ≡ [] }
    ensures serves { IfSome result (λ t. (first : SeatView) × (last : SeatView) × (first.mine ≡ []) × (first.closed ≡ false) × (shares.new.items ≡ last ∷ [])
        × Serves (SeatReplies N.spec N.spec.alphabet)
        (record {
          before = noted first no_answers;
          after = noted last t.tally;
          unread_before = T.left reader.old;
          unread_after = T.left reader.new;
          written_before = W.contents writer.old;
          written_after = W.contents writer.new;
        }) t.end) }
    ensures untouched { IfNone result ((reader.new ≡ reader.old) × (writer.new ≡ writer.old)) }
    ensures handed_on { IfSome result (λ t. W.has_handed_on writer.old → t.end ≢ Err WireError.Write → W.has_handed_on writer.new) }
    ensures reader_failed { IfSome result (λ t. IsErrOf t.end WireError.Read → T.failures reader.old < T.failures reader.new) }
    ensures writer_failed { IfSome result (λ t. IsErrOf t.end WireError.Write → W.failures writer.old < W.failures writer.new) }
{
    if !has_room(shares) {
        return None;
    }
    let mut judge = match shared.seat(rt, alloc) {
        Ok(seat) => SeatJudge::new(rt, seat),
        Err(_) => return None,
    };
    let mut tally = Tally::new();
    let end = judge.serve(alloc, reader, writer, alphabet, &mut tally);
    shares.push_reserved(judge.end());
    Some(Talk { end, tally })
}

// Answers the lines of the reader from the only seat of the session. The caller picks the names.
fn hear_alone<
    R: Wait,
    D: Disk + Drop,
    A: Allocator + Copy + Drop,
    N: Sharing<Journal<D>>,
    T: Source,
    W: Sink,
>(
    rt: &R,
    alloc: A,
    session: Session<D, A>,
    opened: Opened,
    blank: Blank,
    alphabet: &Alphabet<A>,
    reader: &mut T,
    writer: &mut W,
) -> Result<Checked<D, A>, SessionError>
    requires story { (session.spec ≡ N.spec) × (session.history ≡ N.opening) × (session.offered ≡ []) × (N.opening ≡ []) }
    requires before { IfSome N.before (λ before. before ≡ session) }
    requires book { opened.seen.book ≡ N.book }
    requires ledger { (blank.name ≡ N.name) × (blank.parts ≡ N.parts) × (N.all ≡ N.parts) × (N.all ≡ 2) }
    requires alphabet { alphabet.now ≡ N.spec.alphabet }
    ensures spec { IfOk result (λ c. c.session.spec ≡ N.spec) }
    ensures conversed { IfOk result (λ c. Conversed N.spec
        (record {
          before = no_answers;
          after = c.tally;
          unread_before = T.left reader.old;
          unread_after = T.left reader.new;
          written_before = W.contents writer.old;
          written_after = W.contents writer.new;
        }) c.end c.session.history) }
    ensures legal { IfOk result (λ c. Legal (bodies_of N.spec.bodies) c.session.history) }
    ensures exit { IfOk result (λ c. c.exit ≡ exit_of c.end c.tally) }
    ensures memory { IfErr result (λ error. error ≡ SessionError.Memory) }
    ensures untouched { IfErr result (λ _. (reader.new ≡ reader.old) × (writer.new ≡ writer.old)) }
    ensures handed_on { IfOk result (λ c. W.has_handed_on writer.old → c.end ≢ Err WireError.Write → W.has_handed_on writer.new) }
    ensures reader_failed { IfOk result (λ c. IsErrOf c.end WireError.Read → T.failures reader.old < T.failures reader.new) }
    ensures writer_failed { IfOk result (λ c. IsErrOf c.end WireError.Write → W.failures writer.old < W.failures writer.new) }
{
    let Ok(shared) = Shared::<Journal<D>, A, N>::new(rt, alloc, session, opened, blank, 1) else {
        return Err(SessionError::Memory);
    };
    let mut shares = Vec::new(alloc);
    let talk = hear(rt, alloc, &shared, alphabet, reader, writer, &mut shares);
    let (session, _count) = shared.finish(rt, shares);
    match talk {
        Some(talk) => Ok(Checked {
            session,
            end: talk.end,
            tally: talk.tally,
            exit: exit_after(talk.end, talk.tally),
        }),
        None => {
            drop(session);
            Err(SessionError::Memory)
        }
    }
}

// Judges the lines of the reader by a session without entries, and answers them on the writer.
fn judge_by<R: Wait, D: Disk + Drop, A: Allocator + Copy + Drop, T: Source, W: Sink>(
    rt: &R,
    alloc: A,
    session: Session<D, A>,
    reader: &mut T,
    writer: &mut W,
) -> Result<Checked<D, A>, SessionError>
    requires history { session.history ≡ [] }
    requires offered { session.offered ≡ [] }
    ensures spec { IfOk result (λ c. c.session.spec ≡ session.spec) }
    ensures conversed { IfOk result (λ c. Conversed session.spec
        (record {
          before = no_answers;
          after = c.tally;
          unread_before = T.left reader.old;
          unread_after = T.left reader.new;
          written_before = W.contents writer.old;
          written_after = W.contents writer.new;
        }) c.end c.session.history) }
    ensures legal { IfOk result (λ c. Legal (bodies_of session.spec.bodies) c.session.history) }
    ensures exit { IfOk result (λ c. c.exit ≡ exit_of c.end c.tally) }
    ensures memory { IfErr result (λ error. error ≡ SessionError.Memory) }
    ensures untouched { IfErr result (λ _. (reader.new ≡ reader.old) × (writer.new ≡ writer.old)) }
    ensures handed_on { IfOk result (λ c. W.has_handed_on writer.old → c.end ≢ Err WireError.Write → W.has_handed_on writer.new) }
    ensures reader_failed { IfOk result (λ c. IsErrOf c.end WireError.Read → T.failures reader.old < T.failures reader.new) }
    ensures writer_failed { IfOk result (λ c. IsErrOf c.end WireError.Write → W.failures writer.old < W.failures writer.new) }
{
    let Ok(alphabet) = session.spec().shared_alphabet(alloc) else {
        drop(session);
        return Err(SessionError::Memory);
    };
    let opened = Opened::new();
    hear_alone::<_, _, _, Brand, _, _>(
        rt,
        alloc,
        session,
        opened,
        Blank::new(2),
        &alphabet,
        reader,
        writer,
    )
}

/// Judges the lines of the reader by what the script denotes for the process, with names kept so, and answers them on the writer, each
/// report as the next of the only seat of a new session on this disk.
///
/// The errors are those of `Session::create_as`: `Script`, then `Depth` or `States`, then `Device`, or `Memory`. Nothing is then read or
/// written.
pub fn check<R: Wait, D: Disk + Drop, A: Allocator + Copy + Drop, T: Source, W: Sink>(
    rt: &R,
    alloc: A,
    disk: D,
    script: &[u8],
    process: &[u8],
    names: Names,
    reader: &mut T,
    writer: &mut W,
) -> Result<Checked<D, A>, SessionError>
    // The script denotes the session's specification for the process.
    ensures read { IfOk result (λ c. IsReadAs names script.now process.now c.session.spec) }

    // The bytes out are the definition's replies to the bytes in, from the empty history to the session's.
    ensures conversed { IfOk result (λ c. Conversed c.session.spec
        (record {
          before = no_answers;
          after = c.tally;
          unread_before = T.left reader.old;
          unread_after = T.left reader.new;
          written_before = W.contents writer.old;
          written_after = W.contents writer.new;
        }) c.end c.session.history) }
    ensures legal { IfOk result (λ c. Legal (bodies_of c.session.spec.bodies) c.session.history) }
    ensures exit { IfOk result (λ c. c.exit ≡ exit_of c.end c.tally) }

    // Or there is no session for this reason. Where the script denotes a specification, no fault of the script but out of memory comes.
    ensures fault { IfErr result (IsUnbegun names script.now process.now) }
    ensures only { (spec : Specified) → IsReadAs names script.now process.now spec
        → MatchResult result (λ c. c.session.spec ≡ spec) (λ error. IsMemory error ⊎ (IsUnopened spec error ⊎ (error ≡ SessionError.Device))) }
    ensures untouched { IfErr result (λ _. (reader.new ≡ reader.old) × (writer.new ≡ writer.old)) }

    ensures handed_on { IfOk result (λ c. W.has_handed_on writer.old → c.end ≢ Err WireError.Write → W.has_handed_on writer.new) }
    ensures reader_failed { IfOk result (λ c. IsErrOf c.end WireError.Read → T.failures reader.old < T.failures reader.new) }
    ensures writer_failed { IfOk result (λ c. IsErrOf c.end WireError.Write → W.failures writer.old < W.failures writer.new) }
{
    match Session::create_as(alloc, disk, script, process, names) {
        Ok(session) => judge_by(rt, alloc, session, reader, writer),
        Err((error, disk)) => {
            drop(disk);
            Err(error)
        }
    }
}
