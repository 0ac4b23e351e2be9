//! Lines in, replies out, one line after the other.

ghost use Rattle.std.specs.Prelude.{◌≡◌, ◌≢◌, ◌+◌, ◌<◌, ◌≤◌, ◌++◌, ◌⊎◌, [], ◌∷◌, true, false, length, take, vec_len, vec_capacity, codes, IfOk, OnOk, OnErr, IsErrOf, Ok, Err, Some, None, ℕ};
ghost use Rattle.std.specs.Io.KnownBytes.{Appends};
ghost use Rattle.wire.specs.Requests.{Lacks};
ghost use Rattle.wire.specs.Talks.{IsShort};
ghost use Rattle.attending.specs.Attendances.{Attendance, Listens};
ghost use Rattle.attending.specs.Preparing.{GoesOn, IsReady, Prepares, standing};

use crate::attendant::Attendant;
use crate::manner::Ending;
use disk::Disk;
use std::alloc::Allocator;
use std::io::Write;
use std::sync::Wait;
use wire::{End, Sink, SinkFault, Source, WireError, cut, send};

// The most bytes of a line, without its LF.
const LINE: usize = 4096;

// Bytes that one read may give.
const BLOCK: usize = 65_536;

/// Replies to a line that is too long, which ends the conversation.
fn cut_off<W: Sink>(writer: &mut W) -> Result<Option<Ending>, WireError>
    ensures ok { OnOk result (Appends (W.contents writer.old) (W.contents writer.new) (codes "ERR 12 line\n")) }
    ensures handed_on { OnOk result (W.has_handed_on writer.new) }
    ensures cut { OnErr result ((n : ℕ) × Appends (W.contents writer.old) (W.contents writer.new) (take n (codes "ERR 12 line\n"))) }
    ensures steady { OnOk result (W.failures writer.new ≡ W.failures writer.old) }
    ensures failed { OnErr result (W.failures writer.old < W.failures writer.new) }
    ensures end { (result ≡ Ok (Some (Ending.By End.Line))) ⊎ (result ≡ Err WireError.Write) }
{
    match send(writer, b"ERR 12 line\n") {
        Ok(()) => Ok(Some(Ending::By(End::Line))),
        Err(SinkFault) => Err(WireError::Write),
    }
}

/// Adds bytes for which there is room.
fn add<A: Allocator>(text: &mut Vec<u8, A>, bytes: &[u8])
    requires { vec_len text.old + length bytes.now ≤ vec_capacity text.old }
    ensures items { text.new.items ≡ text.old.items ++ bytes.now }
    ensures room { vec_capacity text.old ≤ vec_capacity text.new }
{
    match text.extend_from_slice(bytes) {
        Ok(()) => {}
        Err(_) => unreachable!(),
    }
}

/// Writes what is to be written on the errors. The result is whether all was written, also before.
fn write_errors<E: Write>(errors: &mut E, said: &[u8], whole: bool) -> bool
    ensures { result ≡ true → (whole ≡ true) × Appends (E.contents errors.old) (E.contents errors.new) said.now }
{
    if !whole || said.is_empty() {
        return whole;
    }
    errors.write_all(said).is_ok() && errors.flush().is_ok()
}

/// Answers the line whose last piece this is. The result is whether it is a Q.
fn take_line<D: Disk, A: Allocator + Copy>(
    piece: &[u8],
    begun: &mut Vec<u8, A>,
    attendant: &mut Attendant<D, A>,
) -> bool
    requires ready { IsReady attendant.old.manner attendant.old.alone.session.spec attendant.old.alone.session.history attendant.old.monitor attendant.old.whole }
    requires fits { length begun.old.items + length piece.now ≤ 4096 }
    requires room { 4096 ≤ vec_capacity begun.old }
    ensures ready { IsReady attendant.new.manner attendant.new.alone.session.spec attendant.new.alone.session.history attendant.new.monitor attendant.new.whole }
    ensures prepares { Prepares attendant.old.manner attendant.old.alone.session.spec
        (standing attendant.old.alone.session.history attendant.old.alone.session.failed attendant.old.tally attendant.old.lines attendant.old.whole None) (begun.old.items ++ piece.now)
        (standing attendant.new.alone.session.history attendant.new.alone.session.failed attendant.new.tally attendant.new.lines attendant.new.whole None)
        attendant.new.reply.items attendant.new.said.items }
    ensures quit { result ≡ true → (begun.old.items ++ piece.now ≡ codes "Q") × (attendant.new.tally ≡ attendant.old.tally) }
    ensures other { result ≡ false → begun.old.items ++ piece.now ≢ codes "Q" }
    ensures same { (attendant.new.manner ≡ attendant.old.manner) × (attendant.new.alone.session.spec ≡ attendant.old.alone.session.spec) }
    ensures begun { begun.new.items ≡ [] }
    ensures room { 4096 ≤ vec_capacity begun.new }
{
    if begun.is_empty() {
        return attendant.prepare(piece);
    }
    add(begun, piece);
    let quit = attendant.prepare(begun);
    begun.clear();
    quit
}

/// Hears the last piece of a line, after which stood an LF.
fn hear_line<D: Disk, A: Allocator + Copy, W: Sink, E: Write>(
    piece: &[u8],
    begun: &mut Vec<u8, A>,
    attendant: &mut Attendant<D, A>,
    writer: &mut W,
    errors: &mut E,
) -> Result<Option<Ending>, WireError>
    requires ready { IsReady attendant.old.manner attendant.old.alone.session.spec attendant.old.alone.session.history attendant.old.monitor attendant.old.whole }
    requires begun { IsShort begun.old.items }
    requires room { 4096 ≤ vec_capacity begun.old }
    requires plain { Lacks 10 piece.now }
    requires going { attendant.old.manner.first ≡ true → attendant.old.tally.rejected ≡ false }
    ensures ready { IsReady attendant.new.manner attendant.new.alone.session.spec attendant.new.alone.session.history attendant.new.monitor attendant.new.whole }
    ensures listens { Listens attendant.old.manner attendant.old.alone.session.spec
        (standing attendant.old.alone.session.history attendant.old.alone.session.failed attendant.old.tally attendant.old.lines attendant.old.whole (E.contents errors.old))
        (standing attendant.new.alone.session.history attendant.new.alone.session.failed attendant.new.tally attendant.new.lines attendant.new.whole (E.contents errors.new))
        (W.contents writer.old) (W.contents writer.new) (begun.old.items ++ (piece.now ++ 10 ∷ [])) begun.new.items result }
    ensures going { GoesOn attendant.old.manner attendant.new.tally result }
    ensures same { (attendant.new.manner ≡ attendant.old.manner) × (attendant.new.alone.session.spec ≡ attendant.old.alone.session.spec) }
    ensures room { 4096 ≤ vec_capacity begun.new }
    ensures handed_on { OnOk result (W.has_handed_on writer.new) }
    ensures steady { OnOk result (W.failures writer.new ≡ W.failures writer.old) }
    ensures failed { OnErr result (W.failures writer.old < W.failures writer.new) }
{
    if piece.len() > LINE - begun.len() {
        return cut_off(writer);
    }
    let quit = take_line(piece, begun, attendant);
    let Ok(()) = send(writer, &attendant.reply) else {
        attendant.note_whole(false);
        return Err(WireError::Write);
    };
    let whole = write_errors(errors, &attendant.said, attendant.whole);
    attendant.note_whole(whole);
    if quit {
        Ok(Some(Ending::By(End::Quit)))
    } else if attendant.manner.first && attendant.tally.rejected {
        Ok(Some(Ending::Rejected))
    } else {
        Ok(None)
    }
}

/// Hears a block of input.
fn feed<D: Disk, A: Allocator + Copy, W: Sink, E: Write>(
    bytes: &[u8],
    begun: &mut Vec<u8, A>,
    attendant: &mut Attendant<D, A>,
    writer: &mut W,
    errors: &mut E,
) -> Result<Option<Ending>, WireError>
    requires ready { IsReady attendant.old.manner attendant.old.alone.session.spec attendant.old.alone.session.history attendant.old.monitor attendant.old.whole }
    requires begun { IsShort begun.old.items }
    requires room { 4096 ≤ vec_capacity begun.old }
    requires going { attendant.old.manner.first ≡ true → attendant.old.tally.rejected ≡ false }
    ensures ready { IsReady attendant.new.manner attendant.new.alone.session.spec attendant.new.alone.session.history attendant.new.monitor attendant.new.whole }
    ensures listens { Listens attendant.old.manner attendant.old.alone.session.spec
        (standing attendant.old.alone.session.history attendant.old.alone.session.failed attendant.old.tally attendant.old.lines attendant.old.whole (E.contents errors.old))
        (standing attendant.new.alone.session.history attendant.new.alone.session.failed attendant.new.tally attendant.new.lines attendant.new.whole (E.contents errors.new))
        (W.contents writer.old) (W.contents writer.new) (begun.old.items ++ bytes.now) begun.new.items result }
    ensures going { GoesOn attendant.old.manner attendant.new.tally result }
    ensures same { (attendant.new.manner ≡ attendant.old.manner) × (attendant.new.alone.session.spec ≡ attendant.old.alone.session.spec) }
    ensures room { 4096 ≤ vec_capacity begun.new }
    ensures handed_on { W.has_handed_on writer.old → OnOk result (W.has_handed_on writer.new) }
    ensures steady { OnOk result (W.failures writer.new ≡ W.failures writer.old) }
    ensures failed { OnErr result (W.failures writer.old < W.failures writer.new) }
{
    let mut rest = bytes;
    while let Some((line, others)) = cut(rest, b'\n') {
        match hear_line(line, begun, attendant, writer, errors) {
            Ok(None) => {}
            Ok(Some(end)) => return Ok(Some(end)),
            Err(fault) => return Err(fault),
        }
        rest = others;
    }
    if rest.len() > LINE - begun.len() {
        return cut_off(writer);
    }
    add(begun, rest);
    Ok(None)
}

/// Answers the lines of the reader until a Q, the end of the input, a line that is too long, a fault, or with `first` a rejected report.
pub(crate) fn serve<R: Wait, D: Disk, A: Allocator + Copy, T: Source, W: Sink, E: Write>(
    rt: &R,
    begun: &mut Vec<u8, A>,
    attendant: &mut Attendant<D, A>,
    reader: &mut T,
    writer: &mut W,
    errors: &mut E,
) -> Result<Ending, WireError>
    requires ready { IsReady attendant.old.manner attendant.old.alone.session.spec attendant.old.alone.session.history attendant.old.monitor attendant.old.whole }
    requires begun { begun.old.items ≡ [] }
    requires room { 4096 ≤ vec_capacity begun.old }
    requires going { attendant.old.tally.rejected ≡ false }
    ensures ready { IsReady attendant.new.manner attendant.new.alone.session.spec attendant.new.alone.session.history attendant.new.monitor attendant.new.whole }
    ensures attends { Attendance attendant.old.manner attendant.old.alone.session.spec
        (record {
          before = standing attendant.old.alone.session.history attendant.old.alone.session.failed attendant.old.tally attendant.old.lines attendant.old.whole (E.contents errors.old);
          after = standing attendant.new.alone.session.history attendant.new.alone.session.failed attendant.new.tally attendant.new.lines attendant.new.whole (E.contents errors.new);
          unread_before = T.left reader.old;
          unread_after = T.left reader.new;
          written_before = W.contents writer.old;
          written_after = W.contents writer.new;
        }) result }
    ensures same { attendant.new.alone.session.spec ≡ attendant.old.alone.session.spec }
    ensures handed_on { W.has_handed_on writer.old → result ≢ Err WireError.Write → W.has_handed_on writer.new }
    ensures reader_failed { IsErrOf result WireError.Read → T.failures reader.old < T.failures reader.new }
    ensures writer_failed { IsErrOf result WireError.Write → W.failures writer.old < W.failures writer.new }
{
    let mut block = [0u8; BLOCK];
    'pieces: for _ in rt.forever() {
        let Ok(count) = reader.read(&mut block) else {
            return Err(WireError::Read);
        };
        if count == 0 {
            return Ok(Ending::By(End::Input));
        }
        match feed(&block[..count], begun, attendant, writer, errors) {
            Ok(None) => {}
            Ok(Some(end)) => return Ok(end),
            Err(fault) => return Err(fault),
        }
    }
    unreachable!()
}
