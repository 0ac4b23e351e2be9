//! The history of a journal, shown further: what came to it since it was shown.

ghost use Rattle.std.specs.Prelude.{◌≡◌, ◌≢◌, ◌<◌, ◌++◌, IsTrue, IfOk, IfErr, OnOk, IsErrOf};
ghost use Rattle.program.specs.Followings.{Follows, IsNotFollowed, IsTextOf, IsUnwritten, WritesOn};
ghost use Rattle.program.specs.Showings.{HasNoDisplay};

use crate::showing::{DisplayError, lines_of};
use disk::Disk;
use journal::after;
use shared::SessionError;
use shown::Options;
use std::alloc::{AllocError, Allocator};
use wire::{Plain, Sink, SinkFault, send};

/// Why nothing further is shown of a journal.
#[derive(Clone, Copy, Debug, PartialEq, Eq)]
pub enum FollowError {
    /// The journal has no session, or a request for memory was refused.
    Session(SessionError),
    /// The output failed.
    Output,
    /// What was shown before isn't the beginning of what there is to show now.
    Changed,
}

// One text after the other.
pub(crate) fn joined<A: Allocator>(
    text: Vec<u8, A>,
    left: Vec<u8, A>,
) -> Result<Vec<u8, A>, AllocError>
    ensures { IfOk result (λ whole. whole.items ≡ text.items ++ left.items) }
{
    let mut text = text;
    let added = text.extend_from_slice(&left);
    drop(left);
    match added {
        Ok(()) => Ok(text),
        Err(_) => {
            drop(text);
            Err(AllocError)
        }
    }
}

// The lines of the history that the disk holds.
fn text_of<D: Disk + Drop, A: Allocator + Copy>(
    alloc: A,
    disk: D,
    options: Options,
) -> Result<Vec<u8, A>, DisplayError>
    ensures text { IfOk result (λ text. IsTextOf (D.state disk) options text.items) }
    ensures fault { IfErr result (λ error. IsTrue (D.state disk).claims_bytes → HasNoDisplay (D.state disk).bytes error) }
{
    let mut text = Plain::new(Vec::new(alloc));
    match lines_of(alloc, disk, options, &mut text) {
        Ok((session, header, left)) => {
            drop(session);
            drop(header);
            match joined(text.into_inner(), left) {
                Ok(text) => Ok(text),
                Err(AllocError) => Err(DisplayError::Session(SessionError::Memory)),
            }
        }
        Err(error) => {
            drop(text);
            Err(error)
        }
    }
}

// Writes what the text has more than what was shown before.
fn write_rest<W: Sink>(text: &[u8], before: &[u8], output: &mut W) -> Result<(), FollowError>
    ensures written { OnOk result (WritesOn before.now text.now (W.contents output.old) (W.contents output.new)) }
    ensures fault { IfErr result (IsUnwritten before.now text.now) }
    ensures silent { IfErr result (λ error. error ≢ FollowError.Output → output.new ≡ output.old) }
    ensures output_failed { IsErrOf result FollowError.Output → W.failures output.old < W.failures output.new }
{
    let Some(rest) = after(text, before) else {
        return Err(FollowError::Changed);
    };
    match send(output, rest) {
        Ok(()) => Ok(()),
        Err(SinkFault) => Err(FollowError::Output),
    }
}

/// Judges the records of the journal on the disk again, as `show` does, and writes the lines of its history that come after what was
/// shown of it before; so what is written in all is what `show` would write of the journal as it is now, but for the counts. The
/// answer is that text, for the next call. The errors are those of `replay`, that of the output, and that the journal isn't the one
/// that was shown. Each call judges the whole history, and holds its text.
pub fn follow<D: Disk + Drop, A: Allocator + Copy, W: Sink>(
    alloc: A,
    disk: D,
    options: Options,
    before: Vec<u8, A>,
    output: &mut W,
) -> Result<Vec<u8, A>, FollowError>
    ensures follows { IfOk result (λ text. Follows (D.state disk) options before.items text.items (W.contents output.old) (W.contents output.new)) }

    // Or nothing further is shown, for this reason; and nothing is written, unless the output fails.
    ensures fault { IfErr result (IsNotFollowed (D.state disk) options before.items) }
    ensures silent { IfErr result (λ error. error ≢ FollowError.Output → output.new ≡ output.old) }
    ensures output_failed { IsErrOf result FollowError.Output → W.failures output.old < W.failures output.new }
{
    match text_of(alloc, disk, options) {
        Ok(text) => show_on(text, before, output),
        Err(error) => {
            drop(before);
            match error {
                DisplayError::Session(error) => Err(FollowError::Session(error)),
                DisplayError::Output => Err(FollowError::Session(SessionError::Memory)),
            }
        }
    }
}

// Writes what the text has more than what was shown before, and gives it back.
pub(crate) fn show_on<A: Allocator, W: Sink>(
    text: Vec<u8, A>,
    before: Vec<u8, A>,
    output: &mut W,
) -> Result<Vec<u8, A>, FollowError>
    ensures written { IfOk result (λ whole. (whole ≡ text) × WritesOn before.items text.items (W.contents output.old) (W.contents output.new)) }
    ensures fault { IfErr result (IsUnwritten before.items text.items) }
    ensures silent { IfErr result (λ error. error ≢ FollowError.Output → output.new ≡ output.old) }
    ensures output_failed { IsErrOf result FollowError.Output → W.failures output.old < W.failures output.new }
{
    let written = write_rest(&text, &before, output);
    drop(before);
    match written {
        Ok(()) => Ok(text),
        Err(error) => {
            drop(text);
            Err(error)
        }
    }
}
