//! The line of a history's counts.

ghost use Rattle.std.specs.Prelude.{◌≡◌, ◌++◌, decimal, OnOk, IfOk};
ghost use Rattle.wire.specs.Replies.{status_text};
ghost use Rattle.attending.specs.Courses.{status_by};
ghost use Rattle.program.specs.Showings.{summary_text};
ghost use Rattle.shown.specs.declared.options.Format.TheVariants.{Json};

use itoa::Buffer;
use shared::Summary;
use std::alloc::{AllocError, Allocator};

// Appends a number in decimal.
fn add_number<A: Allocator>(line: &mut Vec<u8, A>, number: u64) -> Result<(), AllocError>
    ensures { OnOk result (line.new.items ≡ line.old.items ++ decimal number) }
{
    let mut buffer = Buffer::new();
    line.extend_from_slice(buffer.format(number).as_bytes())
}

/// Appends the line with these counts.
pub(crate) fn add_line<A: Allocator>(
    line: &mut Vec<u8, A>,
    summary: Summary,
    closed: bool,
) -> Result<(), AllocError>
    ensures { OnOk result (line.new.items ≡ line.old.items ++ status_text (status_by summary closed)) }
{
    line.extend_from_slice(b"S ")?;
    add_number(line, summary.judged)?;
    line.extend_from_slice(b" ")?;
    add_number(line, summary.events)?;
    line.extend_from_slice(b" ")?;
    add_number(line, summary.refusals)?;
    line.extend_from_slice(b" ")?;
    add_number(line, summary.rejected)?;
    if closed {
        line.extend_from_slice(b" closed\n")
    } else {
        line.extend_from_slice(b" open\n")
    }
}

// Appends a field of a JSON object, with what comes before its number.
fn add_field<A: Allocator>(
    line: &mut Vec<u8, A>,
    name: &[u8],
    number: u64,
) -> Result<(), AllocError>
    ensures { OnOk result (line.new.items ≡ line.old.items ++ name.now ++ decimal number) }
{
    line.extend_from_slice(name)?;
    add_number(line, number)
}

/// Appends the counts of a history that may go on, as a JSON object.
pub(crate) fn add_json<A: Allocator>(
    line: &mut Vec<u8, A>,
    summary: Summary,
) -> Result<(), AllocError>
    ensures { OnOk result (line.new.items ≡ line.old.items ++ summary_text Json summary) }
{
    add_field(line, b"{\"judged\":", summary.judged)?;
    add_field(line, b",\"events\":", summary.events)?;
    add_field(line, b",\"refusals\":", summary.refusals)?;
    add_field(line, b",\"rejected\":", summary.rejected)?;
    line.extend_from_slice(b",\"closed\":false}\n")
}

/// The line with these counts, as `S` is answered: of a session that is closed, or of one that is open.
pub fn summary_line<A: Allocator>(
    alloc: A,
    summary: Summary,
    closed: bool,
) -> Result<Vec<u8, A>, AllocError>
    ensures { IfOk result (λ line. line.items ≡ status_text (status_by summary closed)) }
{
    let mut line = Vec::new(alloc);
    add_line(&mut line, summary, closed)?;
    Ok(line)
}
