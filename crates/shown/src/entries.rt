//! The lines of entries, with what is found of them.

ghost use Rattle.std.specs.Prelude.{◌≡◌, ◌++◌, ◌↔◌, ℕ, suc, [], ◌∷◌, IsTrue, List, length, OnOk};
ghost use Rattle.term.specs.Proc.{bodies_of};
ghost use Rattle.term.specs.Verdict.{Verdict};
ghost use Rattle.history.specs.declared.entry.Entry.{Entry as entry_type};
ghost use Rattle.history.specs.Entries.{events};
ghost use Rattle.monitor.specs.Monitors.{MeetsNone};
ghost use Rattle.shown.specs.Lines.{Finding, finding_text};
ghost use Rattle.shown.specs.Findings.{Finds, HasLine, ShowsEntry};
ghost use Rattle.shown.specs.Said.{IsSaid};

use crate::lines::{put_accepted, put_head, put_report};
use crate::options::{Format, Options};
use crate::said::{Said, put_said_expected, put_said_offered};
use alphabet::Report;
use history::{AfterFault, Entry, LegalHistory};
use monitor::Monitor;
use std::alloc::{AllocError, Allocator};

/// Appends what is found of the entry that comes next in the history.
fn put_finding<A: Allocator + Copy>(
    text: &mut Vec<u8, A>,
    said: &mut Said<A>,
    legal: &LegalHistory<A>,
    alloc: A,
    entry: &Entry,
    format: Format,
) -> Result<(), AllocError>
    requires { IsSaid format legal.now.spec.alphabet said.old }
    ensures said { OnOk result (IsSaid format legal.now.spec.alphabet said.new) }
    ensures finding { OnOk result ((finding : Finding) × Finds (bodies_of legal.now.spec.bodies) legal.now.entries entry.now.verdict entry.now.report finding
        × (text.new.items ≡ text.old.items ++ finding_text format legal.now.spec.alphabet finding)) }
{
    let alphabet = legal.spec().alphabet();
    if entry.verdict {
        return put_accepted(text, format);
    }
    if let Report::Event(_) = entry.report {
        return put_said_expected(text, said, alphabet, legal.next(), format);
    }
    let acceptances = legal.acceptances(alloc)?;
    put_said_offered(text, said, alphabet, &acceptances, format)
}

/// Appends the line of the entry that comes next in the history, at this place.
fn put_entry<A: Allocator + Copy>(
    text: &mut Vec<u8, A>,
    said: &mut Said<A>,
    legal: &LegalHistory<A>,
    alloc: A,
    place: u64,
    entry: &Entry,
    format: Format,
) -> Result<(), AllocError>
    requires said { IsSaid format legal.now.spec.alphabet said.old }
    requires place { place ≡ suc (length legal.now.entries) }
    ensures said { OnOk result (IsSaid format legal.now.spec.alphabet said.new) }
    ensures line { OnOk result ((line : List ℕ) × HasLine format legal.now.spec legal.now.entries entry.now line × (text.new.items ≡ text.old.items ++ line)) }
{
    put_head(text, place, entry.seat.get(), entry.number, format)?;
    put_report(text, legal.spec().alphabet(), &entry.report, format)?;
    put_finding(text, said, legal, alloc, entry, format)?;
    text.extend_from_slice(format.ending())
}

/// Appends the line of the entry that comes next in the history, if it gets one.
pub(crate) fn put_part<A: Allocator + Copy>(
    text: &mut Vec<u8, A>,
    said: &mut Said<A>,
    legal: &LegalHistory<A>,
    alloc: A,
    place: u64,
    entry: &Entry,
    options: Options,
) -> Result<(), AllocError>
    requires said { IsSaid options.format legal.now.spec.alphabet said.old }
    requires place { place ≡ suc (length legal.now.entries) }
    ensures said { OnOk result (IsSaid options.format legal.now.spec.alphabet said.new) }
    ensures part { OnOk result ((part : List ℕ) × ShowsEntry options legal.now.spec legal.now.entries entry.now part × (text.new.items ≡ text.old.items ++ part)) }
{
    if options.entries.has(entry.verdict) {
        put_entry(text, said, legal, alloc, place, entry, options.format)
    } else {
        Ok(())
    }
}

/// Memory was refused.
fn refused(_fault: AfterFault) -> AllocError
    requires { _fault ≡ AfterFault.Memory }
{
    AllocError
}

/// Makes the trace longer by the entry, if it is an accepted event. That meets no limit, since it met none when it was judged; so `AllocError`
/// comes alone, where memory is refused, and the trace stays then. Costs what judging the entry costs.
pub fn follow<A: Allocator + Copy>(
    monitor: &mut Monitor<A>,
    entry: &Entry,
) -> Result<(), AllocError>
    requires within { MeetsNone monitor.old.spec monitor.old.trace entry.now.report }
    requires verdict { IsTrue entry.now.verdict ↔ Verdict (bodies_of monitor.old.spec.bodies) monitor.old.trace entry.now.report }
    ensures spec { monitor.new.spec ≡ monitor.old.spec }
    ensures trace { (before : List entry_type) → monitor.old.trace ≡ events before → OnOk result (monitor.new.trace ≡ events (before ++ entry.now ∷ [])) }
{
    if !entry.verdict {
        return Ok(());
    }
    if let Report::Refusal(_) = entry.report {
        return Ok(());
    }
    match monitor.judge(&entry.report) {
        Ok(judged) => {
            monitor.commit(judged);
            monitor.forget();
            Ok(())
        }
        Err(fault) => Err(refused(fault)),
    }
}
