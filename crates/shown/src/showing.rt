//! Showings, which look on while a history is judged.

ghost use Rattle.std.specs.Prelude.{◌≡◌, ◌⊎◌, ◌<◌, ◌++◌, [], ◌∷◌, Err, List, None, Some, is_some, IfErr, IfOk, IsErrOf, IsSome, OnOk};
ghost use Rattle.term.specs.Specs.{Specified};
ghost use Rattle.history.specs.declared.entry.Entry.{Entry as entry_type};
ghost use Rattle.history.specs.Legal.{IsJudged};
ghost use Rattle.shown.specs.declared.error.ShowError.{ShowError as error_type};
ghost use Rattle.shown.specs.declared.options.Options.{Options as options_type};
ghost use Rattle.shown.specs.Shows.{Sends, Shows, Writes};
ghost use Rattle.shown.specs.Showings.{HasShown};
ghost use Rattle.shown.specs.Steps.{IsAtWhereBegun, history_in, written_in};

use crate::error::ShowError;
use crate::options::Options;
use crate::progress::Progress;
use history::{Entry, LegalHistory, Onlooker};
use std::alloc::{AllocError, Allocator};
use std::marker::Model;
use std::snapshot::Snapshot;
use term::Spec;
use wire::Sink;

/// A showing: it looks on while a history is judged, and writes the text of its entries but for an end. It keeps no entries, so what it takes
/// doesn't grow with them.
#[derive(Drop)]
pub struct Showing<A: Allocator, W> {
    alloc: A,
    options: Options,
    /// What was shown, once there was an entry: the specification isn't known before.
    progress: Option<Progress<A>>,
    /// The output as it was when the showing began, which clauses alone read.
    began: Snapshot<W>,
    /// Why an entry wasn't shown. No further one is then.
    fault: Option<ShowError>,
}

impl<A: Allocator, W> Model for Showing<A, W> {
    ghost use Rattle.shown.specs.Showings.{Begun, begun_code};

    ghost Value = { Begun W };

    ghost coded = { begun_code W.code };

    ghost use Rattle.std.specs.Prelude.{◌≡◌, None};
    ghost use Rattle.shown.specs.Steps.{IsSound, history_in, spec_in, written_in};

    ghost view = { λ s. record {
      options = s.options;
      spec = spec_in s.progress;
      history = history_in s.progress;
      written = written_in s.progress;
      began = s.began.value;
      fault = s.fault;
    } };

    ghost invariant = { λ s. s.fault ≡ None → IsSound s.options s.progress };
}

/// Makes what is kept of entries, of none, where that wasn't made before.
fn begin<A: Allocator + Copy>(
    progress: &mut Option<Progress<A>>,
    alloc: A,
    spec: &Spec<A>,
) -> Result<(), AllocError>
    ensures at { (options : options_type) → IsAtWhereBegun options spec.now progress.old → OnOk result (IsAtWhereBegun options spec.now progress.new) }
    ensures history { OnOk result (history_in progress.new ≡ history_in progress.old) }
    ensures written { OnOk result (written_in progress.new ≡ written_in progress.old) }
    ensures some { OnOk result (IsSome progress.new) }
{
    if progress.is_none() {
        let first = Progress::new(alloc, spec)?;
        drop(progress.replace(first));
    }
    Ok(())
}

/// Shows the entry that comes next in the history.
fn go_on<A: Allocator + Copy, W: Sink>(
    progress: &mut Option<Progress<A>>,
    alloc: A,
    legal: &LegalHistory<A>,
    entry: &Entry,
    options: Options,
    output: &mut W,
) -> Result<(), ShowError>
    requires judged { IsJudged legal.now.spec (legal.now.entries ++ entry.now ∷ []) }
    requires at { IsAtWhereBegun options legal.now.spec progress.old }
    requires history { history_in progress.old ≡ legal.now.entries }
    ensures at { OnOk result (IsAtWhereBegun options legal.now.spec progress.new) }
    ensures history { OnOk result (history_in progress.new ≡ legal.now.entries ++ entry.now ∷ []) }
    ensures sends { OnOk result (Sends (W.contents output.old) (W.contents output.new) (written_in progress.old) (written_in progress.new)) }
    ensures steady { OnOk result (W.failures output.new ≡ W.failures output.old) }
    ensures output_failed { IsErrOf result ShowError.Output → W.failures output.old < W.failures output.new }
{
    begin(progress, alloc, legal.spec())?;
    let Some(known) = progress else {
        unreachable!()
    };
    known.see(alloc, legal, entry, options, output)
}

/// What isn't written yet of the text of the entries that were shown, with the coverage at its end where it is wanted.
fn left_of<A: Allocator + Copy>(
    progress: Option<Progress<A>>,
    alloc: A,
    options: Options,
    spec: &Spec<A>,
) -> Result<Vec<u8, A>, AllocError>
    ensures { IsAtWhereBegun options spec.now progress → IfOk result (λ left. Shows options spec.now (history_in progress) (written_in progress ++ left.items)) }
{
    match progress {
        Some(known) => known.end(options, spec),
        None => Progress::new(alloc, spec)?.end(options, spec),
    }
}

impl<A: Allocator + Copy, W: Sink> Showing<A, W> {
    /// A showing on this output, before any entry. Takes no memory.
    pub fn new(alloc: A, options: Options, output: &W) -> Showing<A, W>
        ensures options { result.options ≡ options }
        ensures began { result.began ≡ output.now }
        ensures seen { (spec : Specified) → HasShown W.contents W.failures result output.now spec [] }
    {
        Showing {
            alloc,
            options,
            progress: None,
            began: Snapshot::of(output),
            fault: None,
        }
    }

    /// What isn't written yet of the text of the entries that were seen, with the coverage at its end where it is wanted. The error is that of an
    /// entry that wasn't shown, or `Memory`.
    pub fn end(self, spec: &Spec<A>) -> Result<Vec<u8, A>, ShowError>
        // With what was written it is the text of the whole history.
        ensures text { (w : W) (h : List entry_type) → HasShown W.contents W.failures self w spec.now h
            → IfOk result (λ left. Writes self.options spec.now h (W.contents self.began) (W.contents w) left.items) }
        ensures sound { OnOk result (self.fault ≡ None) }
        ensures failed { IfErr result (λ error. (error ≡ ShowError.Memory) ⊎ (self.fault ≡ Some error)) }

        // What kept an entry from being shown is the error.
        ensures fault { (error : error_type) → self.fault ≡ Some error → result ≡ Err error }
    {
        let Showing {
            alloc,
            options,
            progress,
            began: _,
            fault,
        } = self;
        match fault {
            Some(error) => {
                drop(progress);
                Err(error)
            }
            None => Ok(left_of(progress, alloc, options, spec)?),
        }
    }
}

impl<A: Allocator + Copy, W: Sink> Onlooker<A, W> for Showing<A, W> {
    ghost has_seen = { HasShown W.contents W.failures };

    ghost kept = { λ first later. (later.options ≡ first.options) × (later.began ≡ first.began) };

    ghost is_over = { λ s. is_some s.fault };

    /// Shows the entry; what comes together is written now and then. Nothing but refused memory and a failing output keeps it from being shown;
    /// a part of the text may have been written then, but nothing of a text below 64 KiB. No further entry is shown after one that wasn't.
    ///
    /// Costs what its line takes; with coverage, a step for each binary digit that the entry changes of the counts of what could come, for all
    /// events together; and for a rejected refusal its acceptances. It keeps 64 KiB of the text and a line; beside that, what was said of rejected
    /// reports, as long as that is less than 16 MiB.
    fn see(&mut self, legal: &LegalHistory<A>, entry: &Entry, output: &mut W) {
        if self.fault.is_some() {
            return;
        }
        let seen = go_on(
            &mut self.progress,
            self.alloc,
            legal,
            entry,
            self.options,
            output,
        );
        self.fault = seen.err();
    }

    fn is_over(&self) -> bool {
        self.fault.is_some()
    }
}
