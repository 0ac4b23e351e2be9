//! How far a showing has come.

ghost use Rattle.std.specs.Prelude.{◌≡◌, ◌<◌, ◌++◌, [], ◌∷◌, IfOk, OnOk, OnErr, IsErrOf};
ghost use Rattle.history.specs.Legal.{IsJudged};
ghost use Rattle.shown.specs.declared.options.Options.{Options as options_type};
ghost use Rattle.shown.specs.Shows.{Sends, Shows};
ghost use Rattle.shown.specs.Steps.{IsAt, joined, written};

use crate::coverage::{Counts, count_entry, put_coverage};
use crate::entries::put_part;
use crate::error::ShowError;
use crate::options::Options;
use crate::said::Said;
use history::{Entry, LegalHistory};
use past::Past;
use std::alloc::{AllocError, Allocator};
use std::snapshot::Snapshot;
use term::Spec;
use wire::{Sink, SinkFault, send};

/// How many bytes come together before they are written.
const ENOUGH: usize = 65_536;

/// What is kept of the entries that were shown.
#[derive(Drop)]
pub(crate) struct Progress<A: Allocator> {
    /// The specification, which clauses alone read.
    pub(crate) spec: Snapshot<Spec<A>>,
    /// The entries, which clauses alone read.
    pub(crate) history: Past<Entry>,
    /// How many they are.
    pub(crate) shown: u64,
    pub(crate) said: Said<A>,
    pub(crate) counts: Counts<A>,
    /// What was written of their text, which clauses alone read.
    pub(crate) sent: Past<Vec<u8, A>>,
    /// What wasn't written of it yet.
    pub(crate) text: Vec<u8, A>,
}

/// Writes what has come together, and takes it away, where it is enough.
fn send_enough<A: Allocator, W: Sink>(
    text: &mut Vec<u8, A>,
    sent: &mut Past<Vec<u8, A>>,
    output: &mut W,
) -> Result<(), ShowError>
    ensures sends { OnOk result (Sends (W.contents output.old) (W.contents output.new) (joined sent.old.items) (joined sent.new.items)) }
    ensures same { OnOk result (joined sent.new.items ++ text.new.items ≡ joined sent.old.items ++ text.old.items) }
    ensures steady { OnOk result (W.failures output.new ≡ W.failures output.old) }
    ensures output_failed { OnErr result (W.failures output.old < W.failures output.new) }
{
    if text.len() < ENOUGH {
        return Ok(());
    }
    match send(output, text) {
        Ok(()) => {
            *sent = sent.and(text);
            text.clear();
            Ok(())
        }
        Err(SinkFault) => Err(ShowError::Output),
    }
}

impl<A: Allocator + Copy> Progress<A> {
    /// No entry was shown yet.
    pub(crate) fn new(alloc: A, spec: &Spec<A>) -> Result<Progress<A>, AllocError>
        ensures at { (options : options_type) → IfOk result (IsAt options spec.now) }
        ensures history { IfOk result (λ progress. progress.history.items ≡ []) }
        ensures written { IfOk result (λ progress. written progress ≡ []) }
    {
        let counts = Counts::new(alloc, spec.alphabet().len())?;
        Ok(Progress {
            spec: Snapshot::of(spec),
            history: Past::new(),
            shown: 0,
            said: Said::new(alloc),
            counts,
            sent: Past::new(),
            text: Vec::new(alloc),
        })
    }

    /// Appends what is shown of the entry that comes next in the history, and counts it.
    fn show(
        &mut self,
        alloc: A,
        legal: &LegalHistory<A>,
        entry: &Entry,
        options: Options,
    ) -> Result<(), AllocError>
        requires judged { IsJudged legal.now.spec (legal.now.entries ++ entry.now ∷ []) }
        requires at { IsAt options legal.now.spec self.old }
        requires history { self.old.history.items ≡ legal.now.entries }
        ensures at { OnOk result (IsAt options legal.now.spec self.new) }
        ensures history { OnOk result (self.new.history.items ≡ legal.now.entries ++ entry.now ∷ []) }
        ensures sent { self.new.sent ≡ self.old.sent }
    {
        let next = legal.next();
        put_part(
            &mut self.text,
            &mut self.said,
            legal,
            alloc,
            self.shown + 1,
            entry,
            options,
        )?;
        count_entry(&mut self.counts, entry, next, options.coverage);
        self.history = self.history.and(entry);
        self.shown += 1;
        Ok(())
    }

    /// Appends what is shown of the entry that comes next in the history, and counts it. What comes together is written now and then.
    pub(crate) fn see<W: Sink>(
        &mut self,
        alloc: A,
        legal: &LegalHistory<A>,
        entry: &Entry,
        options: Options,
        output: &mut W,
    ) -> Result<(), ShowError>
        requires judged { IsJudged legal.now.spec (legal.now.entries ++ entry.now ∷ []) }
        requires at { IsAt options legal.now.spec self.old }
        requires history { self.old.history.items ≡ legal.now.entries }
        ensures at { OnOk result (IsAt options legal.now.spec self.new) }
        ensures history { OnOk result (self.new.history.items ≡ legal.now.entries ++ entry.now ∷ []) }
        ensures sends { OnOk result (Sends (W.contents output.old) (W.contents output.new) (written self.old) (written self.new)) }
        ensures steady { OnOk result (W.failures output.new ≡ W.failures output.old) }
        ensures output_failed { IsErrOf result ShowError.Output → W.failures output.old < W.failures output.new }
    {
        self.show(alloc, legal, entry, options)?;
        send_enough(&mut self.text, &mut self.sent, output)
    }

    /// Appends the coverage, where it is wanted.
    fn put_end(&mut self, options: Options, spec: &Spec<A>) -> Result<(), AllocError>
        ensures { IsAt options spec.now self.old → OnOk result (Shows options spec.now self.old.history.items (written self.old ++ self.new.text.items)) }
    {
        if options.coverage {
            return put_coverage(
                &mut self.text,
                spec.alphabet(),
                &self.counts,
                options.format,
            );
        }
        Ok(())
    }

    /// What wasn't written yet of the text.
    fn into_text(self) -> Vec<u8, A>
        ensures { result ≡ self.text }
    {
        let Progress { text, .. } = self;
        text
    }

    /// What wasn't written yet of the text of the entries, with the coverage at its end where it is wanted.
    pub(crate) fn end(self, options: Options, spec: &Spec<A>) -> Result<Vec<u8, A>, AllocError>
        ensures text { IsAt options spec.now self → IfOk result (λ left. Shows options spec.now self.history.items (written self ++ left.items)) }
    {
        let mut progress = self;
        match progress.put_end(options, spec) {
            Ok(()) => Ok(progress.into_text()),
            Err(error) => {
                drop(progress);
                Err(error)
            }
        }
    }
}
