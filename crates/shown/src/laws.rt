//! Laws of what is shown. Each function does nothing: its contract is the law.

ghost use Rattle.std.specs.Prelude.{◌≡◌, ℕ, List};
ghost use Rattle.alphabet.specs.declared.events.Event.{Event};
ghost use Rattle.alphabet.specs.EventSets.{Set};
ghost use Rattle.term.specs.Proc.{Proc};
ghost use Rattle.term.specs.Specs.{Specified};
ghost use Rattle.history.specs.declared.entry.Entry.{Entry};
ghost use Rattle.history.specs.Acceptances.{AreAcceptances};
ghost use Rattle.shown.specs.declared.options.Options.{Options};
ghost use Rattle.shown.specs.Shows.{Shows};

/// A process has one list of minimal acceptances after a trace.
pub fn one_list_of_acceptances()
    ensures { (B : ℕ → Proc) (P : Proc) (u : List Event) (first second : List Set) → AreAcceptances B P u first → AreAcceptances B P u second → first ≡ second }
{}

/// A history has one text: what is shown of it follows from the specification, the history and what is asked for.
pub fn one_text()
    ensures { (options : Options) (spec : Specified) (h : List Entry) (first second : List ℕ) → Shows options spec h first → Shows options spec h second → first ≡ second }
{}
