//! Laws of sets of states. Each function does nothing: its contract is the law.

ghost use Rattle.std.specs.Prelude.{◌≡◌, ◌↔◌, List};
ghost use Rattle.alphabet.specs.declared.events.Event.{Event};
ghost use Rattle.term.specs.Proc.{Proc};
ghost use Rattle.term.specs.Specs.{Specified};
ghost use Rattle.term.specs.declared.names.Names.TheVariants.{Steps};
ghost use Rattle.unfolding.specs.Kept.{unfolding_depth};
ghost use Rattle.tau_closures.specs.Belonging.{Belongs};
ghost use Rattle.tau_closures.specs.KeptBelonging.{KeptBelongs};

/// Where names stay names, a set belongs to a trace where its members are just what the trace reaches.
pub fn what_plain_sets_belong_to()
    ensures { (s : Specified) (members : List Proc) (u : List Event) → s.names ≡ Steps → KeptBelongs s (unfolding_depth s) members u ↔ Belongs s members u }
{}
