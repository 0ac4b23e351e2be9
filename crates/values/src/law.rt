//! A law of names. Its function does nothing: the contract is the law.
ghost use Rattle.std.specs.Prelude.{List};
ghost use Rattle.values.specs.Names.{Entry, IsReached, IsWithin, Stands, next_known};
ghost use Rattle.values.specs.Worths.{Known};

/// A table that has what it has after some number of steps, and to which a further step adds nothing, says what the
/// names mean.
pub fn steps_reach_all()
    ensures { (entries : List Entry) (table : Known) → IsReached entries table → IsWithin (next_known entries table) table → Stands entries table }
{}
