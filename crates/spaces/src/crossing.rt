//! That a space may go to another thread.
//!
//! The search for a proof that a type may cross looks into all of its parts. Here it is done part by part, once for all who share a
//! session between threads.

ghost use Rattle.std.specs.Thread.{IsSend};
ghost use Rattle.spaces.specs.Crossings.{SetsCross, SpaceCrosses, StatesCross, TableCrosses, TransitionsCross};

use crate::found::FoundSets;
use crate::space::{Answers, Space};
use std::alloc::Global;
use tau_closures::{States, Table, Transitions};
use term::Spec;

/// That a type may go to another thread.
pub fn crosses<T: Send>()
    ensures { IsSend T.row }
{}

// That a table of nodes may.
fn table_crosses()
    ensures table { TableCrosses }
{
    crosses::<Table<Global>>();
}

// That a table's steps may.
fn transitions_cross()
    ensures transitions { TransitionsCross }
{
    table_crosses();
    crosses::<Transitions<Global>>();
}

// That these with what processes are kept as may.
fn states_cross()
    ensures states { StatesCross }
{
    transitions_cross();
    crosses::<States<Global>>();
}

// That the sets of states found for a specification may.
fn sets_cross()
    ensures sets { SetsCross }
{
    states_cross();
    crosses::<Spec<Global>>();
    crosses::<FoundSets<Global>>();
}

/// That these sets with the answers that are remembered may.
pub fn space_crosses()
    ensures space { SpaceCrosses }
{
    sets_cross();
    crosses::<Answers<Global>>();
    crosses::<Space<Global>>();
}
