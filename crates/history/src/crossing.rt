//! That a legal history may go to another thread.

ghost use Rattle.history.specs.Crossings.{LegalCrosses};

use crate::legal::LegalHistory;
use monitor::{crosses, monitor_crosses};
use std::alloc::Global;

/// That a legal history may go to another thread, with all that its monitor remembers.
pub fn legal_crosses()
    ensures legal { LegalCrosses }
{
    monitor_crosses();
    crosses::<LegalHistory<Global>>();
}
