//! That a monitor may go to another thread.

ghost use Rattle.monitor.specs.Crossings.{MonitorCrosses};

use crate::monitor::Monitor;
use spaces::{crosses, space_crosses};
use std::alloc::Global;

/// That a monitor may go to another thread.
pub fn monitor_crosses()
    ensures monitor { MonitorCrosses }
{
    space_crosses();
    crosses::<Monitor<Global>>();
}
