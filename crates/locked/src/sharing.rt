//! What a session is about that is shared.

use board::Naming;
use std::marker::Brand;

/// What one shared session is about: beside what its board is, the session as it was when it began to be shared. Where that isn't told, nothing is
/// said of it.
///
/// The member is picked where the function that shares the session is called.
pub trait Sharing<J>: Naming {
    ghost use Rattle.std.specs.Prelude.{Option};
    ghost use Rattle.session.specs.View.{SessionView};

    ghost before: { Option (SessionView J) };
}

impl<J> Sharing<J> for Brand {
    ghost use Rattle.std.specs.Prelude.{None};

    ghost before = { None };
}
