//! Values: numbers and constants.
ghost use Rattle.std.proofs.Common.{rules};
ghost use Rattle.std.specs.Prelude.{◌≡◌};
ghost use Rattle.std.specs.Cmp.{on_total, eq_by_cmp_equiv, partial_order_from_total, partial_equiv_from_equiv};
ghost use Rattle.std.specs.Cmp.Rules.{comparing};
ghost use Rattle.std.specs.Ordering.{on, as_partial_cmp, eq_by_cmp};
ghost use Rattle.values.specs.Values.{value_cmp};
ghost use Rattle.values.specs.View.{value};
ghost use Rattle.values.specs.Order.{value_total};

use std::alloc::{AllocError, Allocator};
use std::cmp::Ordering;

/// A number, or a constant by the bytes of its name. Numbers come first, by size, then constants by their bytes.
#[derive(Drop)]
pub enum Value<A: Allocator> {
    Number(i64),
    Constant(Vec<u8, A>),
}

impl<A: Allocator> PartialEq for Value<A> {
    ghost eq = { eq_by_cmp (on value value_cmp) };

    ghost laws = { partial_equiv_from_equiv (eq_by_cmp_equiv (on_total value value_total)) };

    fn eq(&self, other: &Value<A>) -> bool {
        self.cmp(other).is_eq()
    }
}

impl<A: Allocator> Eq for Value<A> {
    ghost laws = { eq_by_cmp_equiv (on_total value value_total) };
}

impl<A: Allocator> PartialOrd for Value<A> {
    ghost partial_cmp = { as_partial_cmp (on value value_cmp) };

    ghost laws = { partial_order_from_total (on_total value value_total) };

    fn partial_cmp(&self, other: &Value<A>) -> Option<Ordering> {
        Some(self.cmp(other))
    }
}

impl<A: Allocator> Ord for Value<A> {
    ghost cmp = { on value value_cmp };

    ghost total = { on_total value value_total };

    ghost matches_partial_cmp = { Prim.search (comparing, rules) };

    ghost matches_eq = { Prim.search (comparing, rules) };

    fn cmp(&self, other: &Value<A>) -> Ordering {
        match (self, other) {
            (Value::Number(first), Value::Number(second)) => first.cmp(second),
            (Value::Number(_), Value::Constant(_)) => Ordering::Less,
            (Value::Constant(_), Value::Number(_)) => Ordering::Greater,
            (Value::Constant(first), Value::Constant(second)) => {
                first.as_slice().cmp(second.as_slice())
            }
        }
    }
}

impl<A: Allocator + Clone> Clone for Value<A> {
    ghost is_clone = { λ v copy. value copy ≡ value v };

    fn clone(&self) -> Result<Value<A>, AllocError> {
        match self {
            Value::Number(number) => Ok(Value::Number(*number)),
            Value::Constant(name) => Ok(Value::Constant(name.clone()?)),
        }
    }
}
