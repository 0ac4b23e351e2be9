//! An allocator that refuses one request.

use rows::{Output, Refusing, first_word, number_of};
use std::alloc::Global;

/// Appends whether a request has been refused.
fn put_state(refusing: &Refusing<Global>, out: &mut Output) {
    out.put(if refusing.has_refused() {
        "refused"
    } else {
        "none refused"
    });
}

/// Appends what three requests come to, of which the one with the row's number is refused, where the row is of this kind.
pub(crate) fn play(alloc: Global, row: &str, out: &mut Output) -> bool {
    let (kind, rest) = first_word(row);
    if kind != "requests" {
        return false;
    }
    let refusing = Refusing::new(alloc, number_of(rest));
    put_state(&refusing, out);
    for _ in 0..3 {
        let is_granted = Box::new(&refusing, 1u8).is_ok();
        out.put(if is_granted {
            "; granted, "
        } else {
            "; denied, "
        });
        put_state(&refusing, out);
    }
    true
}
