//! What comes of a row.

use crate::{crashes, faults, files, journals, scenes, shortage};
use file_disk::PlacedFile;
use rows::Output;
use std::alloc::Global;
use std::rt::Files;
use std::sync::Wait;

/// Appends what comes of a row.
pub(crate) fn play<T: Wait + Files + AllocGlobal>(
    rt: &T,
    alloc: Global,
    row: &str,
    out: &mut Output,
)
where
    T::File: PlacedFile,
{
    if !scenes::play(alloc, row, out)
        && !crashes::play(alloc, row, out)
        && !shortage::play(rt, alloc, row, out)
        && !journals::play(alloc, row, out)
        && !faults::play(row, out)
        && !files::play(rt, row, out)
    {
        out.put("no such kind of row");
    }
}
