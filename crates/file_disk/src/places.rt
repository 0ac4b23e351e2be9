// A file, read and written by place.
ghost use Rattle.std.specs.Prelude.{◌≡◌, ◌≤◌, ◌+◌, ◌^◌, length, take, drop, IsTrue, IfOk, OnOk, OnErr};
ghost use Rattle.disk.specs.Calls.{overwritten, Torn, CutShort, Follows, AddsNone, IsDurable, Elapses, Continues};

use crate::placed::{FileFault, PlacedFile};
use disk::DiskFault;

/// The most bytes of a file.
const LONGEST: usize = 1 << 63;

/// The length of the file.
pub(crate) fn length_of<F: PlacedFile>(file: &mut F) -> Result<usize, DiskFault>
    ensures continues { Continues (F.state file.old) (F.state file.new) }
    ensures time { IsTrue (F.state file.old).claims_files → Elapses (F.state file.old) (F.state file.new) }
    ensures bytes { IsTrue (F.state file.old).claims_bytes → (F.state file.new).bytes ≡ (F.state file.old).bytes }
    ensures files { IsTrue (F.state file.old).claims_files → AddsNone (F.state file.old) (F.state file.new) }
    ensures value { IfOk result (λ n. IsTrue (F.state file.old).claims_bytes → n ≡ length (F.state file.old).bytes) }
{
    match file.size() {
        Ok(len) => Ok(len),
        Err(_) => Err(DiskFault),
    }
}

/// Fills as much of the buffer as the file has from this place on, and says how many bytes that is. A read that is interrupted is made
/// again; any other one that fails ends it.
pub fn fill<F: PlacedFile>(file: &mut F, at: usize, buf: &mut [u8]) -> Result<usize, DiskFault>
    ensures continues { Continues (F.state file.old) (F.state file.new) }
    ensures time { IsTrue (F.state file.old).claims_files → Elapses (F.state file.old) (F.state file.new) }
    ensures bytes { IsTrue (F.state file.old).claims_bytes → (F.state file.new).bytes ≡ (F.state file.old).bytes }
    ensures files { IsTrue (F.state file.old).claims_files → AddsNone (F.state file.old) (F.state file.new) }
    ensures count { IfOk result (λ n. n ≤ length buf.old) }
    ensures value { IfOk result (λ n. IsTrue (F.state file.old).claims_bytes
        → take n buf.new ≡ take (length buf.old) (drop at (F.state file.old).bytes)) }
{
    let mut done = 0;
    for _ in 0..u64::MAX {
        if done == buf.len() {
            return Ok(done);
        }
        let Some(place) = at.checked_add(done) else {
            return Err(DiskFault);
        };
        match file.read_some(place, &mut buf[done..]) {
            Ok(0) => return Ok(done),
            Ok(count) => done += count,
            Err(FileFault::Interrupted) => {}
            Err(FileFault::Failed) => return Err(DiskFault),
        }
    }
    Err(DiskFault)
}

// Writes all bytes at this place, of which none is past the longest file.
fn put<F: PlacedFile>(file: &mut F, at: usize, bytes: &[u8]) -> Result<(), DiskFault>
    requires { at + length bytes.now ≤ 2 ^ 63 }
    ensures continues { Continues (F.state file.old) (F.state file.new) }
    ensures time { IsTrue (F.state file.old).claims_files → Elapses (F.state file.old) (F.state file.new) }
    ensures done { OnOk result (IsTrue (F.state file.old).claims_bytes → at ≤ length (F.state file.old).bytes
        → (F.state file.new).bytes ≡ overwritten at bytes.now (F.state file.old).bytes) }
    ensures part { OnErr result (IsTrue (F.state file.old).claims_bytes
        → Torn at (length bytes.now) (F.state file.old).bytes (F.state file.new).bytes) }
    ensures files { IsTrue (F.state file.old).claims_files
        → Follows (Torn at (length bytes.now)) (F.state file.old) (F.state file.new) }
{
    let mut done = 0;
    for _ in 0..u64::MAX {
        if done == bytes.len() {
            return Ok(());
        }
        match file.write_some(at + done, &bytes[done..]) {
            Ok(0) => return Err(DiskFault),
            Ok(count) => done += count,
            Err(FileFault::Interrupted) => {}
            Err(FileFault::Failed) => return Err(DiskFault),
        }
    }
    Err(DiskFault)
}

/// Writes all bytes at this place.
pub(crate) fn write<F: PlacedFile>(file: &mut F, at: usize, bytes: &[u8]) -> Result<(), DiskFault>
    ensures continues { Continues (F.state file.old) (F.state file.new) }
    ensures time { IsTrue (F.state file.old).claims_files → Elapses (F.state file.old) (F.state file.new) }
    ensures room { OnOk result (at + length bytes.now ≤ 2 ^ 63) }
    ensures done { OnOk result (IsTrue (F.state file.old).claims_bytes → at ≤ length (F.state file.old).bytes
        → (F.state file.new).bytes ≡ overwritten at bytes.now (F.state file.old).bytes) }
    ensures part { OnErr result (IsTrue (F.state file.old).claims_bytes
        → Torn at (length bytes.now) (F.state file.old).bytes (F.state file.new).bytes) }
    ensures files { IsTrue (F.state file.old).claims_files
        → Follows (Torn at (length bytes.now)) (F.state file.old) (F.state file.new) }
{
    if at > LONGEST || bytes.len() > LONGEST - at {
        return Err(DiskFault);
    }
    put(file, at, bytes)
}

/// Cuts the file to this length.
pub(crate) fn cut<F: PlacedFile>(file: &mut F, len: usize) -> Result<(), DiskFault>
    ensures continues { Continues (F.state file.old) (F.state file.new) }
    ensures time { IsTrue (F.state file.old).claims_files → Elapses (F.state file.old) (F.state file.new) }
    ensures done { OnOk result (IsTrue (F.state file.old).claims_bytes → len ≤ length (F.state file.old).bytes
        → (F.state file.new).bytes ≡ take len (F.state file.old).bytes) }
    ensures part { OnErr result (IsTrue (F.state file.old).claims_bytes
        → CutShort len (F.state file.old).bytes (F.state file.new).bytes) }
    ensures files { IsTrue (F.state file.old).claims_files → Follows (CutShort len) (F.state file.old) (F.state file.new) }
{
    match file.resize(len) {
        Ok(()) => Ok(()),
        Err(_) => Err(DiskFault),
    }
}

/// Puts all that was written and cut on the device.
pub(crate) fn sync<F: PlacedFile>(file: &mut F) -> Result<(), DiskFault>
    ensures continues { Continues (F.state file.old) (F.state file.new) }
    ensures time { IsTrue (F.state file.old).claims_files → Elapses (F.state file.old) (F.state file.new) }
    ensures bytes { IsTrue (F.state file.old).claims_bytes → (F.state file.new).bytes ≡ (F.state file.old).bytes }
    ensures files { IsTrue (F.state file.old).claims_files → AddsNone (F.state file.old) (F.state file.new) }
    ensures durable { OnOk result (IsTrue (F.state file.old).claims_bytes → IsTrue (F.state file.old).claims_files
        → IsDurable (F.state file.new)) }
{
    if file.sync().is_err() {
        return Err(DiskFault);
    }
    Ok(())
}
