// A file in memory that keeps its calls, and says what a crash at each moment may leave.
ghost use Rattle.std.specs.Prelude.{◌≡◌, ◌<◌, ◌≤◌, ◌+◌, ◌^◌, length, ◌++◌, [], ◌∷◌, List, ℕ, take, OnOk, OnErr, IfOk, vec_len, vec_capacity};
ghost use Rattle.disk.specs.Calls.{overwritten};
ghost use Rattle.memory_disks.specs.Replay.{Image, replay, start, of_calls, image_at, after_call, Reaches, Leaves};
ghost use Rattle.memory_disks.specs.Remains.{written_in, cut_in, remains, IsBoth};

use crate::bytes::{fill, overwrite};
use disk::{Count, Disk, DiskFault};
use std::alloc::{AllocError, Allocator};

/// A call that changed the file, or put it on the device.
#[derive(Drop)]
pub enum Call<A: Allocator> {
    Write(usize, Vec<u8, A>),
    Cut(usize),
    Sync,
}

/// How much of each write and cut that no sync has followed a crash leaves.
#[derive(Clone, Copy, Debug, PartialEq, Eq)]
pub enum Part {
    /// Nothing: all is as before the call.
    Nothing,
    /// All of it.
    Everything,
    /// The first byte of a write alone, or a cut that leaves one byte after it.
    FirstByte,
    /// The written range, or what stood after the cut, filled with `+`.
    Plus,
}

/// A file in memory that keeps its calls. It claims its bytes, and what a crash may leave: the file as it reads, or
/// what the last sync left with each later write and cut done in any part. A call that finds no memory is a fault and
/// does nothing.
#[derive(Drop)]
pub struct CrashDisk<A: Allocator> {
    alloc: A,
    first: Vec<u8, A>,
    bytes: Vec<u8, A>,
    calls: Vec<Call<A>, A>,
    failed: Count,
    ghost is: { bytes.items ≡ (replay (start first.items) calls.items).bytes },
}

// Adds a call, for which there is room.
fn note<A: Allocator>(calls: &mut Vec<Call<A>, A>, call: Call<A>)
    requires { vec_len calls.old < vec_capacity calls.old }
    ensures { calls.new.items ≡ calls.old.items ++ call ∷ [] }
{
    let _ = calls.push(call);
}

// Writes, and notes it.
fn add_write<A: Allocator + Clone>(
    alloc: &A,
    file: &mut Vec<u8, A>,
    calls: &mut Vec<Call<A>, A>,
    at: usize,
    bytes: &[u8],
) -> Result<(), DiskFault>
    ensures done { OnOk result (file.new.items ≡ overwritten at bytes.now file.old.items) }
    ensures noted { OnOk result ((v : _) × (v.items ≡ bytes.now) × (calls.new.items ≡ calls.old.items ++ Call.Write at v ∷ [])) }
    ensures room { OnOk result (at + length bytes.now ≤ 2 ^ 63) }
    ensures same { OnErr result (file.new.items ≡ file.old.items) }
    ensures same_calls { OnErr result (calls.new.items ≡ calls.old.items) }
{
    let Ok(own) = alloc.clone() else {
        return Err(DiskFault);
    };
    let Ok(copy) = bytes.to_vec(own) else {
        return Err(DiskFault);
    };
    if calls.reserve(1).is_err() {
        return Err(DiskFault);
    }
    match overwrite(file, at, bytes) {
        Ok(()) => {
            note(calls, Call::Write(at, copy));
            Ok(())
        }
        Err(fault) => Err(fault),
    }
}

// Writes over what is there and past the end.
fn put_over<A: Allocator>(file: &mut Vec<u8, A>, at: usize, bytes: &[u8]) -> Result<(), AllocError>
    ensures { OnOk result (file.new.items ≡ overwritten at bytes.now file.old.items) }
{
    match overwrite(file, at, bytes) {
        Ok(()) => Ok(()),
        Err(_) => Err(AllocError),
    }
}

// Does this part of a write.
fn write_part<A: Allocator + Clone>(
    alloc: &A,
    file: &mut Vec<u8, A>,
    at: usize,
    bytes: &[u8],
    part: Part,
) -> Result<(), AllocError>
    ensures { OnOk result (file.new.items ≡ written_in part at bytes.now file.old.items) }
{
    if at > file.len() {
        return Ok(());
    }
    match part {
        Part::Nothing => Ok(()),
        Part::Everything => put_over(file, at, bytes),
        Part::FirstByte => put_over(file, at, &bytes[..bytes.len().min(1)]),
        Part::Plus => {
            let plus = vec![in alloc.clone()?; b'+'; bytes.len()]?;
            put_over(file, at, &plus)
        }
    }
}

// Does this part of a cut.
fn cut_part<A: Allocator + Clone>(
    alloc: &A,
    file: &mut Vec<u8, A>,
    len: usize,
    part: Part,
) -> Result<(), AllocError>
    ensures { OnOk result (file.new.items ≡ cut_in part len file.old.items) }
{
    match part {
        Part::Nothing => Ok(()),
        Part::Everything => {
            file.truncate(len);
            Ok(())
        }
        Part::FirstByte => {
            file.truncate(len.saturating_add(1));
            Ok(())
        }
        Part::Plus => {
            let plus = vec![in alloc.clone()?; b'+'; file.len().saturating_sub(len)]?;
            file.truncate(len);
            file.extend_from_slice(&plus)?;
            Ok(())
        }
    }
}

// One call more: `written` is the file as it reads, `left` what this part of its unsynced calls leaves of it.
fn step<A: Allocator + Clone>(
    alloc: &A,
    written: &mut Vec<u8, A>,
    left: &mut Vec<u8, A>,
    call: &Call<A>,
    part: Part,
) -> Result<(), AllocError>
    ensures { OnOk result ((m : Image _) → IsBoth part m written.old.items left.old.items
        → IsBoth part (after_call m call.now) written.new.items left.new.items) }
{
    match call {
        Call::Write(at, bytes) => {
            put_over(written, *at, bytes)?;
            write_part(alloc, left, *at, bytes, part)?;
            Ok(())
        }
        Call::Cut(len) => {
            written.truncate(*len);
            cut_part(alloc, left, *len, part)?;
            Ok(())
        }
        Call::Sync => {
            left.truncate(0);
            left.extend_from_slice(written)?;
            Ok(())
        }
    }
}

impl<A: Allocator + Clone> CrashDisk<A> {
    ghost use Rattle.memory_disks.specs.Kept.{first_bytes, calls_of};

    /// A disk whose file has these bytes, all of them on the device.
    pub fn new(alloc: A, bytes: Vec<u8, A>) -> Result<CrashDisk<A>, AllocError>
        ensures first { IfOk result (λ d. first_bytes d ≡ bytes.items) }
        ensures calls { IfOk result (λ d. calls_of d ≡ []) }
    {
        let copy = bytes.to_vec(alloc.clone()?)?;
        let calls = Vec::new(alloc.clone()?);
        Ok(CrashDisk {
            alloc,
            first: bytes,
            bytes: copy,
            calls,
            failed: Count::new(),
        })
    }

    /// How many calls have changed the file or put it on the device.
    pub fn calls(&self) -> usize
        ensures { result ≡ length (calls_of self.now) }
    {
        self.calls.len()
    }

    /// A file that a crash may leave right after the first `count` calls: each write and cut that no sync among them
    /// follows is done in this part.
    pub fn left_after(&self, count: usize, part: Part) -> Result<Vec<u8, A>, AllocError>
        requires { count ≤ length (calls_of self.now) }
        ensures left { IfOk result (λ file. Leaves (image_at (first_bytes self.now) (calls_of self.now) count) file.items) }
        ensures part { IfOk result (λ file. let m = image_at (first_bytes self.now) (calls_of self.now) count in
            file.items ≡ remains part m.durable m.pending) }
    {
        let mut written = self.first.to_vec(self.alloc.clone()?)?;
        let mut left = self.first.to_vec(self.alloc.clone()?)?;
        let calls = &self.calls[..count];
        for call in calls {
            step(&self.alloc, &mut written, &mut left, call, part)?;
        }
        Ok(left)
    }
}

impl<A: Allocator + Clone> Disk for CrashDisk<A> {
    ghost state = { λ d. of_calls d.first.items d.calls.items d.failed.n };

    fn len(&mut self) -> Result<usize, DiskFault> {
        Ok(self.bytes.len())
    }

    fn read_at(&mut self, at: usize, buf: &mut [u8]) -> Result<usize, DiskFault> {
        Ok(fill(&self.bytes, at, buf))
    }

    fn write_at(&mut self, at: usize, bytes: &[u8]) -> Result<(), DiskFault> {
        match add_write(&self.alloc, &mut self.bytes, &mut self.calls, at, bytes) {
            Ok(()) => Ok(()),
            Err(fault) => {
                self.failed = Count::after(&self.failed);
                Err(fault)
            }
        }
    }

    fn cut(&mut self, len: usize) -> Result<(), DiskFault> {
        if self.calls.reserve(1).is_err() {
            self.failed = Count::after(&self.failed);
            return Err(DiskFault);
        }
        self.bytes.truncate(len);
        note(&mut self.calls, Call::Cut(len));
        Ok(())
    }

    fn sync(&mut self) -> Result<(), DiskFault> {
        if self.calls.reserve(1).is_err() {
            self.failed = Count::after(&self.failed);
            return Err(DiskFault);
        }
        note(&mut self.calls, Call::Sync);
        Ok(())
    }
}
