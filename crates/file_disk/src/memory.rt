// A file in memory, which keeps what is asked of a file.
ghost use Rattle.std.specs.Prelude.{◌≡◌, ◌<◌, ◌≤◌, ◌+◌, ◌∷◌, ◌++◌, [], length, vec_len, vec_capacity, OnOk, OnErr, IfOk};
ghost use Rattle.disk.specs.Calls.{overwritten};
ghost use Rattle.memory_disks.specs.Replay.{replay, start, of_calls};
ghost use Rattle.memory_disks.specs.declared.crash.Call.TheVariants.{Write};

use crate::placed::{FileFault, PlacedFile};
use memory_disks::Call;
use std::alloc::{AllocError, Allocator};

/// A file in memory that keeps its calls, and reads and writes no more than some number of bytes in one call. It claims its bytes, and what
/// a crash may leave: the file as it reads, or what the last sync left with each later write and cut done in any part. A call that finds
/// no memory, and a write that begins past the end, fails and does nothing.
#[derive(Drop)]
pub struct MemoryFile<A: Allocator> {
    alloc: A,
    first: Vec<u8, A>,
    bytes: Vec<u8, A>,
    calls: Vec<Call<A>, A>,
    most: usize,
    ghost is: { bytes.items ≡ (replay (start first.items) calls.items).bytes },
}

// Writes over what is there and past the end. Where the file can't grow, it stays as it was.
fn overwrite<A: Allocator>(file: &mut Vec<u8, A>, at: usize, bytes: &[u8]) -> Result<(), FileFault>
    ensures done { OnOk result (file.new.items ≡ overwritten at bytes.now file.old.items) }
    ensures same { OnErr result (file.new.items ≡ file.old.items) }
{
    if at > file.len() {
        return Err(FileFault::Failed);
    }
    let within = bytes.len().min(file.len() - at);
    if file.extend_from_slice(&bytes[within..]).is_err() {
        return Err(FileFault::Failed);
    }
    file[at..at + within].copy_from_slice(&bytes[..within]);
    Ok(())
}

// Adds a call, for which there is room.
fn note<A: Allocator>(calls: &mut Vec<Call<A>, A>, call: Call<A>)
    requires { vec_len calls.old < vec_capacity calls.old }
    ensures { calls.new.items ≡ calls.old.items ++ call ∷ [] }
{
    let _ = calls.push(call);
}

// Writes, and notes it.
fn add_write<A: Allocator + Clone>(
    alloc: &A,
    file: &mut Vec<u8, A>,
    calls: &mut Vec<Call<A>, A>,
    at: usize,
    bytes: &[u8],
) -> Result<(), FileFault>
    ensures done { OnOk result (file.new.items ≡ overwritten at bytes.now file.old.items) }
    ensures noted { OnOk result ((v : _) × (v.items ≡ bytes.now) × (calls.new.items ≡ calls.old.items ++ Write at v ∷ [])) }
    ensures same { OnErr result (file.new.items ≡ file.old.items) }
    ensures same_calls { OnErr result (calls.new.items ≡ calls.old.items) }
{
    let Ok(own) = alloc.clone() else {
        return Err(FileFault::Failed);
    };
    let Ok(copy) = bytes.to_vec(own) else {
        return Err(FileFault::Failed);
    };
    if calls.reserve(1).is_err() {
        return Err(FileFault::Failed);
    }
    match overwrite(file, at, bytes) {
        Ok(()) => {
            note(calls, Call::Write(at, copy));
            Ok(())
        }
        Err(_) => Err(FileFault::Failed),
    }
}

impl<A: Allocator + Clone> MemoryFile<A> {
    ghost use Rattle.file_disk.specs.Kept.{bytes_of, calls_of};

    /// A file with these bytes, all of them on the device, which reads and writes no more than so many bytes in one call, but at least one.
    pub fn new(alloc: A, bytes: Vec<u8, A>, most: usize) -> Result<MemoryFile<A>, AllocError>
        ensures bytes { IfOk result (λ f. bytes_of f ≡ bytes.items) }
        ensures calls { IfOk result (λ f. calls_of f ≡ []) }
    {
        let copy = bytes.to_vec(alloc.clone()?)?;
        let calls = Vec::new(alloc.clone()?);
        Ok(MemoryFile {
            alloc,
            first: bytes,
            bytes: copy,
            calls,
            most,
        })
    }

    /// The file's bytes.
    pub fn bytes(&self) -> &[u8]
        ensures { result.now ≡ bytes_of self.now }
    {
        &self.bytes
    }
}

impl<A: Allocator + Clone> PlacedFile for MemoryFile<A> {
    ghost state = { λ f. of_calls f.first.items f.calls.items 0 };

    fn size(&mut self) -> Result<usize, FileFault> {
        Ok(self.bytes.len())
    }

    fn read_some(&mut self, at: usize, buf: &mut [u8]) -> Result<usize, FileFault> {
        if at >= self.bytes.len() {
            return Ok(0);
        }
        let most = buf.len().min(self.bytes.len() - at);
        let count = most.min(self.most.max(1));
        buf[..count].copy_from_slice(&self.bytes[at..at + count]);
        Ok(count)
    }

    fn write_some(&mut self, at: usize, bytes: &[u8]) -> Result<usize, FileFault> {
        let count = bytes.len().min(self.most.max(1));
        let some = &bytes[..count];
        match add_write(&self.alloc, &mut self.bytes, &mut self.calls, at, some) {
            Ok(()) => Ok(count),
            Err(_) => Err(FileFault::Failed),
        }
    }

    fn resize(&mut self, len: usize) -> Result<(), FileFault> {
        if self.calls.reserve(1).is_err() {
            return Err(FileFault::Failed);
        }
        self.bytes.truncate(len);
        note(&mut self.calls, Call::Cut(len));
        Ok(())
    }

    fn sync(&mut self) -> Result<(), FileFault> {
        if self.calls.reserve(1).is_err() {
            return Err(FileFault::Failed);
        }
        note(&mut self.calls, Call::Sync);
        Ok(())
    }
}
