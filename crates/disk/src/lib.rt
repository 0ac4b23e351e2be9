//! A disk that holds one file, and a folder that holds files in order: what reads give, and what a crash may leave.
//!
//! Nothing here says what a real device does. An `impl` says by two flags of its ghost state what it claims: that
//! reads give the bytes that were written, and which files a crash may leave. A clause on the bytes stands under the
//! first flag, a clause on a crash under the second, and what is not claimed is not said.
#![tactic(auto)]

ghost use Rattle.std.specs.Prelude.{◌≡◌, ◌≤◌, ◌+◌, ◌^◌, length, take, drop, IsTrue, IfOk, OnOk, OnErr};
ghost use Rattle.disk.specs.State.{DiskState};
ghost use Rattle.disk.specs.Calls.{overwritten, Torn, CutShort, Follows, AddsNone, IsDurable, Elapses, Continues, HasCause};

mod count;
mod folder;

pub use count::Count;
pub use folder::Folder;

/// The device failed. What a failed write or cut has done to the file is left open.
#[derive(Clone, Copy, Debug, PartialEq, Eq)]
pub struct DiskFault;

/// One file on a device, read and written by place.
///
/// A write or a cut is on the device for certain once a later `sync` has answered `Ok`. Until then a crash may leave
/// any part of it. Each fault raises the disk's count of failures, and nothing else does.
pub trait Disk {
    /// What the disk shows of itself to proofs.
    ghost state: { Self → DiskState };

    /// How many bytes the file has.
    fn len(&mut self) -> Result<usize, DiskFault>
        ensures continues { Continues (state self.old) (state self.new) }
        ensures cause { HasCause (state self.old) (state self.new) result }
        ensures time { IsTrue (state self.old).claims_files → Elapses (state self.old) (state self.new) }
        ensures bytes { IsTrue (state self.old).claims_bytes → (state self.new).bytes ≡ (state self.old).bytes }
        ensures files { IsTrue (state self.old).claims_files → AddsNone (state self.old) (state self.new) }
        ensures value { IfOk result (λ n. IsTrue (state self.old).claims_bytes → n ≡ length (state self.old).bytes) };

    /// Fills as much of the buffer as the file has from that place on, and says how many bytes that is.
    fn read_at(&mut self, at: usize, buf: &mut [u8]) -> Result<usize, DiskFault>
        ensures continues { Continues (state self.old) (state self.new) }
        ensures cause { HasCause (state self.old) (state self.new) result }
        ensures time { IsTrue (state self.old).claims_files → Elapses (state self.old) (state self.new) }
        ensures bytes { IsTrue (state self.old).claims_bytes → (state self.new).bytes ≡ (state self.old).bytes }
        ensures files { IsTrue (state self.old).claims_files → AddsNone (state self.old) (state self.new) }
        ensures count { IfOk result (λ n. n ≤ length buf.old) }
        ensures value { IfOk result (λ n. IsTrue (state self.old).claims_bytes
            → take n buf.new ≡ take (length buf.old) (drop at (state self.old).bytes)) };

    /// Writes over what is there and past the end. A file has at most 2^63 bytes. A write that fails may have done any
    /// part of itself, also as the file then reads.
    fn write_at(&mut self, at: usize, bytes: &[u8]) -> Result<(), DiskFault>
        ensures continues { Continues (state self.old) (state self.new) }
        ensures cause { HasCause (state self.old) (state self.new) result }
        ensures time { IsTrue (state self.old).claims_files → Elapses (state self.old) (state self.new) }
        ensures room { OnOk result (at + length bytes.now ≤ 2 ^ 63) }
        ensures done { OnOk result (IsTrue (state self.old).claims_bytes → at ≤ length (state self.old).bytes
            → (state self.new).bytes ≡ overwritten at bytes.now (state self.old).bytes) }
        ensures part { OnErr result (IsTrue (state self.old).claims_bytes
            → Torn at (length bytes.now) (state self.old).bytes (state self.new).bytes) }
        ensures files { IsTrue (state self.old).claims_files
            → Follows (Torn at (length bytes.now)) (state self.old) (state self.new) };

    /// Cuts the file to a length. A cut that fails may have done any part of itself, also as the file then reads.
    fn cut(&mut self, len: usize) -> Result<(), DiskFault>
        ensures continues { Continues (state self.old) (state self.new) }
        ensures cause { HasCause (state self.old) (state self.new) result }
        ensures time { IsTrue (state self.old).claims_files → Elapses (state self.old) (state self.new) }
        ensures done { OnOk result (IsTrue (state self.old).claims_bytes → len ≤ length (state self.old).bytes
            → (state self.new).bytes ≡ take len (state self.old).bytes) }
        ensures part { OnErr result (IsTrue (state self.old).claims_bytes
            → CutShort len (state self.old).bytes (state self.new).bytes) }
        ensures files { IsTrue (state self.old).claims_files
            → Follows (CutShort len) (state self.old) (state self.new) };

    /// Puts all that was written and cut on the device: from its `Ok` on, a crash leaves what a read gives. A sync that
    /// fails adds no file to those that a crash may leave.
    fn sync(&mut self) -> Result<(), DiskFault>
        ensures continues { Continues (state self.old) (state self.new) }
        ensures cause { HasCause (state self.old) (state self.new) result }
        ensures time { IsTrue (state self.old).claims_files → Elapses (state self.old) (state self.new) }
        ensures bytes { IsTrue (state self.old).claims_bytes → (state self.new).bytes ≡ (state self.old).bytes }
        ensures files { IsTrue (state self.old).claims_files → AddsNone (state self.old) (state self.new) }
        ensures durable { OnOk result (IsTrue (state self.old).claims_bytes → IsTrue (state self.old).claims_files
            → IsDurable (state self.new)) };
}
