// A folder of files.
ghost use Rattle.std.specs.Prelude.{◌≡◌, ◌⊎◌, ◌≤◌, ◌+◌, ◌^◌, [], ◌∷◌, ◌++◌, List, ℕ, get_or, length, take, drop, IsTrue, IfOk, OnOk, OnErr};
ghost use Rattle.disk.specs.State.{FolderState};
ghost use Rattle.disk.specs.Calls.{overwritten, Torn, CutShort, Follows, AddsNone, IsDurable, Elapses, Continues, HasCause, OnLast, BegunIn};

use crate::DiskFault;

/// A folder on a device, which holds files in order, counted from 0. Each is read by place; the last one is also written and cut, and a
/// further one is begun after it.
///
/// What was written, cut or begun is on the device for certain once a later `sync` has answered `Ok`. Until then a crash may leave any
/// part of it. Each fault raises the folder's count of failures, and nothing else does.
pub trait Folder {
    /// What the folder shows of itself to proofs.
    ghost state: { Self → FolderState };

    /// How many files there are.
    fn count(&mut self) -> Result<usize, DiskFault>
        ensures continues { Continues (state self.old) (state self.new) }
        ensures cause { HasCause (state self.old) (state self.new) result }
        ensures time { IsTrue (state self.old).claims_files → Elapses (state self.old) (state self.new) }
        ensures bytes { IsTrue (state self.old).claims_bytes → (state self.new).bytes ≡ (state self.old).bytes }
        ensures files { IsTrue (state self.old).claims_files → AddsNone (state self.old) (state self.new) }
        ensures value { IfOk result (λ n. IsTrue (state self.old).claims_bytes → n ≡ length (state self.old).bytes) };

    /// How many bytes this file has; 0 where there is none of this number.
    fn len(&mut self, file: usize) -> Result<usize, DiskFault>
        ensures continues { Continues (state self.old) (state self.new) }
        ensures cause { HasCause (state self.old) (state self.new) result }
        ensures time { IsTrue (state self.old).claims_files → Elapses (state self.old) (state self.new) }
        ensures bytes { IsTrue (state self.old).claims_bytes → (state self.new).bytes ≡ (state self.old).bytes }
        ensures files { IsTrue (state self.old).claims_files → AddsNone (state self.old) (state self.new) }
        ensures value { IfOk result (λ n. IsTrue (state self.old).claims_bytes → n ≡ length (get_or (state self.old).bytes file [])) };

    /// Fills as much of the buffer as this file has from that place on, and says how many bytes that is.
    fn read_at(&mut self, file: usize, at: usize, buf: &mut [u8]) -> Result<usize, DiskFault>
        ensures continues { Continues (state self.old) (state self.new) }
        ensures cause { HasCause (state self.old) (state self.new) result }
        ensures time { IsTrue (state self.old).claims_files → Elapses (state self.old) (state self.new) }
        ensures bytes { IsTrue (state self.old).claims_bytes → (state self.new).bytes ≡ (state self.old).bytes }
        ensures files { IsTrue (state self.old).claims_files → AddsNone (state self.old) (state self.new) }
        ensures count { IfOk result (λ n. n ≤ length buf.old) }
        ensures value { IfOk result (λ n. IsTrue (state self.old).claims_bytes
            → take n buf.new ≡ take (length buf.old) (drop at (get_or (state self.old).bytes file []))) };

    /// Writes over what is there in the last file, and past its end. A file has at most 2^63 bytes. Where there is no file, it is a fault. A
    /// write that fails may have done any part of itself, also as the file then reads.
    fn write_at(&mut self, at: usize, bytes: &[u8]) -> Result<(), DiskFault>
        ensures continues { Continues (state self.old) (state self.new) }
        ensures cause { HasCause (state self.old) (state self.new) result }
        ensures time { IsTrue (state self.old).claims_files → Elapses (state self.old) (state self.new) }
        ensures room { OnOk result (at + length bytes.now ≤ 2 ^ 63) }
        ensures done { OnOk result (IsTrue (state self.old).claims_bytes → (earlier : List (List ℕ)) (last : List ℕ)
            → (state self.old).bytes ≡ earlier ++ last ∷ [] → at ≤ length last
            → (state self.new).bytes ≡ earlier ++ overwritten at bytes.now last ∷ []) }
        ensures part { OnErr result (IsTrue (state self.old).claims_bytes → ((state self.new).bytes ≡ (state self.old).bytes)
            ⊎ OnLast (Torn at (length bytes.now)) (state self.old).bytes (state self.new).bytes) }
        ensures files { IsTrue (state self.old).claims_files → Follows (λ d c. (c ≡ d) ⊎ OnLast (Torn at (length bytes.now)) d c)
            (state self.old) (state self.new) };

    /// Cuts the last file to a length. Where there is no file, it is a fault. A cut that fails may have done any part of itself, also as
    /// the file then reads.
    fn cut(&mut self, len: usize) -> Result<(), DiskFault>
        ensures continues { Continues (state self.old) (state self.new) }
        ensures cause { HasCause (state self.old) (state self.new) result }
        ensures time { IsTrue (state self.old).claims_files → Elapses (state self.old) (state self.new) }
        ensures done { OnOk result (IsTrue (state self.old).claims_bytes → (earlier : List (List ℕ)) (last : List ℕ)
            → (state self.old).bytes ≡ earlier ++ last ∷ [] → len ≤ length last
            → (state self.new).bytes ≡ earlier ++ take len last ∷ []) }
        ensures part { OnErr result (IsTrue (state self.old).claims_bytes → ((state self.new).bytes ≡ (state self.old).bytes)
            ⊎ OnLast (CutShort len) (state self.old).bytes (state self.new).bytes) }
        ensures files { IsTrue (state self.old).claims_files → Follows (λ d c. (c ≡ d) ⊎ OnLast (CutShort len) d c)
            (state self.old) (state self.new) };

    /// Begins a file with these bytes after the first `kept` ones, in place of all others. Until a later `sync`, a crash leaves the files as
    /// they were, the first ones alone, or with a file after them that has a beginning of these bytes; so also where it fails.
    fn begin(&mut self, kept: usize, bytes: &[u8]) -> Result<(), DiskFault>
        ensures continues { Continues (state self.old) (state self.new) }
        ensures cause { HasCause (state self.old) (state self.new) result }
        ensures time { IsTrue (state self.old).claims_files → Elapses (state self.old) (state self.new) }
        ensures room { OnOk result (length bytes.now ≤ 2 ^ 63) }
        ensures done { OnOk result (IsTrue (state self.old).claims_bytes → kept ≤ length (state self.old).bytes
            → (state self.new).bytes ≡ take kept (state self.old).bytes ++ bytes.now ∷ []) }
        ensures part { OnErr result (IsTrue (state self.old).claims_bytes → BegunIn kept bytes.now (state self.old).bytes (state self.new).bytes) }
        ensures files { IsTrue (state self.old).claims_files → Follows (BegunIn kept bytes.now) (state self.old) (state self.new) };

    /// Puts all that was written, cut and begun on the device, with the files' names: from its `Ok` on, a crash leaves what reads give. A
    /// sync that fails adds nothing to what a crash may leave.
    fn sync(&mut self) -> Result<(), DiskFault>
        ensures continues { Continues (state self.old) (state self.new) }
        ensures cause { HasCause (state self.old) (state self.new) result }
        ensures time { IsTrue (state self.old).claims_files → Elapses (state self.old) (state self.new) }
        ensures bytes { IsTrue (state self.old).claims_bytes → (state self.new).bytes ≡ (state self.old).bytes }
        ensures files { IsTrue (state self.old).claims_files → AddsNone (state self.old) (state self.new) }
        ensures durable { OnOk result (IsTrue (state self.old).claims_bytes → IsTrue (state self.old).claims_files
            → IsDurable (state self.new)) };
}
