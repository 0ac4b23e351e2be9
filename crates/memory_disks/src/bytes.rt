// Reads and writes of a file that is a list of bytes.
ghost use Rattle.std.specs.Prelude.{◌≡◌, ◌≤◌, ◌+◌, ◌^◌, length, take, drop, OnOk, OnErr};
ghost use Rattle.disk.specs.Calls.{overwritten};

use disk::DiskFault;
use std::alloc::Allocator;

/// Writes over what is there and past the end. Where the file can't grow, it stays as it was.
pub(crate) fn overwrite<A: Allocator>(
    file: &mut Vec<u8, A>,
    at: usize,
    bytes: &[u8],
) -> Result<(), DiskFault>
    ensures done { OnOk result (file.new.items ≡ overwritten at bytes.now file.old.items) }
    ensures room { OnOk result (at + length bytes.now ≤ 2 ^ 63) }
    ensures same { OnErr result (file.new.items ≡ file.old.items) }
{
    if at > file.len() {
        return Err(DiskFault);
    }
    let within = bytes.len().min(file.len() - at);
    if file.extend_from_slice(&bytes[within..]).is_err() {
        return Err(DiskFault);
    }
    file[at..at + within].copy_from_slice(&bytes[..within]);
    let _len = file.len();
    Ok(())
}

/// Fills as much of the buffer as the file has from that place on, and says how many bytes that is.
pub(crate) fn fill(file: &[u8], at: usize, buf: &mut [u8]) -> usize
    ensures count { result ≤ length buf.old }
    ensures value { take result buf.new ≡ take (length buf.old) (drop at file.now) }
{
    if at >= file.len() {
        return 0;
    }
    let count = buf.len().min(file.len() - at);
    buf[..count].copy_from_slice(&file[at..at + count]);
    count
}
