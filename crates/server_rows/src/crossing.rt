//! That what a server takes along may go to another thread. Each is proved by itself, and used where a server is called.

ghost use Rattle.std.specs.Thread.{IsSend};
ghost use Rattle.server_rows.specs.Crossings.{ClientCrosses, DiskCrosses, FolderCrosses};

use crate::clients::Client;
use crate::folder::MemoryFolder;
use memory_disks::FaultDisk;
use std::alloc::Global;

// That a type may.
fn crosses<T: Send>()
    ensures { IsSend T.row }
{}

/// That a disk may.
pub(crate) fn disk_crosses()
    ensures disk { DiskCrosses }
{
    crosses::<FaultDisk<Global>>();
}

/// That a folder may.
pub(crate) fn folder_crosses()
    ensures folder { FolderCrosses }
{
    crosses::<MemoryFolder>();
}

/// That an end of a connection may.
pub(crate) fn client_crosses()
    ensures client { ClientCrosses }
{
    crosses::<Client>();
}
