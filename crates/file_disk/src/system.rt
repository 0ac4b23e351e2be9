// The file system that a folder's files are in.
use crate::names::{folder_of, last_of};
use crate::places::sync;
use disk::DiskFault;
use std::fs::{File, OpenOptions};
use std::io::ErrorKind;
use std::rt::Files;

/// A file system, as far as a journal in parts needs it. It is a trait of its own, without types, so that a folder in it may go to another
/// thread. Each runtime with files is one.
pub trait FileSystem {
    /// The file, opened for reading, and for writing where that is wanted; none where there is none.
    fn opened(&self, name: &str, writes: bool) -> Result<Option<File>, DiskFault>;

    /// An empty file in the place of one that may be there.
    fn made(&self, name: &str) -> Result<File, DiskFault>;

    /// Takes the file away, where it is there.
    fn take_away(&self, name: &str) -> Result<(), DiskFault>;

    /// The greatest number of a part of this journal whose file is there: K of NAME.K, or 1.
    fn last_part(&self, name: &str) -> Result<usize, DiskFault>;

    /// Puts the names of the files of the folder that this file is in on the device.
    fn keep_names(&self, name: &str) -> Result<(), DiskFault>;
}

impl<R: Files<File = File>> FileSystem for R {
    fn opened(&self, name: &str, writes: bool) -> Result<Option<File>, DiskFault> {
        match OpenOptions::new().read(true).write(writes).open(self, name) {
            Ok(file) => Ok(Some(file)),
            Err(fault) if fault.kind() == ErrorKind::NotFound => Ok(None),
            Err(_) => Err(DiskFault),
        }
    }

    fn made(&self, name: &str) -> Result<File, DiskFault> {
        OpenOptions::new()
            .read(true)
            .write(true)
            .create(true)
            .truncate(true)
            .open(self, name)
            .map_err(|_| DiskFault)
    }

    fn take_away(&self, name: &str) -> Result<(), DiskFault> {
        match self.remove_file(name) {
            Ok(()) => Ok(()),
            Err(fault) if fault.kind() == ErrorKind::NotFound => Ok(()),
            Err(_) => Err(DiskFault),
        }
    }

    fn last_part(&self, name: &str) -> Result<usize, DiskFault> {
        last_of(self, name)
    }

    fn keep_names(&self, name: &str) -> Result<(), DiskFault> {
        match OpenOptions::new().read(true).open(self, folder_of(name)) {
            Ok(mut folder) => sync(&mut folder),
            Err(_) => Err(DiskFault),
        }
    }
}
