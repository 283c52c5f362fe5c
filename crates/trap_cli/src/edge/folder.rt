//! Trusted edge: the folder that holds the disks' files, and its lock.

use super::fault::BankFault;
use std::fs::{File, TryLockError};
use std::io;
use std::os::fd::{AsRawFd, IntoRawFd, RawFd};
use std::rt::Files;

// The last descriptor of a standard stream: standard error.
const LAST_STREAM: RawFd = 2;

// Linux's numbers for the errors of a file system that has no such locks.
const NO_LOCKS: [i32; 5] = [
    9, // EBADF: it asks for a file that is open to be written
    22, // EINVAL
    37, // ENOLCK
    38, // ENOSYS
    95, // EOPNOTSUPP
];

/// The current folder, open and locked where its file system can lock it.
#[derive(Drop)]
pub struct Folder {
    file: File,
    unlocked: Option<io::Error>,
}

impl Folder {
    /// Opens the folder and locks it. The lock lasts as long as the value.
    pub fn take<R: Files<File = File>>(rt: &R) -> Result<Folder, BankFault> {
        let file = match open_folder(rt) {
            Ok(file) => file,
            Err(why) => return Err(BankFault::Folder { why }),
        };
        match file.try_lock() {
            Ok(()) => Ok(Folder {
                file,
                unlocked: None,
            }),
            Err(TryLockError::WouldBlock) => Err(BankFault::Taken),
            Err(TryLockError::Error(why)) if has_no_locks(&why) => Ok(Folder {
                file,
                unlocked: Some(why),
            }),
            Err(TryLockError::Error(why)) => Err(BankFault::Folder { why }),
        }
    }

    /// Why the folder isn't locked, where its file system can't.
    pub fn unlocked(&self) -> Option<&io::Error> {
        self.unlocked.as_ref()
    }

    /// Makes the names in the folder stable.
    pub fn sync(&self) -> io::Result<()> {
        self.file.sync_all()
    }
}

// Opens the folder under a descriptor that no standard stream has. A stream that is closed becomes
// the folder itself, whose reads and writes fail, so that no file opened later takes its place.
fn open_folder<R: Files<File = File>>(rt: &R) -> io::Result<File> {
    for _ in 0..=LAST_STREAM {
        let folder = File::open(rt, ".")?;
        if folder.as_raw_fd() > LAST_STREAM {
            return Ok(folder);
        }
        // It stays open until the program ends.
        let _ = folder.into_raw_fd();
    }
    File::open(rt, ".")
}

fn has_no_locks(why: &io::Error) -> bool {
    match why.raw_os_error() {
        Some(code) => NO_LOCKS.contains(&code),
        None => false,
    }
}
