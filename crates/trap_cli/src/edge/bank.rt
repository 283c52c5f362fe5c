//! Trusted edge: disks as files of the current folder, and standard output as the port.

ghost use Rattle.std.specs.Prelude.{◌≡◌, ◌<◌, IfOk, OnOk, OnErr, length, replicate, vec_len};
ghost use Rattle.trap_cli.specs.Counts.{Blames};
ghost use Rattle.trap_cli.specs.Files.{untold_view, untold_lawful};

use super::fault::BankFault;
use super::files::{make_zero, open_there, print_whole, read_whole, sync_whole, write_within};
use super::folder::Folder;
use std::alloc::Global;
use std::fs::File;
use std::io;
use std::io::ErrorKind;
use std::rt::Files;
use trap_bank::{Bank, Failed};

// The file of each disk.
const NAMES: [&str; 21] = [
    "log.trap",
    "m00.trap",
    "m01.trap",
    "m02.trap",
    "m03.trap",
    "m04.trap",
    "m05.trap",
    "m06.trap",
    "m07.trap",
    "m08.trap",
    "m09.trap",
    "m10.trap",
    "m11.trap",
    "m12.trap",
    "m13.trap",
    "m14.trap",
    "m15.trap",
    "replica.trap",
    "log2.trap",
    "rollback.trap",
    "far.trap",
];

// A file that is open, and its length in bytes.
#[derive(Drop)]
pub struct OpenDisk<F> {
    file: F,
    size: u64,
}

/// Disks as files of the current folder, and standard output as the port. A file that is absent, or
/// whose device fails, has no size. Each file is opened once, while the folder is locked.
#[derive(Drop)]
pub struct FileBank<R: Files<File = File> + Print> {
    rt: R,
    disks: Vec<Option<OpenDisk<File>>>,
    faults: [u64; 21],
    port_faults: u64,
    folder: Folder,
    ghost disk_count: { vec_len disks ≡ 21 },
}

impl<R: Files<File = File> + Print + Drop> FileBank<R> {
    /// Locks the folder and opens the files that are there. No standard stream ever becomes a disk.
    pub fn new(rt: R, alloc: Global) -> Result<FileBank<R>, BankFault>
        ensures counts { IfOk result (λ bank. bank.faults ≡ replicate 21 0) }
        ensures port_count { IfOk result (λ bank. bank.port_faults ≡ 0) }
    {
        let folder = Folder::take(&rt)?;
        let mut disks = Vec::with_capacity(alloc, NAMES.len())?;
        'names: for name in &NAMES {
            if disks.push(open_disk(&rt, name)?).is_err() {
                return Err(BankFault::OutOfMemory);
            }
        }
        Ok(FileBank {
            rt,
            disks,
            faults: [0; 21],
            port_faults: 0,
            folder,
        })
    }

    /// Why the folder isn't locked, where its file system can't.
    pub fn unlocked(&self) -> Option<&io::Error> {
        self.folder.unlocked()
    }
}

impl<R: Files<File = File> + Print> Bank for FileBank<R> {
    ghost view = { λ b. untold_view b.disks.items b.faults b.port_faults };

    ghost lawful = { λ b. untold_lawful b.disks.items b.faults b.port_faults };

    fn size(&self, d: u8) -> Option<u64> {
        match &self.disks[d as usize] {
            Some(disk) => Some(disk.size),
            None => None,
        }
    }

    fn make(&mut self, d: u8, len: u64) -> Result<(), Failed> {
        let is_new = self.disks[d as usize].is_none();
        match make_zero(&self.rt, &self.folder, NAMES[d as usize], len, is_new) {
            Ok(file) => {
                self.disks[d as usize] = Some(OpenDisk { file, size: len });
                Ok(())
            }
            Err(_) => {
                // What the file is now isn't known, so it is closed.
                self.disks[d as usize] = None;
                blame(&mut self.faults, d);
                Err(Failed)
            }
        }
    }

    fn read(&mut self, d: u8, at: u64, buf: &mut [u8]) -> Result<(), Failed> {
        let done = match &self.disks[d as usize] {
            Some(disk) => read_whole(&disk.file, at, buf),
            None => Err(io::Error::from(ErrorKind::NotFound)),
        };
        settle(done, &mut self.faults, d)
    }

    fn write(&mut self, d: u8, at: u64, bytes: &[u8]) -> Result<(), Failed> {
        let done = match &self.disks[d as usize] {
            Some(disk) => write_within(&disk.file, disk.size, at, bytes),
            None => Err(io::Error::from(ErrorKind::NotFound)),
        };
        settle(done, &mut self.faults, d)
    }

    fn sync(&mut self, d: u8) -> Result<(), Failed> {
        let done = match &self.disks[d as usize] {
            Some(disk) => sync_whole(&disk.file, disk.size),
            None => Err(io::Error::from(ErrorKind::NotFound)),
        };
        settle(done, &mut self.faults, d)
    }

    fn say(&mut self, bytes: &[u8]) -> Result<(), Failed> {
        match print_whole(&self.rt, bytes) {
            Ok(()) => Ok(()),
            Err(_) => {
                self.port_faults = self.port_faults.saturating_add(1);
                Err(Failed)
            }
        }
    }
}

// The disk of that name, where it is there.
fn open_disk<R: Files<File = File>>(
    rt: &R,
    name: &'static str,
) -> Result<Option<OpenDisk<File>>, BankFault> {
    match open_there(rt, name) {
        Ok(Some((file, size))) => Ok(Some(OpenDisk { file, size })),
        Ok(None) => Ok(None),
        Err(why) => Err(BankFault::File { name, why }),
    }
}

// One more fault of the disk. At the end of 64 bits the count stands still.
fn blame(faults: &mut [u64], d: u8)
    requires { d < length faults.old }
    ensures counts { Blames d faults.old faults.new }
{
    faults[d as usize] = faults[d as usize].saturating_add(1);
}

// What a call on the disk answers. Where it failed, the disk has one more fault.
fn settle(done: io::Result<()>, faults: &mut [u64], d: u8) -> Result<(), Failed>
    requires { d < length faults.old }
    ensures ok { OnOk result (faults.new ≡ faults.old) }
    ensures err { OnErr result (Blames d faults.old faults.new) }
{
    match done {
        Ok(()) => Ok(()),
        Err(_) => {
            blame(faults, d);
            Err(Failed)
        }
    }
}
