//! Trusted edge: the system's calls on files, again and again until the whole piece is done.

use super::folder::Folder;
use std::fs::{File, OpenOptions};
use std::io::ErrorKind;
use std::os::unix::fs::FileExt;
use std::rt::Files;
use std::{fs, io};

// How many zero bytes are written at a time.
const ZEROS_BYTES: usize = 65_536;

// Linux's numbers for the errors of a device that fails.
const DEVICE_FAILS: [i32; 3] = [
    5, // EIO
    6, // ENXIO
    19, // ENODEV
];

// Opens the file to read and to write, and tells its length in bytes. There is none where no file
// has the name, or its device fails. Any other error doesn't say that the file is lost.
pub fn open_there<R: Files<File = File>>(rt: &R, name: &str) -> io::Result<Option<(File, u64)>> {
    match open_measured(rt, name) {
        Ok(opened) => Ok(Some(opened)),
        Err(why) if is_gone(&why) => Ok(None),
        Err(why) => Err(why),
    }
}

fn open_measured<R: Files<File = File>>(rt: &R, name: &str) -> io::Result<(File, u64)> {
    let file = OpenOptions::new().read(true).write(true).open(rt, name)?;
    let len = file.metadata()?.len();
    Ok((file, len))
}

fn is_gone(why: &io::Error) -> bool {
    match why.raw_os_error() {
        Some(code) => why.kind() == ErrorKind::NotFound || DEVICE_FAILS.contains(&code),
        None => false,
    }
}

// The name of a file while it is made.
const UNFINISHED: &str = "new.trap";

// Makes a file of that many zero bytes, and makes it and its name stable. It gets its name when it
// is whole, so that a program that is stopped leaves no part of it there. Where the file is to be
// new, a name that is there is an error: its device fails or its link leads nowhere, and it stays.
pub fn make_zero<R: Files<File = File>>(
    rt: &R,
    folder: &Folder,
    name: &str,
    len: u64,
    is_new: bool,
) -> io::Result<File> {
    if is_new && !is_absent(rt, name) {
        return Err(io::Error::from(ErrorKind::AlreadyExists));
    }
    let done = make_named(rt, folder, name, len);
    if done.is_err() {
        // An unfinished file gives its space back.
        let _ = fs::remove_file(rt, UNFINISHED);
    }
    done
}

fn make_named<R: Files<File = File>>(
    rt: &R,
    folder: &Folder,
    name: &str,
    len: u64,
) -> io::Result<File> {
    remove_unfinished(rt)?;
    // Whatever took the name meanwhile, a link too, isn't followed.
    let file = File::create_new(rt, UNFINISHED)?;
    fill_zero(&file, len)?;
    // The zeros and the length are stable before the file has its name.
    file.sync_all()?;
    fs::rename(rt, UNFINISHED, name)?;
    // The folder's entry is stable when the disk is there.
    folder.sync()?;
    Ok(file)
}

// Removes what a stopped run had not finished.
fn remove_unfinished<R: Files>(rt: &R) -> io::Result<()> {
    match fs::remove_file(rt, UNFINISHED) {
        Err(why) if why.kind() != ErrorKind::NotFound => Err(why),
        _ => Ok(()),
    }
}

// Whether nothing has that name. A link is there wherever it leads.
fn is_absent<R: Files>(rt: &R, name: &str) -> bool {
    match fs::symlink_metadata(rt, name) {
        Ok(_) => false,
        Err(why) => why.kind() == ErrorKind::NotFound,
    }
}

// The zeros are written and not left as a hole: a write into a hole takes space, so that it may
// find none, and its sync waits for the file system's journal.
fn fill_zero<F: FileExt>(file: &F, len: u64) -> io::Result<()> {
    let zeros = [0u8; ZEROS_BYTES];
    let mut done = 0u64;
    for _ in 0..u64::MAX {
        if done >= len {
            return Ok(());
        }
        let piece = (len - done).min(ZEROS_BYTES as u64);
        write_whole(file, done, &zeros[..piece as usize])?;
        done += piece;
    }
    Err(io::Error::from(ErrorKind::Other))
}

// Fills the buffer from a byte offset on. A file that ends within the piece is an error.
pub fn read_whole<F: FileExt>(file: &F, at: u64, buf: &mut [u8]) -> io::Result<()> {
    let mut done = 0;
    for _ in 0..u64::MAX {
        if done >= buf.len() {
            return Ok(());
        }
        match file.read_at(&mut buf[done..], at.wrapping_add(done as u64)) {
            Ok(0) => return Err(io::Error::from(ErrorKind::UnexpectedEof)),
            Ok(count) => done += count,
            Err(e) if e.kind() == ErrorKind::Interrupted => {}
            Err(e) => return Err(e),
        }
    }
    Err(io::Error::from(ErrorKind::Other))
}

// Writes all the bytes from a byte offset on.
pub fn write_whole<F: FileExt>(file: &F, at: u64, bytes: &[u8]) -> io::Result<()> {
    let mut done = 0;
    for _ in 0..u64::MAX {
        if done >= bytes.len() {
            return Ok(());
        }
        match file.write_at(&bytes[done..], at.wrapping_add(done as u64)) {
            Ok(0) => return Err(io::Error::from(ErrorKind::WriteZero)),
            Ok(count) => done += count,
            Err(e) if e.kind() == ErrorKind::Interrupted => {}
            Err(e) => return Err(e),
        }
    }
    Err(io::Error::from(ErrorKind::Other))
}

// Writes all the bytes from a byte offset on, into a file that has this many bytes. A write up to
// the end would give a file that was cut its length again, so that is looked at first.
pub fn write_within(file: &File, size: u64, at: u64, bytes: &[u8]) -> io::Result<()> {
    if at.saturating_add(bytes.len() as u64) >= size {
        check_length(file, size)?;
    }
    write_whole(file, at, bytes)
}

// Makes what was written stable, in a file that has this many bytes still. Where it has another
// length, it was cut or lengthened beside this program, and what was written may be gone.
pub fn sync_whole(file: &File, size: u64) -> io::Result<()> {
    file.sync_data()?;
    check_length(file, size)
}

fn check_length(file: &File, size: u64) -> io::Result<()> {
    if file.metadata()?.len() == size {
        Ok(())
    } else {
        Err(io::Error::from(ErrorKind::UnexpectedEof))
    }
}

// Writes all the bytes to standard output. Nothing is kept back.
pub fn print_whole<R: Print>(rt: &R, bytes: &[u8]) -> io::Result<()> {
    let mut done = 0;
    for _ in 0..u64::MAX {
        if done >= bytes.len() {
            return Ok(());
        }
        match rt.write_some(&bytes[done..]) {
            Ok(0) => return Err(io::Error::from(ErrorKind::WriteZero)),
            Ok(count) => done += count,
            Err(e) if e.kind() == ErrorKind::Interrupted => {}
            Err(e) => return Err(e),
        }
    }
    Err(io::Error::from(ErrorKind::Other))
}
