//! Why there is no bank of files.

use std::alloc::AllocError;
use std::fmt::{Display, Formatter};
use std::{fmt, io};

/// Why there is no bank of files. No file was changed.
#[derive(Debug, Drop)]
pub enum BankFault {
    /// There was no memory.
    OutOfMemory,
    /// Another program has the folder.
    Taken,
    /// The folder can't be opened or locked.
    Folder { why: io::Error },
    /// The file of that name is there, its device doesn't fail, and it can't be opened.
    File { name: &'static str, why: io::Error },
}

impl From<AllocError> for BankFault {
    fn from(_error: AllocError) -> BankFault {
        BankFault::OutOfMemory
    }
}

impl Display for BankFault {
    fn fmt<W: fmt::Write>(&self, f: &mut Formatter<W>) -> fmt::Result {
        match self {
            BankFault::OutOfMemory => f.write_str("no memory"),
            BankFault::Taken => f.write_str("another program has this folder"),
            BankFault::Folder { why } => write!(f, "this folder can't be opened and locked: {why}"),
            BankFault::File { name, why } => write!(f, "{name} can't be opened: {why}"),
        }
    }
}
