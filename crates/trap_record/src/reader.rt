//! Reads a record.

ghost use Rattle.std.specs.Prelude.{◌^◌, ◌<◌};
ghost use Rattle.trap_record.specs.Reading.{ReadsAs};

use crate::header::{HEADER, read_header};
use trap_model::LogRec;
use trap_zrun::check;

/// What stands at the front of a list of bytes.
#[derive(Clone, Copy, Debug, PartialEq, Eq)]
pub enum ReadRec {
    /// A record, and how many bytes it has.
    Whole { rec: LogRec, used: usize },
    /// Fewer bytes than a header has, or than it names.
    Short,
    /// No record: the header breaks a range, at 0, or a code is refused there.
    Bad { at: usize },
}

/// What stands at the front of the bytes, over blocks of `size` bytes. Bytes after the record
/// aren't looked at.
pub fn read(bytes: &[u8], size: usize) -> ReadRec
    requires { size < 2 ^ 15 }
    ensures { ReadsAs size bytes.now result }
{
    if bytes.len() < HEADER {
        return ReadRec::Short;
    }
    let Some(rec) = read_header(bytes, size) else {
        return ReadRec::Bad { at: 0 };
    };
    let parity_end = HEADER + usize::from(rec.plen);
    let used = parity_end + usize::from(rec.slen);
    if bytes.len() < used {
        return ReadRec::Short;
    }
    if let Err(bad) = check(&bytes[HEADER..parity_end], size) {
        return ReadRec::Bad {
            at: HEADER + bad.at,
        };
    }
    if !rec.snap {
        return ReadRec::Whole { rec, used };
    }
    match check(&bytes[parity_end..used], size) {
        Err(bad) => ReadRec::Bad {
            at: parity_end + bad.at,
        },
        Ok(()) => ReadRec::Whole { rec, used },
    }
}
