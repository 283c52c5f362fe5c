//! How a reader finds lines.

ghost use Rattle.std.specs.Prelude.{◌≡◌, ◌+◌, ◌-◌, ◌^◌, ◌<◌, ◌≤◌, ◌++◌, [], take, IfOk, IfErr};
ghost use Rattle.trap_lines.specs.Reader.{unread, taken, room, Advances, Passes, IsOpen, Refills};
ghost use Rattle.trap_lines.specs.Reader.{Finds, FindsNone, StopsAt};

use super::LineReader;
use super::pieces::{find_line_feed, keep, take_some};
use crate::{Found, ReadFault};
use std::alloc::{AllocError as OutOfMemory, Global};
use trap_bank::Source;

// How many bytes are taken at a time, if the source gives that many.
const PIECE_BYTES: usize = 65_536;

impl LineReader {
    /// Takes room for pieces of 64 KiB, and for a line of `line_bytes` bytes. A longer line is
    /// found as well, and isn't kept.
    pub fn new(alloc: Global, line_bytes: usize) -> Result<LineReader, OutOfMemory>
        ensures none { IfOk result (λ reader. unread reader ≡ []) }
        ensures untaken { IfOk result (λ reader. taken reader ≡ 0) }
        ensures room { IfOk result (λ reader. room reader ≡ line_bytes) }
    {
        let chunk = vec![in alloc; 0u8; PIECE_BYTES]?;
        let line = vec![in alloc; 0u8; line_bytes]?;
        Ok(LineReader {
            chunk,
            at: 0,
            end: 0,
            line,
            used: 0,
        })
    }

    /// The line found last. Of a line that is longer than its room nothing is known.
    pub fn line(&self, len: usize) -> &[u8]
        requires { len ≤ room self.now }
        ensures { result.now ≡ take len self.now.line.items }
    {
        &self.line[..len]
    }

    // Sees that a byte is there to be passed over, unless the input is at its end.
    fn await_more<S: Source>(&mut self, source: &mut S) -> Result<bool, ReadFault>
        requires below { (S.stream source.old).given ≤ 2 ^ 62 + taken self.old }
        requires still_open { IsOpen self.old (S.stream source.old) }
        ensures passes { Passes [] self.old self.new (S.stream source.old) (S.stream source.new) }
        ensures line { self.new.line ≡ self.old.line }
        ensures more { IfOk result (λ more. Refills more self.new (S.stream source.new)) }
        ensures err { IfErr result (λ fault. StopsAt fault self.new (S.stream source.old)
            (S.stream source.new)) }
    {
        if self.at < self.end {
            return Ok(true);
        }
        self.at = 0;
        self.end = 0;
        match take_some(source, self.chunk.as_mut_slice(), self.used) {
            Ok(0) => Ok(false),
            Ok(count) => {
                self.end = count;
                Ok(true)
            }
            Err(fault) => Err(fault),
        }
    }

    // Passes over that many bytes of a line, of which `len` were passed over before.
    fn pass(&mut self, len: usize, count: usize)
        requires { count ≤ self.old.end - self.old.at }
        ensures advances { Advances count self.old self.new }
        ensures line { len + count ≤ room self.old
            → take (len + count) self.new.line.items
            ≡ take len self.old.line.items ++ take count (unread self.old) }
    {
        keep(
            self.line.as_mut_slice(),
            len,
            &self.chunk[self.at..self.at + count],
        );
        self.at += count;
        self.used += count as u64;
    }

    // Passes over the line feed that stands first.
    fn pass_feed(&mut self)
        requires { self.old.at < self.old.end }
        ensures advances { Advances 1 self.old self.new }
        ensures line { self.new.line ≡ self.old.line }
    {
        self.at += 1;
        self.used += 1;
    }

    /// Finds the next line, and keeps it if it fits. After the end it isn't called again.
    pub fn next<S: Source>(&mut self, source: &mut S) -> Result<Found, ReadFault>
        requires below { (S.stream source.old).given ≤ 2 ^ 62 + taken self.old }
        requires still_open { IsOpen self.old (S.stream source.old) }
        ensures found { IfOk result (λ found. Finds found self.old self.new (S.stream source.old)
            (S.stream source.new)) }
        ensures err { IfErr result (λ fault. FindsNone fault self.old self.new (S.stream source.old)
            (S.stream source.new)) }
    {
        let mut len = 0usize;
        'pieces: loop {
            if !self.await_more(source)? {
                if len == 0 {
                    return Ok(Found::End);
                }
                return Ok(Found::Last { len });
            }
            match find_line_feed(&self.chunk[self.at..self.end]) {
                Some(place) => {
                    self.pass(len, place);
                    self.pass_feed();
                    return Ok(Found::Line { len: len + place });
                }
                None => {
                    let count = self.end - self.at;
                    self.pass(len, count);
                    len += count;
                }
            }
        }
    }
}
