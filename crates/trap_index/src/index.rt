//! The index: the items of the retained records, and for each block the number of its last one.

ghost use Rattle.std.specs.Prelude.{◌≡◌, ◌↔◌, ◌+◌, ◌^◌, ◌<◌, ◌≤◌, length, IfOk, IfSome, IsSome};
ghost use Rattle.trap_model.specs.Image.{volume};
ghost use Rattle.trap_model.specs.LogRecord.{IsRecordInRange};
ghost use Rattle.trap_index.specs.Indexed.{nothing_indexed, with_record, dropped_to, time_of_last};
ghost use Rattle.trap_index.specs.Indexed.{recs_up_to, last_seq, last_record_time, recs_len};
ghost use Rattle.trap_index.specs.Indexed.{newest, item_at, IsLastBy, path_to};
ghost use Rattle.trap_index.specs.Keeping.{IsIndexed, link};

use crate::Item;
use crate::times::{count_by, item_in};
use circular_buffer::HeapCircularBuffer;
use std::alloc::{AllocError as OutOfMemory, Global};
use std::marker::Model;
use trap_model::{Geometry, Known, LogRec, Path, RECORD_HEADER_BYTES, Way};

/// The retained records. A contract sees the list of their headers, the oldest first. It holds 40
/// bytes for each entry that the array can retain and 8 bytes for each block: 48 MiB where both are
/// 2^20.
#[derive(Drop)]
pub struct Index {
    g: Geometry,
    first: u64,
    base_time: u64,
    first_off: u64,
    /// The offset after the last record.
    end_off: u64,
    last_time: u64,
    /// Each with the number of its block's previous entry, dropped or not, or 0.
    items: HeapCircularBuffer<Item>,
    /// The number of each block's last entry, dropped or not, or 0.
    newest: Vec<u64>,
}

impl Model for Index {
    ghost use Rattle.trap_index.specs.Indexed.{Indexed};
    ghost use Rattle.trap_index.specs.Keeping.{recs_of, KeepsItems};

    ghost Value = { Indexed };

    ghost view = { λ a. record {
      g = a.g;
      first = a.first;
      base_time = a.base_time;
      first_off = a.first_off;
      recs = recs_of a.first a.items.items;
    } };

    ghost invariant = { λ a. KeepsItems (record {
      g = a.g;
      first = a.first;
      base_time = a.base_time;
      first_off = a.first_off;
      recs = recs_of a.first a.items.items;
    }) a.items.items a.items.capacity a.newest.items a.end_off a.last_time };
}

impl Index {
    /// An index with no record. It takes all its room here.
    pub fn new(
        alloc: Global,
        g: &Geometry,
        first: u64,
        base_time: u64,
        first_off: u64,
    ) -> Result<Index, OutOfMemory>
        requires first { first ≤ 2 ^ 40 }
        requires offset { first_off ≤ 2 ^ 54 }
        ensures { IfOk result (λ index. index ≡ nothing_indexed g.now first base_time first_off) }
    {
        let items = HeapCircularBuffer::with_capacity(alloc, g.entries as usize)?;
        let newest = vec![in alloc; 0; g.volume() as usize]?;
        Ok(Index {
            g: *g,
            first,
            base_time,
            first_off,
            end_off: first_off,
            last_time: base_time,
            items,
            newest,
        })
    }

    /// Adds a further record. It takes no memory.
    pub fn add(&mut self, rec: &LogRec)
        requires few { length self.old.recs < self.old.g.entries }
        requires number { rec.now.seq ≡ last_seq self.old + 1 }
        requires time { last_record_time self.old ≤ rec.now.time }
        requires block { rec.now.block < volume self.old.g }
        requires ranges { IsRecordInRange self.old.g.block rec.now }
        ensures { self.new ≡ with_record self.old rec.now }
    {
        let head = &mut self.newest[rec.block as usize];
        let prev = *head;
        *head = rec.seq;
        let item = Item {
            time: rec.time,
            block: rec.block,
            off: self.end_off,
            plen: rec.plen,
            slen: rec.slen,
            snap: rec.snap,
            prev,
        };
        self.items.push_back(item);
        self.end_off += RECORD_HEADER_BYTES + u64::from(rec.plen) + u64::from(rec.slen);
        self.last_time = rec.time;
    }

    /// Drops the entries up to this number. No link is touched: those to dropped entries are read
    /// as 0.
    pub fn drop_to(&mut self, seq: u64)
        requires low { self.old.first ≤ seq }
        requires high { seq ≤ last_seq self.old }
        ensures { self.new ≡ dropped_to self.old seq }
    {
        let kept = (self.last() - seq) as usize;
        let (base_time, first_off) = (self.time_at(seq), self.off_after(seq));
        self.first = seq;
        self.base_time = base_time;
        self.first_off = first_off;
        self.items.truncate_front(kept);
    }

    /// The time of the record with this number, or the base time where it is the last dropped
    /// one's.
    fn time_at(&self, seq: u64) -> u64
        requires low { self.now.first ≤ seq }
        requires high { seq ≤ last_seq self.now }
        ensures { result ≡ time_of_last self.now.base_time (recs_up_to self.now seq) }
    {
        if seq == self.first {
            return self.base_time;
        }
        self.retained(seq).time
    }

    /// The offset after the record with this number, or where the first one begins.
    fn off_after(&self, seq: u64) -> u64
        requires low { self.now.first ≤ seq }
        requires high { seq ≤ last_seq self.now }
        ensures { result ≡ self.now.first_off + recs_len (recs_up_to self.now seq) }
    {
        if seq == self.last() {
            return self.end_off;
        }
        self.retained(seq + 1).off
    }

    /// A stored link as it is read: 0 where it names no retained entry.
    fn link(&self, number: u64) -> u64
        ensures { result ≡ link self.now.first number }
    {
        if number <= self.first { 0 } else { number }
    }

    /// How many entries were dropped.
    pub fn first(&self) -> u64
        ensures first { result ≡ self.now.first }
        ensures indexed { IsIndexed self.now }
    {
        self.first
    }

    /// The number of the last record, or of the last dropped entry where there is none.
    pub fn last(&self) -> u64
        ensures last { result ≡ last_seq self.now }
        ensures most { result ≤ 2 ^ 40 }
        ensures indexed { IsIndexed self.now }
    {
        self.first + self.items.len() as u64
    }

    /// The time of the last dropped entry, 0 where none was dropped.
    pub fn base_time(&self) -> u64
        ensures { result ≡ self.now.base_time }
    {
        self.base_time
    }

    /// The time of the last record, or the base time where there is none.
    pub fn last_time(&self) -> u64
        ensures { result ≡ last_record_time self.now }
    {
        self.last_time
    }

    /// How many bytes the records take in the ring.
    pub fn bytes_kept(&self) -> u64
        ensures { result ≡ recs_len self.now.recs }
    {
        self.end_off - self.first_off
    }

    /// The number of a block's last retained entry, or 0 where none is retained.
    pub fn newest(&self, block: u32) -> u64
        requires { block < volume self.now.g }
        ensures newest { result ≡ newest block self.now.recs }
        ensures indexed { IsIndexed self.now }
    {
        self.link(self.newest[block as usize])
    }

    /// What is known of the record with this number.
    pub fn item(&self, seq: u64) -> Option<Item>
        ensures some { IfSome result (λ item. item ≡ item_at self.now seq) }
        ensures retained { IsSome result ↔ ((self.now.first < seq) × (seq ≤ last_seq self.now)) }
    {
        if seq <= self.first || self.last() < seq {
            return None;
        }
        Some(self.retained(seq))
    }

    /// What is known of a record that is retained.
    fn retained(&self, seq: u64) -> Item
        requires low { self.now.first < seq }
        requires high { seq ≤ last_seq self.now }
        ensures { result ≡ item_at self.now seq }
    {
        let item = item_in(&self.items, (seq - self.first - 1) as usize);
        Item {
            prev: self.link(item.prev),
            ..item
        }
    }

    /// The last number whose time is at most this one, or `first` where there is none.
    pub fn last_by_time(&self, t: u64) -> u64
        requires { self.now.base_time ≤ t }
        ensures { IsLastBy self.now t result }
    {
        self.first + count_by(&self.items, t) as u64
    }

    /// From where a block's contents after the entry with this number are reached: no entry is
    /// marked, so from the present back over the block's entries above it.
    pub fn path(&self, block: u32, seq: u64) -> Path
        requires block { block < volume self.now.g }
        requires low { self.now.first ≤ seq }
        requires high { seq ≤ last_seq self.now }
        ensures { result ≡ path_to self.now block seq }
    {
        let mut turns = 0;
        let mut number = self.newest(block);
        while seq < number {
            number = self.retained(number).prev;
            turns += 1;
        }
        Path {
            from: Known::Present,
            turns,
            way: Way::Back,
        }
    }
}
