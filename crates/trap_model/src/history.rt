//! Entries, and the state of an array.

ghost use Rattle.std.specs.Prelude.{◌≡◌, ◌<◌, [], ◌∷◌, ◌++◌, length, OnOk, OnErr};

use crate::{Block, Image};
use std::alloc::{AllocError as OutOfMemory, Global};
use std::marker::Model;

/// A write that was kept.
#[derive(Debug, Drop)]
pub struct Entry {
    /// When it was written: any number, never below that of the entry before.
    pub time: u64,
    /// Which block, below the volume.
    pub block: u32,
    /// The block's new contents.
    pub bytes: Block,
    /// Whether it is marked: its record then holds the new contents too.
    pub snap: bool,
}

/// Entries, the oldest first. A contract sees the list of them.
#[derive(Debug, Drop)]
pub struct Entries {
    items: Vec<Entry>,
}

impl Model for Entries {
    ghost use Rattle.std.specs.Prelude.{List};
    ghost use Rattle.trap_model.specs.declared.history.Entry.{Entry};

    ghost Value = { List Entry };

    ghost view = { λ entries. entries.items.items };
}

/// What an array stands for: a base image, and the entries written over it since.
#[derive(Debug, Drop)]
pub struct State {
    /// How many entries were dropped.
    pub first: u64,
    /// The time of the last dropped entry, 0 where none was dropped.
    pub base_time: u64,
    /// The image before the first entry.
    pub base: Image,
    /// The retained entries.
    pub entries: Entries,
}

impl Entries {
    /// None.
    pub(crate) fn new(alloc: Global) -> Entries
        ensures { result ≡ [] }
    {
        Entries {
            items: Vec::new(alloc),
        }
    }

    /// All of them.
    pub(crate) fn as_slice(&self) -> &[Entry]
        ensures { result.now ≡ self.now }
    {
        self.items.as_slice()
    }

    /// Adds an entry at the end.
    pub(crate) fn push(&mut self, entry: Entry) -> Result<(), OutOfMemory>
        ensures ok { OnOk result (self.new ≡ self.old ++ entry ∷ []) }
        ensures err { OnErr result (self.new ≡ self.old) }
    {
        self.items.push(entry)?;
        Ok(())
    }

    /// Takes the oldest entry.
    pub(crate) fn pop_front(&mut self) -> Entry
        requires { 0 < length self.old }
        ensures { self.old ≡ result ∷ self.new }
    {
        self.items.remove(0)
    }
}
