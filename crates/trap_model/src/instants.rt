//! The numbers of a state, and its images at instants, block by block.

ghost use Rattle.std.specs.Prelude.{◌≡◌, ◌+◌, ◌-◌, ◌^◌, ◌<◌, ◌≤◌, length, take};

use crate::Block;
use crate::history::State;

impl State {
    ghost use Rattle.trap_model.specs.Image.{block_of, image_after};
    ghost use Rattle.trap_model.specs.State.{last, last_time, image, image_by, kept, IsSound};

    /// The number of the last entry.
    pub(crate) fn last(&self) -> u64
        requires { last self.now ≤ 2 ^ 40 }
        ensures { result ≡ last self.now }
    {
        self.first + self.entries.as_slice().len() as u64
    }

    /// The time of the last entry, or the base time where there is none.
    pub(crate) fn last_time(&self) -> u64
        ensures { result ≡ last_time self.now }
    {
        let mut time = self.base_time;
        for entry in self.entries.as_slice() {
            time = entry.time;
        }
        time
    }

    /// A block after the first `count` entries.
    pub(crate) fn block_after(&self, count: usize, number: usize) -> &Block
        requires count { count ≤ length self.now.entries }
        requires number { number < length self.now.base }
        ensures { result.now
            ≡ block_of (image_after self.now.base (take count self.now.entries)) number }
    {
        let mut found = self.base.block(number);
        for entry in &self.entries.as_slice()[..count] {
            if entry.block as usize == number {
                found = &entry.bytes;
            }
        }
        found
    }

    /// A block of the present image.
    pub(crate) fn block_now(&self, number: usize) -> &Block
        requires { number < length self.now.base }
        ensures { result.now ≡ block_of (image self.now) number }
    {
        self.block_after(self.entries.as_slice().len(), number)
    }

    /// A block after all entries with a time of at most this one.
    pub(crate) fn block_by(&self, time: u64, number: usize) -> &Block
        requires { number < length self.now.base }
        ensures { result.now ≡ block_of (image_by self.now time) number }
    {
        let mut found = self.base.block(number);
        for entry in self.entries.as_slice() {
            if entry.time <= time && entry.block as usize == number {
                found = &entry.bytes;
            }
        }
        found
    }

    /// How many bytes the retained entries take in the ring.
    pub(crate) fn kept(&self) -> u64
        requires { IsSound self.now }
        ensures { result ≡ kept self.now }
    {
        let mut sum = 0;
        for (i, entry) in self.entries.as_slice().iter().enumerate() {
            let old = self.block_after(i, entry.block as usize);
            sum += entry.size(old.as_slice());
        }
        sum
    }
}
