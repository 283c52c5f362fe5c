//! Crashes of a bank in memory, a fuse, and disks that go absent.

ghost use Rattle.std.specs.Prelude.{◌≡◌, ◌+◌, ◌-◌, ◌≤◌, ◌^◌, All, Some, length, min};
ghost use Rattle.trap_bank.specs.Kept.{Kept, AgreeOutside, overlaid};
ghost use Rattle.trap_bank.specs.Draws.{drawn, after_draws};
ghost use Rattle.trap_bank.specs.Record.{ranges_kept};
ghost use Rattle.trap_bank.specs.Crash.{AllCrashed, Crashed, Crashes, after_ranges, crashed_disk};
ghost use Rattle.trap_bank.specs.Crash.{filled, last_draw, option_crashed, outcome, removed};

use crate::MemoryBank;
use crate::chosen::Chosen;
use crate::disk::{Disk, Range, copy_ranges};
use crate::draws::Draws;

impl MemoryBank {
    /// Makes every call fail after that many more. A later fuse takes the place of an earlier one.
    pub fn fuse(&mut self, calls: u64)
        ensures { self.new
            ≡ record self.old { fuse = Some (min (self.old.moment + calls) (2 ^ 64 - 1)) } }
    {
        self.fuse = Some(self.moment.saturating_add(calls));
    }

    /// Makes the disk absent. What a crash may have left at earlier moments is forgotten.
    pub fn remove(&mut self, d: u8)
        requires { d ≤ 20 }
        ensures { self.new ≡ removed self.old d }
    {
        self.disks[d as usize] = None;
        self.past.clear();
        self.since = self.moment;
    }

    /// Goes on as after a crash. Seed 0 keeps what was written, and seed 1 gives back what the last
    /// sync of each disk left. Any other seed fills what was written since then, one disk after
    /// another and one write after another, with bytes that follow from the seed. It ends what
    /// `fail_at`, `fail_on` and `fuse` have set, takes no memory, and forgets what a crash may have
    /// left at earlier moments.
    pub fn crash(&mut self, seed: u64)
        ensures { Crashes seed self.old self.new }
    {
        crash_all(self.disks.as_mut_slice(), seed);
        self.past.clear();
        self.since = self.moment;
        self.chosen = Chosen::new();
        self.fuse = None;
        self.spared = [None; 21];
    }
}

impl Disk {
    /// Leaves what the seed says, all of it stable.
    fn crash(&mut self, seed: u64, draws: &mut Draws)
        ensures crashed { Crashed seed draws.old.number (Some self.old) (Some self.new) }
        ensures drawn { draws.new.number ≡ last_draw seed draws.old.number self.old.ranges }
    {
        leave(
            self.bytes.as_mut_slice(),
            &self.stable,
            self.ranges.as_slice(),
            seed,
            draws,
        );
        copy_ranges(
            self.stable.as_mut_slice(),
            &self.bytes,
            self.ranges.as_slice(),
        );
        self.ranges.clear();
    }
}

/// Each disk in a crash.
fn crash_all(disks: &mut [Option<Disk>], seed: u64)
    ensures { AllCrashed seed disks.old disks.new }
{
    let mut draws = Draws::new(seed);
    for d in 0..disks.len() {
        crash_one(&mut disks[d], seed, &mut draws);
    }
}

/// One disk in a crash, where it is there.
fn crash_one(disk: &mut Option<Disk>, seed: u64, draws: &mut Draws)
    ensures crashed { Crashed seed draws.old.number disk.old disk.new }
    ensures drawn { draws.new.number ≡ last_draw seed draws.old.number (ranges_kept disk.old) }
{
    match disk {
        Some(disk) => disk.crash(seed, draws),
        None => {}
    }
}

/// Leaves in the bytes what the seed says.
fn leave(bytes: &mut [u8], stable: &[u8], ranges: &[Range], seed: u64, draws: &mut Draws)
    requires same { length bytes.old ≡ length stable.now }
    requires inside { All (λ range. range.at + range.len ≤ length stable.now) ranges.now }
    requires agree { AgreeOutside ranges.now bytes.old stable.now }
    ensures exact { bytes.new ≡ outcome seed draws.old.number bytes.old stable.now ranges.now }
    ensures agree { AgreeOutside ranges.now bytes.new bytes.old }
    ensures drawn { draws.new.number ≡ last_draw seed draws.old.number ranges.now }
{
    match seed {
        0 => {}
        1 => copy_ranges(bytes, stable, ranges),
        _ => fill(bytes, ranges, draws),
    }
}

/// Fills the ranges with drawn bytes.
fn fill(bytes: &mut [u8], ranges: &[Range], draws: &mut Draws)
    requires { All (λ range. range.at + range.len ≤ length bytes.old) ranges.now }
    ensures exact { bytes.new ≡ filled draws.old.number ranges.now bytes.old }
    ensures agree { AgreeOutside ranges.now bytes.new bytes.old }
    ensures drawn { draws.new.number ≡ after_ranges draws.old.number ranges.now }
{
    for range in ranges {
        fill_range(bytes, *range, draws);
    }
}

/// Fills one range with drawn bytes.
fn fill_range(bytes: &mut [u8], range: Range, draws: &mut Draws)
    requires { range.at + range.len ≤ length bytes.old }
    ensures bytes { bytes.new ≡ overlaid bytes.old range.at (drawn range.len draws.old.number) }
    ensures number { draws.new.number ≡ after_draws range.len draws.old.number }
{
    draws.fill(&mut bytes[range.at..range.at + range.len]);
}
