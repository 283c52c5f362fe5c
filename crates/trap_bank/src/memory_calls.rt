//! The calls of a bank in memory.

ghost use Rattle.std.specs.Prelude.{◌≡◌, ◌+◌, ◌≤◌, length};
ghost use Rattle.trap_bank.specs.Calls.{Fits, Makes, Reads, Writes, Syncs, Says};
ghost use Rattle.trap_bank.specs.Memory.{view_of, lawful_view};
ghost use Rattle.trap_bank.specs.Struck.{DiskCall, PortCall};
ghost use Rattle.trap_bank.specs.Effects.{MakeEffect, ReadEffect, WriteEffect, SyncEffect};
ghost use Rattle.trap_bank.specs.Effects.{SayEffect};

use crate::{Bank, Failed, MemoryBank};

impl Bank for MemoryBank {
    ghost view = { view_of };

    ghost lawful = { lawful_view };

    fn size(&self, d: u8) -> Option<u64> {
        match self.disk(d) {
            Some(bytes) => Some(bytes.len() as u64),
            None => None,
        }
    }

    fn make(&mut self, d: u8, len: u64) -> Result<(), Failed>
        requires { d ≤ 20 }
        ensures call { Makes d len result (view_of self.old) (view_of self.new) }
        ensures struck { DiskCall d result self.old self.new }
        ensures effect { MakeEffect d len result self.old self.new }
    {
        let struck = self.is_struck_on(d);
        self.count_on(d);
        if struck {
            self.pass();
            return Err(self.blame(d));
        }
        match self.place(d, len) {
            Ok(()) => Ok(()),
            Err(_) => {
                self.starve();
                Err(self.blame(d))
            }
        }
    }

    fn read(&mut self, d: u8, at: u64, buf: &mut [u8]) -> Result<(), Failed>
        requires disk { d ≤ 20 }
        requires room { Fits (view_of self.old) d (at + length buf.old) }
        ensures call { Reads d at buf.old buf.new result (view_of self.old) (view_of self.new) }
        ensures struck { DiskCall d result self.old self.new }
        ensures effect { ReadEffect d result self.old self.new }
    {
        let struck = self.is_struck_on(d);
        self.count_on(d);
        if struck {
            self.pass();
            return Err(self.blame(d));
        }
        self.copy_out(d, at, buf);
        self.pass();
        Ok(())
    }

    fn write(&mut self, d: u8, at: u64, bytes: &[u8]) -> Result<(), Failed>
        requires disk { d ≤ 20 }
        requires room { Fits (view_of self.old) d (at + length bytes.now) }
        ensures call { Writes d at bytes.now result (view_of self.old) (view_of self.new) }
        ensures struck { DiskCall d result self.old self.new }
        ensures effect { WriteEffect d at bytes.now result self.old self.new }
    {
        let struck = self.is_struck_on(d);
        self.count_on(d);
        if self.is_worn() {
            return Err(self.blame(d));
        }
        match self.lay(d, at, bytes) {
            Ok(()) => { if struck { Err(self.blame(d)) } else { Ok(()) } }
            Err(_) => {
                self.starve();
                Err(self.blame(d))
            }
        }
    }

    fn sync(&mut self, d: u8) -> Result<(), Failed>
        requires disk { d ≤ 20 }
        requires there { Fits (view_of self.old) d 0 }
        ensures call { Syncs d result (view_of self.old) (view_of self.new) }
        ensures struck { DiskCall d result self.old self.new }
        ensures effect { SyncEffect d result self.old self.new }
    {
        let struck = self.is_struck_on(d);
        self.count_on(d);
        if struck {
            self.pass();
            let failed = self.blame(d);
            return Err(failed);
        }
        match self.settle(d) {
            Ok(()) => Ok(()),
            Err(_) => {
                self.starve();
                Err(self.blame(d))
            }
        }
    }

    fn say(&mut self, bytes: &[u8]) -> Result<(), Failed>
        ensures call { Says bytes.now result (view_of self.old) (view_of self.new) }
        ensures struck { PortCall result self.old self.new }
        ensures effect { SayEffect bytes.now result self.old self.new }
    {
        if self.is_struck() {
            self.pass();
            return Err(self.blame_port());
        }
        match self.speak(bytes) {
            Ok(()) => Ok(()),
            Err(_) => {
                self.starve();
                Err(self.blame_port())
            }
        }
    }
}
