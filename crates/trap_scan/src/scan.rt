//! A scan: the records of a ring, one after the other.

ghost use Rattle.std.specs.Prelude.{◌≡◌, ◌≤◌};
ghost use Rattle.trap_scan.specs.Window.{HasBuffer};

mod taking;

use crate::Expected;
use crate::window::Window;

/// The records of a ring, of which those up to the number `seq` are taken. It takes no memory after
/// it is made.
#[derive(Drop)]
pub struct Scan {
    expected: Expected,
    seq: u64,
    time: u64,
    window: Window,
    ghost sized: { expected.size ≤ 4096 },
    ghost numbered: { seq ≤ expected.last },
    ghost placed: { window.end ≡ expected.end_off },
    ghost buffered: { HasBuffer expected.size window },
}
