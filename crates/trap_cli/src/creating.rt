//! The command `create`.

ghost use Rattle.std.specs.Prelude.{◌≡◌, None, true};
ghost use Rattle.trap_bank.specs.Stream.{Stream};
ghost use Rattle.trap_bank.specs.Calls.{Says};
ghost use Rattle.trap_model.specs.declared.asked.Asked.{Asked};
ghost use Rattle.trap_format.specs.Checked.{first_broken, HasNumbers};
ghost use Rattle.trap_cli.specs.Command.{command_create};
ghost use Rattle.trap_cli.specs.Ended.{created_line, leaves_disks};
ghost use Rattle.trap_cli.specs.Run.{CommandOutcome};

use crate::last::write_created;
use crate::outcome::Ended;
use trap_array::create;
use trap_bank::{Bank, Failed};
use trap_format::check;
use trap_model::{Asked, Geometry};

/// Makes an array, and says that it is made. All but the last line of the run.
pub fn run_create<B: Bank>(bank: &mut B, asked: &Asked) -> Ended
    ensures outcome { (from : Stream) → CommandOutcome (command_create asked.now) result
        (B.view bank.old) (B.view bank.new) from from }
    ensures untouched { leaves_disks result ≡ true → bank.new ≡ bank.old }
{
    match check(asked) {
        Ok(g) => make_array(bank, &g),
        Err(bad) => Ended::BadGeometry(bad.field),
    }
}

// Makes the array of these numbers, and says so.
fn make_array<B: Bank>(bank: &mut B, g: &Geometry) -> Ended
    requires one_slot { g.now.slots ≡ 1 }
    ensures outcome { (asked : Asked) (from : Stream) → first_broken asked ≡ None
        → HasNumbers g.now asked → CommandOutcome (command_create asked) result
        (B.view bank.old) (B.view bank.new) from from }
    ensures untouched { leaves_disks result ≡ true → bank.new ≡ bank.old }
{
    if let Err(why) = create(bank, g) {
        return Ended::NotCreated(why);
    }
    // The array is whole, and stays so over a crash, before its line is said.
    match say_created(bank, g.id) {
        Ok(()) => Ended::Done,
        Err(_) => Ended::Port,
    }
}

fn say_created<B: Bank>(bank: &mut B, id: u64) -> Result<(), Failed>
    ensures { Says (created_line id) result (B.view bank.old) (B.view bank.new) }
{
    let mut line = [0u8; 64];
    let len = write_created(id, &mut line);
    bank.say(&line[..len])
}
