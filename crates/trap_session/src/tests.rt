//! What a session replies to an input, and how it ends.

ghost use Rattle.std.specs.Prelude.{◌≡◌, false};
ghost use Rattle.trap_array.specs.Calls.{IsReady};

use crate::{Ended, Session, SessionFault};
use std::alloc::{AllocError, Global};
use std::test::Fail;
use trap_array::{Array, create};
use trap_bank::{Bank, MemoryBank, MemorySource};
use trap_model::Geometry;

const ZEROS: &str = "is 00000000000000000000000000000000\n";

/// Three members of four rows.
fn eight_blocks() -> Geometry
    ensures { result.slots ≡ 1 }
{
    Geometry {
        id: 7,
        members: 3,
        chunk: 1,
        block: 16,
        rows: 4,
        slots: 1,
        gap: 2,
        entries: 8,
        ring: 2048,
    }
}

/// Serves the input over the array.
fn serves<B: Bank>(
    alloc: Global,
    mut array: Array,
    bank: &mut B,
    input: &str,
) -> Result<Result<Ended, SessionFault>, AllocError>
    requires running { array.is_stopped ≡ false }
    requires ready { IsReady array (B.view bank.old) }
{
    let mut source = MemorySource::new(alloc, input.as_bytes())?;
    let session = Session::new(alloc, &array.geometry())?;
    Ok(session.serve(&mut array, bank, &mut source))
}

#[test]
fn a_last_line_without_a_line_feed_is_answered(rt: HostRuntime) -> Result<(), Fail> {
    for (input, ended, said) in [
        ("R 0\nQ\nR 0\n", Ended::Quit, ZEROS),
        ("R 0\nQ", Ended::Quit, ZEROS),
        ("Q", Ended::Quit, ""),
        ("R 0\n", Ended::Input, ZEROS),
        ("R 0", Ended::Input, ZEROS),
        ("R 8", Ended::Input, "no block\n"),
    ] {
        let mut bank = MemoryBank::new(rt.alloc())?;
        assert_eq!(rt; create(&mut bank, &eight_blocks()), Ok(()));
        let array = Array::mount(rt.alloc(), &mut bank)?;
        assert_eq!(rt;
            serves(rt.alloc(), array, &mut bank, input)?,
            Ok(ended),
            "{input}"
        );
        assert!(rt; bank.said() == said.as_bytes(), "{input}");
    }
    Ok(())
}
