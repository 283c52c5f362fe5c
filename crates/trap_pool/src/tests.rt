ghost use Rattle.std.specs.Prelude.{◌≡◌, ◌∷◌, [], length};
ghost use Rattle.trap_block.specs.Xor.{xor};
ghost use Rattle.trap_pool.specs.Frames.{AreLeases, Only};
ghost use Rattle.trap_pool.specs.Pooled.{pool_block, free_of};

use crate::{Lease, Pool};
use std::test::Fail;

// Whether no lease is to be had. The pool is left as it was.
fn is_used_up(pool: &mut Pool) -> bool
    requires { free_of pool.old ≡ 0 }
    ensures { pool.new ≡ pool.old }
{
    match pool.take() {
        Some(lease) => {
            pool.give(lease);
            false
        }
        None => true,
    }
}

// Into one block the exclusive-or with bytes that pass through another.
fn mix(pool: &mut Pool, into: &Lease, scratch: &Lease, bytes: &[u8])
    requires leases { AreLeases pool.old (into.now ∷ scratch.now ∷ []) }
    requires size { length bytes.now ≡ pool.old.size }
    ensures mixed { pool_block pool.new into.now ≡ xor (pool_block pool.old into.now) bytes.now }
    ensures rest { Only (into.now ∷ scratch.now ∷ []) pool.old pool.new }
{
    pool.bytes_mut(scratch).copy_from_slice(bytes);
    pool.xor(into, scratch);
}

#[test]
fn two_blocks_give_two_leases_and_one_again_after_a_give(rt: HostRuntime) -> Result<(), Fail> {
    let mut pool = Pool::new(rt.alloc(), 2, 16)?;
    assert_eq!(rt; pool.free(), 2);
    let Some(first) = pool.take() else {
        unreachable!();
    };
    let Some(second) = pool.take() else {
        unreachable!();
    };
    assert_eq!(rt; pool.free(), 0);
    assert!(rt; is_used_up(&mut pool));
    pool.give(first);
    assert_eq!(rt; pool.free(), 1);
    let Some(third) = pool.take() else {
        unreachable!();
    };
    assert!(rt; is_used_up(&mut pool));
    pool.give(second);
    pool.give(third);
    assert_eq!(rt; pool.free(), 2);
    Ok(())
}

#[test]
fn a_change_through_one_lease_leaves_the_other_block(rt: HostRuntime) -> Result<(), Fail> {
    let mut pool = Pool::new(rt.alloc(), 2, 16)?;
    let Some(first) = pool.take() else {
        unreachable!();
    };
    let Some(second) = pool.take() else {
        unreachable!();
    };
    assert_eq!(rt; pool.bytes(&first), [0; 16].as_slice());
    assert_eq!(rt; pool.bytes(&second), [0; 16].as_slice());
    pool.bytes_mut(&first).fill(0x0f);
    assert_eq!(rt; pool.bytes(&second), [0; 16].as_slice());
    pool.bytes_mut(&second).fill(0x35);
    assert_eq!(rt; pool.bytes(&first), [0x0f; 16].as_slice());
    pool.xor(&first, &second);
    assert_eq!(rt; pool.bytes(&first), [0x3a; 16].as_slice());
    assert_eq!(rt; pool.bytes(&second), [0x35; 16].as_slice());
    mix(&mut pool, &first, &second, &[0xff; 16]);
    assert_eq!(rt; pool.bytes(&first), [0xc5; 16].as_slice());
    assert_eq!(rt; pool.bytes(&second), [0xff; 16].as_slice());
    pool.copy(&second, &first);
    assert_eq!(rt; pool.bytes(&first), [0xc5; 16].as_slice());
    assert_eq!(rt; pool.bytes(&second), [0xc5; 16].as_slice());
    pool.give(second);
    pool.give(first);
    Ok(())
}
