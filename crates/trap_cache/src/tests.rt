ghost use Rattle.std.specs.Prelude.{◌≡◌};

use crate::Cache;
use std::test::Fail;

// Keeps four bytes under a pair.
fn keep(cache: &mut Cache, block: u32, seq: u64, byte: u8)
    requires { cache.old.size ≡ 4 }
    ensures { cache.new.size ≡ 4 }
{
    cache.keep(block, seq, &[byte; 4]);
}

// Whether these four bytes are got.
fn gets(cache: &mut Cache, block: u32, seq: u64, byte: u8) -> bool
    requires { cache.old.size ≡ 4 }
    ensures { cache.new.size ≡ 4 }
{
    match cache.get(block, seq) {
        Some(bytes) => bytes == [byte; 4].as_slice(),
        None => false,
    }
}

// Whether nothing is got.
fn misses(cache: &mut Cache, block: u32, seq: u64) -> bool
    requires { cache.old.size ≡ 4 }
    ensures { cache.new.size ≡ 4 }
{
    cache.get(block, seq).is_none()
}

#[test]
fn what_is_got_is_what_was_kept(rt: HostRuntime) -> Result<(), Fail> {
    let mut cache = Cache::new(rt.alloc(), 4)?;
    assert!(rt; misses(&mut cache, 0, 0));
    keep(&mut cache, 7, 3, 11);
    keep(&mut cache, 7, 4, 12);
    keep(&mut cache, 3, 7, 13);
    assert!(rt; gets(&mut cache, 7, 3, 11));
    assert!(rt; gets(&mut cache, 7, 4, 12));
    assert!(rt; gets(&mut cache, 3, 7, 13));
    assert!(rt; misses(&mut cache, 3, 4));
    assert!(rt; misses(&mut cache, 0, 0));
    keep(&mut cache, 7, 3, 14);
    assert!(rt; gets(&mut cache, 7, 3, 14));
    Ok(())
}

#[test]
fn the_seventeenth_takes_the_place_of_the_one_used_least_recently(
    rt: HostRuntime,
) -> Result<(), Fail> {
    let mut cache = Cache::new(rt.alloc(), 4)?;
    for i in 0..16 {
        keep(&mut cache, 1, i, i as u8);
    }
    assert!(rt; gets(&mut cache, 1, 0, 0));
    keep(&mut cache, 1, 16, 99);
    assert!(rt; gets(&mut cache, 1, 0, 0));
    assert!(rt; misses(&mut cache, 1, 1));
    assert!(rt; gets(&mut cache, 1, 2, 2));
    assert!(rt; gets(&mut cache, 1, 15, 15));
    assert!(rt; gets(&mut cache, 1, 16, 99));
    Ok(())
}
