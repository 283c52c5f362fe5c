//! Which blocks are leased.

ghost use Rattle.std.specs.Prelude.{◌≡◌, not, position};

/// The first block that isn't leased.
pub fn first_free(live: &[bool]) -> Option<usize>
    ensures { result ≡ position not live.now }
{
    live.iter().position(|live| !*live)
}
