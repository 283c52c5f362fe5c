//! What a cache gives back. Each law is a function with no body, and its contract is the law.

ghost use Rattle.std.specs.Prelude.{◌≡◌, ℕ, ◌<◌, List, length, Some};
ghost use Rattle.trap_cache.specs.Cached.{Cached, bytes_under, after_get, after_keep, IsOther};

/// What is got is what was kept. Under another pair nothing appears and nothing changes, and with
/// room left nothing goes.
pub fn keeps()
    ensures kept { (c : Cached) (block seq : ℕ) (bytes : List ℕ)
        → bytes_under block seq (after_keep block seq bytes c).kept ≡ Some bytes }
    ensures others { (c : Cached) (block seq b s : ℕ) (bytes was : List ℕ)
        → IsOther block seq b s → bytes_under b s (after_keep block seq bytes c).kept ≡ Some was
        → bytes_under b s c.kept ≡ Some was }
    ensures room { (c : Cached) (block seq b s : ℕ) (bytes : List ℕ)
        → IsOther block seq b s → length c.kept < 16
        → bytes_under b s (after_keep block seq bytes c).kept ≡ bytes_under b s c.kept }
{}

/// A look-up changes no pair's bytes, and loses none.
pub fn gets()
    ensures { (c : Cached) (block seq b s : ℕ)
        → bytes_under b s (after_get block seq c).kept ≡ bytes_under b s c.kept }
{}
