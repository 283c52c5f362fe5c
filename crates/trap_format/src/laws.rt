//! Laws of the formats. Each is a function with no body, and its contract is the law.

ghost use Rattle.std.specs.Prelude.{◌≡◌, ℕ, ◌^◌, ◌<◌, List};
ghost use Rattle.trap_format.specs.LogDisk.{IsLogHeader};
ghost use Rattle.trap_format.specs.MemberDisk.{member_header};
ghost use Rattle.trap_format.specs.HeadValue.{IsHeadValue};

use crate::Head;
use trap_model::Geometry;

/// No bytes are the header of two arrays, or of two members, or the value of two heads. So what was
/// written is what is read again.
pub fn spellings()
    ensures logs { (g h : Geometry) (bytes : List ℕ) → g.id < 2 ^ 64 → h.id < 2 ^ 64
        → IsLogHeader g bytes → IsLogHeader h bytes → g ≡ h }
    ensures members { (i j m k : ℕ) → i < 2 ^ 64 → j < 2 ^ 64
        → member_header i m ≡ member_header j k
        → (i ≡ j) × (m ≡ k) }
    ensures heads { (g : Geometry) (h k : Head) (bytes : List ℕ) → IsHeadValue g h bytes
        → IsHeadValue g k bytes
        → h ≡ k }
{}
