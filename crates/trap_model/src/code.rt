//! How long the code of a block is.

ghost use Rattle.std.specs.Prelude.{◌≡◌, ℕ, ◌+◌, ◌*◌, ◌^◌, ◌<◌, ◌≤◌, List, [], length};
ghost use Rattle.trap_block.specs.Xor.{xor};
ghost use Rattle.trap_model.specs.Size.{code_of};

/// What the code of a block's last bytes comes to.
#[derive(Clone, Copy)]
struct Run {
    /// How many zero bytes the first segment has.
    zeros: usize,
    /// Whether the first segment has a literal.
    literal: bool,
    /// How many bytes all segments take.
    len: usize,
}

impl Run {
    ghost use Rattle.trap_model.specs.ZeroRun.{Segment};
    ghost use Rattle.trap_model.specs.Size.{zero_before, byte_before};
    ghost use Rattle.trap_model.specs.Runs.{Summarizes};

    /// No segments.
    fn none() -> Run
        ensures segments { Summarizes result [] }
        ensures zeros { result.zeros ≡ 0 }
        ensures len { result.len ≡ 0 }
    {
        Run {
            zeros: 0,
            literal: false,
            len: 0,
        }
    }

    /// With a zero byte in front.
    fn zero_before(self) -> Run
        requires { self.zeros < 4096 }
        ensures segments { (segments : List Segment) → Summarizes self segments
            → Summarizes result (zero_before segments) }
        ensures zeros { result.zeros ≤ self.zeros + 1 }
        ensures len { result.len ≤ self.len + 5 }
    {
        let len = if self.len == 0 { 4 } else { self.len };
        Run {
            zeros: self.zeros + 1,
            literal: self.literal,
            len,
        }
    }

    /// With a nonzero byte in front.
    fn byte_before(self) -> Run
        requires { self.len < 2 ^ 20 }
        ensures segments { (byte : ℕ) (segments : List Segment) → Summarizes self segments
            → Summarizes result (byte_before byte segments) }
        ensures zeros { result.zeros ≤ self.zeros + 1 }
        ensures len { result.len ≤ self.len + 5 }
    {
        let goes_on = self.zeros < 4 && self.literal;
        let more = if goes_on { 1 + self.zeros } else { 5 };
        Run {
            zeros: 0,
            literal: true,
            len: self.len + more,
        }
    }
}

/// How many bytes the code of a block takes.
pub(crate) fn code_len(bytes: &[u8]) -> usize
    requires { length bytes.now ≤ 4096 }
    ensures code { result ≡ length (code_of bytes.now) }
    ensures bound { result ≤ 5 * 4096 }
{
    let mut run = Run::none();
    for i in (0..bytes.len()).rev() {
        run = if bytes[i] == 0 {
            run.zero_before()
        } else {
            run.byte_before()
        };
    }
    run.len
}

/// How many bytes the code of the exclusive-or of two blocks takes.
pub(crate) fn change_len(old: &[u8], fresh: &[u8]) -> usize
    requires same_size { length old.now ≡ length fresh.now }
    requires small { length old.now ≤ 4096 }
    ensures code { result ≡ length (code_of (xor old.now fresh.now)) }
    ensures bound { result ≤ 5 * 4096 }
{
    let mut run = Run::none();
    for i in (0..old.len()).rev() {
        run = if old[i] == fresh[i] {
            run.zero_before()
        } else {
            run.byte_before()
        };
    }
    run.len
}
