//! The numbers of the calls that are to fail.

ghost use Rattle.std.specs.Prelude.{◌≡◌, ◌↔◌, ◌∷◌, ◌-◌, ◌<◌, Contains, IsTrue, length, replicate};
ghost use Rattle.std.specs.Prelude.{take};

/// The last eight numbers that were given, the newest first. A 0 stands for none.
#[derive(Debug, Drop)]
pub(crate) struct Chosen {
    pub numbers: [u64; 8],
}

impl Chosen {
    pub(crate) fn new() -> Chosen
        ensures { result.numbers ≡ replicate 8 0 }
    {
        Chosen { numbers: [0; 8] }
    }

    /// The number joins the others, and the oldest of them goes.
    pub(crate) fn add(&mut self, number: u64)
        ensures { self.new.numbers ≡ number ∷ take 7 self.old.numbers }
    {
        put_first(&mut self.numbers, number);
    }

    pub(crate) fn has(&self, number: u64) -> bool
        ensures { IsTrue result ↔ Contains self.now.numbers number }
    {
        self.numbers.contains(&number)
    }
}

/// The number comes before the others, and the last of them goes.
fn put_first(numbers: &mut [u64], number: u64)
    requires { 0 < length numbers.old }
    ensures { numbers.new ≡ number ∷ take (length numbers.old - 1) numbers.old }
{
    numbers.rotate_right(1);
    numbers[0] = number;
}
