//! Laws of exclusive-or, for every crate above.

ghost use Rattle.std.specs.Prelude.{◌≡◌, ℕ, ◌<◌, List, length};
ghost use Rattle.trap_block.specs.Xor.{xor, zeros, xor_over, xor_but, HaveSize};

/// The algebra of exclusive-or on lists of bytes.
pub fn exclusive_or()
    ensures commutes { (xs ys : List ℕ) → xor xs ys ≡ xor ys xs }
    ensures associates { (xs ys zs : List ℕ) → xor (xor xs ys) zs ≡ xor xs (xor ys zs) }
    ensures undoes { (xs ys : List ℕ) → length xs ≡ length ys → xor xs (xor xs ys) ≡ ys }
    ensures itself { (xs : List ℕ) → xor xs xs ≡ zeros (length xs) }
    ensures zero { (xs : List ℕ) → xor xs (zeros (length xs)) ≡ xs }
    ensures size { (xs ys : List ℕ) → length ys ≡ length xs → length (xor xs ys) ≡ length xs }
{}

/// Where the exclusive-or over all members is zero, each member's block is the exclusive-or of the
/// others', and the other way round.
pub fn members()
    ensures one { (size n one : ℕ) (block_of : ℕ → List ℕ) → HaveSize size block_of n → one < n →
        xor_over size block_of n ≡ zeros size → block_of one ≡ xor_but size one block_of n }
    ensures all { (size n one : ℕ) (block_of : ℕ → List ℕ) → HaveSize size block_of n → one < n →
        block_of one ≡ xor_but size one block_of n → xor_over size block_of n ≡ zeros size }
{}
