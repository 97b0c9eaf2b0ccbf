//! What the words of the command line are read as.
ghost use Rattle.std.specs.Prelude.{◌≡◌, ◌<◌, ◌≤◌, ◌^◌, ℕ, List as Seq, Some};
ghost use Rattle.std.specs.Fmt.{decimal};
ghost use Rattle.fs_words.specs.Numbers.{number_in};

/// A number is read of its one decimal form, where it is within the limit, and of nothing else.
pub fn numbers_are_decimals()
    ensures form { (most n : ℕ) (text : Seq ℕ) → most < 2 ^ 64 → number_in most text ≡ Some n →
        (text ≡ decimal n) × (n ≤ most) }
    ensures read { (most n : ℕ) → most < 2 ^ 64 → n ≤ most → number_in most (decimal n) ≡ Some n }
{}
