//! The law of comparisons: the contract of a function with nothing to do.
ghost use Rattle.std.specs.Prelude.{ℕ, List};
ghost use Rattle.art_path.specs.Compared.{IsDetermined};

/// Bytes stand to those of a key in one way alone.
pub fn comparisons_are_determined()
    ensures { (bytes : ℕ → ℕ) (count : ℕ) (key : List ℕ) (from : ℕ) → IsDetermined bytes count key from }
{}
