//! Laws of codewords: a call of one of them costs nothing, and gives a proof its clause.
ghost use Rattle.std.specs.Prelude.{◌⊎◌, ℕ, ◌^◌, ◌<◌};
ghost use Rattle.pocsag_words.specs.Codeword.{HasNoneNear, IsOnlyNear};

/// Each number has a repair: just one codeword differs from it in at most two bits, or none does.
pub fn numbers_are_repaired()
    ensures { (n : ℕ) → n < 2 ^ 32 → HasNoneNear n ⊎ ((v : ℕ) × IsOnlyNear n v) }
{}
