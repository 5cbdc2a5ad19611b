ghost use Rattle.std.specs.Prelude.{◌≢◌, ℕ, ◌≤◌, bit_xor, count_ones, ◌≡◌, ◌^◌, ◌<◌};
ghost use Rattle.pocsag_words.specs.declared.codeword.Kind.TheVariants.{Message};
ghost use Rattle.pocsag_words.specs.Codeword.{IsCodeword};
ghost use Rattle.pocsag_words.specs.Kinds.{address_kind, kind_of};

/// Two different codewords differ in at least six of their bits.
pub fn codewords_differ()
    ensures { (v w : ℕ) → IsCodeword v → IsCodeword w → v ≢ w → 6 ≤ count_ones (bit_xor v w) }
{}

/// Each address with a function, and each message, has a codeword, and codewords of one kind are one.
pub fn kinds_have_one_codeword()
    ensures address { (high function : ℕ) → high < 2 ^ 18 → function < 4 →
        (w : ℕ) × IsCodeword w × (kind_of w ≡ address_kind high function) }
    ensures message { (bits : ℕ) → bits < 2 ^ 20 → (w : ℕ) × IsCodeword w × (kind_of w ≡ Message bits) }
    ensures one { (v w : ℕ) → IsCodeword v → IsCodeword w → kind_of v ≡ kind_of w → v ≡ w }
{}
