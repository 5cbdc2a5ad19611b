//! How a transmission is framed, in numbers: rules of Annex 1 on the preamble and on batches; and how many bytes are
//! read of one (this project's own).
ghost use Rattle.std.specs.Prelude.{◌≡◌, ◌+◌, ◌*◌, ◌^◌, ◌<◌, ◌≤◌};
ghost use Rattle.pocsag_words.specs.Frame.{airtime, transmission_bits};

/// The synchronisation codeword, which stands before each batch, a rule of Annex 1.
pub const SYNC_WORD: u32 = 0x7cd2_15d8;

/// The byte that a preamble repeats: alternating bits, a rule of Annex 1.
pub const PREAMBLE_BYTE: u8 = 0xaa;

/// The fewest bytes of a preamble, a rule of Annex 1.
pub const PREAMBLE_BYTES: usize = 72;

/// The frames of a batch, a rule of Annex 1.
pub const FRAMES: usize = 8;

/// The codewords of a batch, a rule of Annex 1: two in each frame.
pub const BATCH_CODEWORDS: usize = 2 * FRAMES;

/// The words of a batch, a rule of Annex 1: a synchronisation codeword and the codewords.
pub const BATCH_WORDS: u32 = 1 + BATCH_CODEWORDS as u32;

/// The bytes of a batch, four to a word.
pub const BATCH_BYTES: usize = 4 * BATCH_WORDS as usize;

/// The bits of a preamble.
pub const PREAMBLE_BITS: u64 = 8 * PREAMBLE_BYTES as u64;

/// The bits of a batch.
pub const BATCH_BITS: u64 = 8 * BATCH_BYTES as u64;

/// The most bytes of a page file or of a transmission that is read (this project's own).
pub const INPUT_LIMIT: usize = 268_435_456;

/// The bits of a transmission of so many batches with the shortest preamble.
pub fn transmission_bits(batches: u64) -> u128
    ensures { result ≡ transmission_bits batches }
{
    u128::from(PREAMBLE_BITS) + u128::from(BATCH_BITS) * u128::from(batches)
}

/// How long so many bits last at a rate in bits a second: the least whole number of milliseconds.
#[tactic(auto, unfolding(crate::specs::Frame::airtime))]
pub fn airtime(bits: u128, rate: u32) -> u128
    requires some { 0 < rate }
    requires short { bits < 2 ^ 100 }
    ensures value { result ≡ airtime bits rate }
    ensures low { result ≤ 1000 * bits }
    ensures enough { 1000 * bits ≤ rate * result }
    ensures least { rate * result < 1000 * bits + rate }
{
    (1000 * bits).div_ceil(u128::from(rate))
}
