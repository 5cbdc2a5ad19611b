ghost use Rattle.std.specs.Prelude.{◌≡◌, ℕ, ◌+◌, ◌-◌, ◌*◌, ◌/◌, ◌%◌, ◌^◌, ◌<◌, ◌≤◌, length};
ghost use Rattle.pocsag_capture.specs.Bits.{capture_bits, word_on};

// The words of 32 bits.
const WORD_RANGE: u64 = 1 << 32;

// One of the eight words that begin in the first byte of a window of 40 bits, by its first bit.
#[inline(always)]
pub(crate) fn word_in(window: u64, bit: u32) -> u32
    requires window { window < 2 ^ 40 }
    requires bit { bit < 8 }
    ensures { result ≡ window / 2 ^ (8 - bit) % 2 ^ 32 }
{
    ((window >> (8 - bit)) % WORD_RANGE) as u32
}

// The 40 bits from a byte on, as a number; of 32 bits that are the last the other eight are 0.
#[inline(always)]
pub(crate) fn window_on(capture: &[u8], at: usize) -> u64
    requires { at + 4 ≤ length capture.now }
    ensures small { result < 2 ^ 40 }
    ensures words { (bit : ℕ) → bit < 8 → 8 * at + bit + 32 ≤ 8 * length capture.now →
        word_on (capture_bits capture.now) (8 * at + bit) ≡ result / 2 ^ (8 - bit) % 2 ^ 32 }
{
    let front = u32::from_be_bytes([
        capture[at],
        capture[at + 1],
        capture[at + 2],
        capture[at + 3],
    ]);
    let last = if at + 4 < capture.len() {
        capture[at + 4]
    } else {
        0
    };
    256 * u64::from(front) + u64::from(last)
}

// The word from a bit on.
pub(crate) fn word_on(capture: &[u8], bit: u64) -> u32
    requires { bit + 32 ≤ 8 * length capture.now }
    ensures { result ≡ word_on (capture_bits capture.now) bit }
{
    word_in(window_on(capture, (bit / 8) as usize), (bit % 8) as u32)
}
