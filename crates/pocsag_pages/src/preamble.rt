ghost use Rattle.std.specs.Prelude.{◌≡◌, ◌≤◌, length};
ghost use Rattle.pocsag_pages.specs.Bytes.{leading};

use pocsag_words::PREAMBLE_BYTE;

/// How many bytes AA stand first.
pub fn preamble_len(bytes: &[u8]) -> usize
    ensures value { result ≡ leading bytes.now }
    ensures within { result ≤ length bytes.now }
{
    for (count, byte) in bytes.iter().enumerate() {
        if *byte != PREAMBLE_BYTE {
            return count;
        }
    }
    bytes.len()
}
