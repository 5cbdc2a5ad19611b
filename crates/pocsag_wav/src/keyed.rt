use pocsag_pages::preamble_len;
use pocsag_words::PREAMBLE_BYTE;
use std::marker::Model;

// The levels, a quarter of the greatest sample, so that filters behind the sound have room.
const HIGH: i16 = 8_000;

const LOW: i16 = -8_000;

/// The bytes of a transmission as they are keyed. A contract sees them as their list.
#[derive(Drop)]
pub(crate) struct Keyed<'a> {
    // How many bytes of preamble there are.
    preamble: usize,
    batches: &'a [u8],
}

impl<'a> Model for Keyed<'a> {
    ghost use Rattle.std.specs.Prelude.{ℕ, ◌<◌, ◌^◌, List, ◌++◌, replicate};
    ghost use Rattle.pocsag_words.specs.Frame.{preamble_byte};

    ghost Value = { List ℕ };

    ghost view = { λ k. replicate k.preamble preamble_byte ++ k.batches.now };

    ghost invariant = { λ k. k.preamble < 2 ^ 63 };
}

impl<'a> Keyed<'a> {
    ghost use Rattle.std.specs.Prelude.{◌≡◌, ◌*◌, length};
    ghost use Rattle.pocsag_wav.specs.Levels.{keyed_bytes, level_at};

    /// The bytes of a transmission, with so many bits of preamble if that is asked for.
    pub(crate) fn new(preamble: Option<u32>, bytes: &'a [u8]) -> Keyed<'a>
        ensures { result ≡ keyed_bytes preamble bytes.now }
    {
        let own = preamble_len(bytes);
        let (_, batches) = bytes.split_at(own);
        let preamble = match preamble {
            Some(bits) => bits as usize / 8,
            None => own,
        };
        Keyed { preamble, batches }
    }

    /// How many bits they have.
    pub(crate) fn bits(&self) -> u128
        ensures { result ≡ 8 * length self.now }
    {
        8 * (self.preamble as u128 + self.batches.len() as u128)
    }

    /// The level of a bit by its place; behind the last there is silence.
    pub(crate) fn level(&self, is_inverted: bool, place: u64) -> i16
        ensures { result ≡ level_at is_inverted self.now place }
    {
        let byte = match ((place / 8) as usize).checked_sub(self.preamble) {
            None => Some(PREAMBLE_BYTE),
            Some(index) => self.batches.get(index).copied(),
        };
        match byte {
            None => 0,
            Some(byte) if (byte >> (7 - place % 8)) % 2 == u8::from(is_inverted) => HIGH,
            Some(_) => LOW,
        }
    }
}
