ghost use Rattle.std.specs.Prelude.{◌≡◌, ℕ, ◌^◌, ◌<◌, ◌≤◌, [], ◌++◌, All, IfOk};
ghost use Rattle.std.specs.List.{flat_map};
ghost use Rattle.pocsag_text.specs.Bits.{low_first, high_first, item_width};
ghost use Rattle.pocsag_text.specs.Text.{codes_of};

use crate::character::mirrored;
use crate::packer::ITEM_WIDTH;
use pocsag_words::OutOfMemory;
use std::marker::Model;

/// Bits in the order in which they are sent, as codes of W bits each, the lowest first, and fewer
/// bits that wait.
#[derive(Drop)]
pub struct Unpacker<const W: u32> {
    codes: Vec<u8>,
    // The bits that wait, the first one highest, and their number.
    held: u32,
    count: u32,
}

impl<const W: u32> Model for Unpacker<W> {
    ghost use Rattle.std.specs.Prelude.{ℕ, List};
    ghost use Rattle.pocsag_text.specs.Packers.{unpacked_bits, IsUnpacked};

    ghost Value = { List ℕ };

    ghost view = { λ u. unpacked_bits W u.codes.items u.count u.held };

    ghost invariant = { λ u. IsUnpacked W u.codes.items u.count u.held };
}

impl<const W: u32> Unpacker<W> {
    /// The bits of these codes.
    pub fn from_codes(codes: Vec<u8>) -> Unpacker<W>
        requires wide { 0 < W }
        requires narrow { W ≤ 8 }
        requires small { All (λ code. code < 2 ^ W) codes.items }
        ensures { result ≡ flat_map (low_first W) codes.items }
    {
        Unpacker {
            codes,
            held: 0,
            count: 0,
        }
    }

    /// Puts the bits of an item behind the others.
    pub fn with(self, item: u32) -> Result<Unpacker<W>, OutOfMemory>
        requires { item < 2 ^ item_width }
        ensures { IfOk result (λ u. u ≡ self.entry ++ high_first item_width item) }
    {
        let mut codes = self.codes;
        let mut held = self.held << ITEM_WIDTH | item;
        let mut count = self.count + ITEM_WIDTH;
        while count >= W {
            count -= W;
            codes.push(mirrored(W, (held >> count) as u8))?;
            held &= (1 << count) - 1;
        }
        Ok(Unpacker { codes, held, count })
    }

    /// The codes, without the bits that wait.
    pub fn into_codes(self) -> Vec<u8>
        ensures codes { result.items ≡ codes_of W self.entry }
        ensures small { All (λ code. code < 2 ^ W) result.items }
    {
        self.codes
    }
}
