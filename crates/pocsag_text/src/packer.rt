ghost use Rattle.std.specs.Prelude.{◌≡◌, ℕ, ◌+◌, ◌*◌, ◌%◌, ◌^◌, ◌<◌, ◌≤◌, [], ◌++◌, length, replicate, All, IfOk, OnOk};
ghost use Rattle.std.specs.List.{flat_map};
ghost use Rattle.pocsag_text.specs.Bits.{low_first, item_width, item_bits, IsCodeOf, AreItems};
ghost use Rattle.pocsag_text.specs.Text.{twenties};

use crate::character::mirrored;
use pocsag_words::OutOfMemory;
use std::marker::Model;

/// The bits of an item.
pub const ITEM_WIDTH: u32 = 20;

/// Bits in the order in which they are sent, as items and fewer than twenty bits that wait.
#[derive(Drop)]
pub struct Packer {
    items: Vec<u32>,
    // The bits that wait, the first one highest, and their number.
    held: u32,
    count: u32,
}

impl Model for Packer {
    ghost use Rattle.std.specs.Prelude.{ℕ, List};
    ghost use Rattle.pocsag_text.specs.Packers.{packed_bits, IsPacked};

    ghost Value = { List ℕ };

    ghost view = { λ p. packed_bits p.items.items p.count p.held };

    ghost invariant = { λ p. IsPacked p.items.items p.count p.held };
}

impl Packer {
    /// The bits of these items.
    pub fn from_items(items: Vec<u32>) -> Packer
        requires { AreItems items.items }
        ensures { result ≡ item_bits items.items }
    {
        Packer {
            items,
            held: 0,
            count: 0,
        }
    }

    /// Appends the lowest bits of a code, the lowest one first.
    pub fn push(&mut self, width: u32, code: u8) -> Result<(), OutOfMemory>
        requires { IsCodeOf width code }
        ensures { OnOk result (self.new ≡ self.old ++ low_first width code) }
    {
        let held = self.held << width | u32::from(mirrored(width, code));
        let count = self.count + width;
        if count < ITEM_WIDTH {
            self.held = held;
            self.count = count;
            return Ok(());
        }
        let rest = count - ITEM_WIDTH;
        self.items.push(held >> rest)?;
        self.held = held & ((1 << rest) - 1);
        self.count = rest;
        Ok(())
    }

    /// Appends the lowest bits of a code this many times.
    pub fn push_times(&mut self, width: u32, code: u8, times: usize) -> Result<(), OutOfMemory>
        requires { IsCodeOf width code }
        ensures { OnOk result
            (self.new ≡ self.old ++ flat_map (low_first width) (replicate times code)) }
    {
        for _time in 0..times {
            self.push(width, code)?;
        }
        Ok(())
    }

    /// The items, where no bits wait.
    pub fn into_items(self) -> Vec<u32>
        requires { length self % item_width ≡ 0 }
        ensures items { result.items ≡ twenties self }
        ensures small { AreItems result.items }
    {
        self.items
    }
}
