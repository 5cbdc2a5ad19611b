ghost use Rattle.std.specs.Prelude.{◌≡◌, ◌<◌, ◌^◌, ◌∷◌, ◌++◌, OnOk};
ghost use Rattle.pocsag_show.specs.Marks.{head, opened, rectangle, tail};
ghost use Rattle.pocsag_show.specs.Numbers.{turn};

use crate::letters::{LETTERS, letter_of};
use crate::pieces::{put, put_printed};
use crate::style::HUES;
use std::alloc::AllocError;

/// Writes the label of a page: its letter, which is given, and from the second time on how many times that came.
#[tactic(auto, unfolding(crate::specs::Numbers::turn))]
pub(crate) fn put_label(text: &mut Vec<u8>, letter: u8, number: usize) -> Result<(), AllocError>
    ensures { OnOk result (text.new.items ≡ text.old.items ++ letter ∷ turn number) }
{
    put(text, &[letter])?;
    if number < LETTERS {
        return Ok(());
    }
    put_printed(text, number / LETTERS + 1)
}

/// Writes a rectangle over codewords.
#[tactic(auto, unfolding(crate::specs::Marks::rectangle))]
pub(crate) fn put_rectangle(
    text: &mut Vec<u8>,
    x: u128,
    y: u128,
    width: u128,
) -> Result<(), AllocError>
    ensures { OnOk result (text.new.items ≡ text.old.items ++ rectangle x y width) }
{
    put_printed(
        text,
        format_args!("<rect x='{x}' y='{y}' width='{width}' height='18'/>"),
    )
}

/// Writes the address codeword of a page with this number, at a place.
pub(crate) fn put_head(
    text: &mut Vec<u8>,
    x: u128,
    y: u128,
    number: usize,
) -> Result<(), AllocError>
    requires left { x < 2 ^ 127 }
    requires top { y < 2 ^ 127 }
    ensures { OnOk result (text.new.items ≡ text.old.items ++ head x y number) }
{
    let (middle, base) = (x + 12, y + 13);
    put_printed(
        text,
        format_args!(
            "<rect class='k' x='{x}' y='{y}' width='24' height='18'/><text class='l' x='{middle}' y='{base}'>"
        ),
    )?;
    put_label(text, letter_of(b'A', number), number)?;
    put(text, b"</text>")
}

/// Writes the label of a page with this number in small, at a place.
#[tactic(auto, unfolding(crate::specs::Marks::tail))]
pub(crate) fn put_tail(
    text: &mut Vec<u8>,
    x: u128,
    y: u128,
    number: usize,
) -> Result<(), AllocError>
    requires left { x < 2 ^ 127 }
    requires top { y < 2 ^ 127 }
    ensures { OnOk result (text.new.items ≡ text.old.items ++ tail x y number) }
{
    let (middle, base) = (x + 12, y + 13);
    put_printed(
        text,
        format_args!("<text class='m' x='{middle}' y='{base}'>"),
    )?;
    put_label(text, letter_of(b'a', number), number)?;
    put(text, b"</text>")
}

/// Opens the group of a page with this number.
#[tactic(auto, unfolding(crate::specs::Marks::opened))]
pub(crate) fn put_opened(text: &mut Vec<u8>, number: usize) -> Result<(), AllocError>
    ensures { OnOk result (text.new.items ≡ text.old.items ++ opened number) }
{
    let hue = number % HUES;
    put_printed(text, format_args!("<g class='p{hue}'>"))
}
