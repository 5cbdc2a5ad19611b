ghost use Rattle.std.specs.Prelude.{◌≡◌, ℕ, ◌^◌, ◌<◌, ◌≤◌, List, ◌++◌, length, map, take, All, IfOk, IsSome};
ghost use Rattle.std.specs.List.{flat_map};
ghost use Rattle.pocsag_text.specs.Bits.{low_first, high_first, alpha_width, item_bits, AreItems};
ghost use Rattle.pocsag_text.specs.Characters as numeric;
ghost use Rattle.pocsag_text.specs.Text.{numeric_payload, alpha_payload, numeric_text, alpha_text, codes_of, trim_end};

use crate::character::{ALPHA_WIDTH, NUMERIC_CHARACTERS, NUMERIC_WIDTH, mirrored};
use crate::unpacker::Unpacker;
use pocsag_words::OutOfMemory;
use std::alloc::Global;

/// The text of a numeric payload, whose items are below 1,048,576. Spaces at its end are dropped.
pub fn unpack_numeric(alloc: Global, items: &[u32]) -> Result<Vec<u8>, OutOfMemory>
    requires { AreItems items.now }
    ensures text { IfOk result (λ v. v.items ≡ numeric_text items.now) }

    // A text that was packed comes back without the spaces at its end.
    ensures back { IfOk result
        (λ v. (t : List ℕ) → numeric_payload t ≡ Ok items.now → v.items ≡ trim_end numeric.space t) }
    ensures allowed { IfOk result (λ v. All (λ c. IsSome (numeric.code_of c)) v.items) }
{
    let codes = codes_of::<NUMERIC_WIDTH>(Vec::new(alloc), items)?;
    let mut text = characters_of(codes);
    let len = trimmed_len(&text, b' ');
    text.truncate(len);
    Ok(text)
}

/// The text of an alphanumeric payload, whose items are below 1,048,576. An incomplete last
/// character is dropped, and then zero codes at the end; zero codes inside are kept.
pub fn unpack_alpha(alloc: Global, items: &[u32]) -> Result<Vec<u8>, OutOfMemory>
    requires { AreItems items.now }
    ensures text { IfOk result (λ v. v.items ≡ alpha_text items.now) }

    // A text that was packed comes back.
    ensures back { IfOk result (λ v. (t : List ℕ) → alpha_payload t ≡ Ok items.now → v.items ≡ t) }
    ensures allowed { IfOk result (λ v. All (λ c. c < 128) v.items) }
{
    let mut text = alpha_codes(alloc, items)?;
    let len = trimmed_len(&text, 0);
    text.truncate(len);
    Ok(text)
}

/// These codes of W bits each, and behind them those that the items hold, without an incomplete last one.
fn codes_of<const W: u32>(codes: Vec<u8>, items: &[u32]) -> Result<Vec<u8>, OutOfMemory>
    requires wide { 0 < W }
    requires narrow { W ≤ 8 }
    requires begun { All (λ code. code < 2 ^ W) codes.items }
    requires small { AreItems items.now }
    ensures codes { IfOk result
        (λ v. v.items ≡ codes_of W (flat_map (low_first W) codes.items ++ item_bits items.now)) }
    ensures small { IfOk result (λ v. All (λ code. code < 2 ^ W) v.items) }
{
    let mut unpacker = Unpacker::<W>::from_codes(codes);
    for item in items {
        unpacker = unpacker.with(*item)?;
    }
    Ok(unpacker.into_codes())
}

/// The codes of seven bits each that the items hold, without an incomplete last one: twenty of seven
/// items at a time.
fn alpha_codes(alloc: Global, items: &[u32]) -> Result<Vec<u8>, OutOfMemory>
    requires { AreItems items.now }
    ensures codes { IfOk result (λ v. v.items ≡ codes_of alpha_width (item_bits items.now)) }
    ensures small { IfOk result (λ v. All (λ code. code < 128) v.items) }
{
    let count = items.len() / 7 * 20 + items.len() % 7 * 20 / 7;
    let mut codes = Vec::with_capacity(alloc, count)?;
    let mut rest = items;
    while rest.len() >= 7 {
        let groups = [
            codes_of_group(rest[0] * 0x100 + rest[1] / 0x1000),
            codes_of_group(rest[1] % 0x1000 * 0x1_0000 + rest[2] / 0x10),
            codes_of_group(rest[2] % 0x10 * 0x100_0000 + rest[3] * 0x10 + rest[4] / 0x1_0000),
            codes_of_group(rest[4] % 0x1_0000 * 0x1000 + rest[5] / 0x100),
            codes_of_group(rest[5] % 0x100 * 0x10_0000 + rest[6]),
        ];
        codes.extend_from_slice(groups.as_flattened())?;
        rest = &rest[7..];
    }
    codes_of::<ALPHA_WIDTH>(codes, rest)
}

/// The four codes of 28 bits, of which the first bit is the highest.
fn codes_of_group(bits: u32) -> [u8; 4]
    requires { bits < 2 ^ 28 }
    ensures bits { flat_map (low_first alpha_width) result ≡ high_first 28 bits }
    ensures small { All (λ code. code < 128) result }
{
    [
        mirrored(ALPHA_WIDTH, (bits / 0x20_0000) as u8),
        mirrored(ALPHA_WIDTH, (bits / 0x4000 % 0x80) as u8),
        mirrored(ALPHA_WIDTH, (bits / 0x80 % 0x80) as u8),
        mirrored(ALPHA_WIDTH, (bits % 0x80) as u8),
    ]
}

/// The numeric characters of the codes, in the memory of the codes.
#[tactic(auto, unfolding(crate::specs::Characters::numeric_characters))]
fn characters_of(mut codes: Vec<u8>) -> Vec<u8>
    requires { All (λ code. code < 16) codes.items }
    ensures { result.items ≡ map numeric.character_of codes.items }
{
    for code in codes.iter_mut() {
        *code = NUMERIC_CHARACTERS[*code as usize];
    }
    codes
}

/// The length of a text without what is unwanted at its end.
fn trimmed_len(text: &[u8], unwanted: u8) -> usize
    ensures within { result ≤ length text.now }
    ensures trimmed { take result text.now ≡ trim_end unwanted text.now }
{
    let mut len = text.len();
    while len > 0 {
        if text[len - 1] != unwanted {
            return len;
        }
        len -= 1;
    }
    0
}
