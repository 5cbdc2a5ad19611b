ghost use Rattle.std.specs.Prelude.{◌≡◌, ℕ, ◌^◌, ◌<◌, ◌≤◌, ◌⊎◌, length, position, take, All, IfOk, IfErr, IsOk, OnOk};
ghost use Rattle.std.specs.List.{flat_map, list_any};
ghost use Rattle.pocsag_text.specs.Bits.{low_first, high_first, alpha_width, item_bits, AreItems};
ghost use Rattle.pocsag_text.specs.Characters as numeric;
ghost use Rattle.pocsag_text.specs.Text.{numeric_payload, alpha_payload, numeric_bits, alpha_bits, twenties, is_bad_byte, character_limit, item_limit, fault_of};

use crate::CHARACTER_LIMIT;
use crate::character::{ALPHA_WIDTH, NUMERIC_WIDTH, SPACE_CODE, code_of, mirrored};
use crate::fault::TextFault;
use crate::packer::{ITEM_WIDTH, Packer};
use pocsag_words::OutOfMemory;
use std::alloc::Global;

// The bits of an item, the numeric characters that it holds, and the bits of an alphanumeric character.
const ITEM_BITS: usize = ITEM_WIDTH as usize;

const ITEM_DIGITS: usize = (ITEM_WIDTH / NUMERIC_WIDTH) as usize;

const ALPHA_BITS: usize = ALPHA_WIDTH as usize;

// So many alphanumeric characters fill whole items, and no fewer do.
const ALPHA_SCORE: usize = ITEM_WIDTH as usize;

/// The payload of a numeric text: items of twenty bits, each below 1,048,576. The characters are
/// the digits, `*`, `U`, the space, `-`, `]` and `[`.
pub fn pack_numeric(alloc: Global, text: &[u8]) -> Result<Vec<u32>, TextFault>
    ensures ok { IfOk result (λ v. numeric_payload text.now ≡ Ok v.items) }
    ensures small { IfOk result (λ v. AreItems v.items) }
    ensures few { IfOk result (λ v. length v.items ≤ item_limit) }
    ensures err { IfErr result
        (λ e. (e ≡ TextFault.OutOfMemory) ⊎ (numeric_payload text.now ≡ Err e)) }

    // Memory is wanted only by a text that has a payload.
    ensures memory { result ≡ Err TextFault.OutOfMemory → IsOk (numeric_payload text.now) }
{
    if let Some(fault) = fault_of(first_bad_digit(text), text.len()) {
        return Err(fault);
    }
    Ok(numeric_items(alloc, text)?)
}

/// The payload of an alphanumeric text: items of twenty bits, each below 1,048,576. The characters
/// are the bytes 1 to 127.
pub fn pack_alpha(alloc: Global, text: &[u8]) -> Result<Vec<u32>, TextFault>
    ensures ok { IfOk result (λ v. alpha_payload text.now ≡ Ok v.items) }
    ensures small { IfOk result (λ v. AreItems v.items) }
    ensures few { IfOk result (λ v. length v.items ≤ item_limit) }
    ensures err { IfErr result
        (λ e. (e ≡ TextFault.OutOfMemory) ⊎ (alpha_payload text.now ≡ Err e)) }

    // Memory is wanted only by a text that has a payload.
    ensures memory { result ≡ Err TextFault.OutOfMemory → IsOk (alpha_payload text.now) }
{
    if let Some(fault) = fault_of(first_bad_byte(text), text.len()) {
        return Err(fault);
    }
    Ok(alpha_items(alloc, text)?)
}

/// The place of the first byte that is no numeric character.
#[tactic(auto, using(crate::proofs::Payloads::none_passes))]
fn first_bad_digit(text: &[u8]) -> Option<usize>
    ensures { result ≡ position numeric.is_bad_digit text.now }
{
    if !has_bad_digit(text) {
        return None;
    }
    text.iter().position(|byte| code_of(*byte).is_none())
}

// Whether a byte is no numeric character. The loop goes on behind one, so that LLVM makes vector instructions of it.
fn has_bad_digit(text: &[u8]) -> bool
    ensures { result ≡ list_any numeric.is_bad_digit text.now }
{
    let mut has_bad = false;
    for byte in text {
        has_bad |= ((*byte < b'0') | (*byte > b'9'))
            & (*byte != b'*')
            & (*byte != b'U')
            & (*byte != b' ')
            & (*byte != b'-')
            & (*byte != b']')
            & (*byte != b'[');
    }
    has_bad
}

/// The place of the first byte that is no alphanumeric character.
#[tactic(auto, using(crate::proofs::Payloads::none_passes))]
fn first_bad_byte(text: &[u8]) -> Option<usize>
    ensures { result ≡ position is_bad_byte text.now }
{
    if !has_bad_byte(text) {
        return None;
    }
    text.iter().position(|byte| *byte == 0 || *byte > 127)
}

// Whether a byte is no alphanumeric character, by such a loop too.
#[tactic(auto, using(std::proofs::lemmas::List::Folds::list_any_more))]
fn has_bad_byte(text: &[u8]) -> bool
    ensures { result ≡ list_any is_bad_byte text.now }
{
    let mut has_bad = false;
    for byte in text {
        has_bad |= (*byte == 0) | (*byte > 127);
    }
    has_bad
}

/// The fault of a text, by the place of its first bad character and its length.
fn fault_of(first_bad: Option<usize>, count: usize) -> Option<TextFault>
    ensures { result ≡ fault_of first_bad count }
{
    if count == 0 {
        return Some(TextFault::EmptyMessage);
    }
    if let Some(place) = first_bad {
        return Some(TextFault::BadCharacter(place));
    }
    if count > CHARACTER_LIMIT {
        return Some(TextFault::TooLong);
    }
    None
}

/// The items of a numeric text.
fn numeric_items(alloc: Global, text: &[u8]) -> Result<Vec<u32>, OutOfMemory>
    requires { length text.now ≤ character_limit }
    ensures items { IfOk result (λ v. v.items ≡ twenties (numeric_bits text.now)) }
    ensures small { IfOk result (λ v. AreItems v.items) }
{
    let items = Vec::with_capacity(alloc, text.len().div_ceil(ITEM_DIGITS))?;
    let mut packer = Packer::from_items(items);
    for byte in text {
        packer.push(NUMERIC_WIDTH, code_of(*byte).unwrap_or(SPACE_CODE))?;
    }
    let fill = (ITEM_DIGITS - text.len() % ITEM_DIGITS) % ITEM_DIGITS;
    packer.push_times(NUMERIC_WIDTH, SPACE_CODE, fill)?;
    Ok(packer.into_items())
}

/// The items of an alphanumeric text.
fn alpha_items(alloc: Global, text: &[u8]) -> Result<Vec<u32>, OutOfMemory>
    requires few { length text.now ≤ character_limit }
    requires small { All (λ byte. byte < 128) text.now }
    ensures items { IfOk result (λ v. v.items ≡ twenties (alpha_bits text.now)) }
    ensures small { IfOk result (λ v. AreItems v.items) }
{
    let mut items = Vec::with_capacity(alloc, (ALPHA_BITS * text.len()).div_ceil(ITEM_BITS))?;
    let mut rest = text;
    while rest.len() >= ALPHA_SCORE {
        items.extend_from_slice(&seven_items(rest))?;
        rest = &rest[ALPHA_SCORE..];
    }
    let mut packer = Packer::from_items(items);
    for byte in rest {
        packer.push(ALPHA_WIDTH, *byte)?;
    }
    let fill = (ITEM_BITS - ALPHA_BITS * text.len() % ITEM_BITS) % ITEM_BITS;
    packer.push_times(1, 0, fill)?;
    Ok(packer.into_items())
}

/// The items of the first twenty characters.
fn seven_items(text: &[u8]) -> [u32; 7]
    requires twenty { 20 ≤ length text.now }
    requires small { All (λ byte. byte < 128) text.now }
    ensures bits { item_bits result ≡ flat_map (low_first alpha_width) (take 20 text.now) }
    ensures small { AreItems result }
{
    let a = bits_of_four(text);
    let b = bits_of_four(&text[4..]);
    let c = bits_of_four(&text[8..]);
    let d = bits_of_four(&text[12..]);
    let e = bits_of_four(&text[16..]);
    [
        a / 0x100,
        a % 0x100 * 0x1000 + b / 0x1_0000,
        b % 0x1_0000 * 0x10 + c / 0x100_0000,
        c / 0x10 % 0x10_0000,
        c % 0x10 * 0x1_0000 + d / 0x1000,
        d % 0x1000 * 0x100 + e / 0x10_0000,
        e % 0x10_0000,
    ]
}

/// The 28 bits of the first four characters, the first bit highest.
fn bits_of_four(text: &[u8]) -> u32
    requires four { 4 ≤ length text.now }
    requires small { All (λ byte. byte < 128) text.now }
    ensures fits { result < 2 ^ 28 }
    ensures bits { high_first 28 result ≡ flat_map (low_first alpha_width) (take 4 text.now) }
{
    let first = u32::from(mirrored(ALPHA_WIDTH, text[0]));
    let second = u32::from(mirrored(ALPHA_WIDTH, text[1]));
    let third = u32::from(mirrored(ALPHA_WIDTH, text[2]));
    let fourth = u32::from(mirrored(ALPHA_WIDTH, text[3]));
    ((first * 0x80 + second) * 0x80 + third) * 0x80 + fourth
}
