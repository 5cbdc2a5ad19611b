//! Checks of many numbers, eight at once.
ghost use Rattle.std.specs.Prelude.{◌≡◌, ◌+◌, ◌≤◌, length, map};
ghost use Rattle.pocsag_words.specs.Checks.{checks_of};
ghost use Rattle.pocsag_words.specs.Flags.{TellFirst, TellCodewords};

use crate::checks::is_codeword;
use std::simd::prelude::*;

const LANES: usize = 8;

/// Says of each number whether it is a codeword: flag `k` of number `k`. There are as many flags as
/// numbers.
pub fn check_all(numbers: &[u32], flags: &mut [bool])
    requires { length numbers.now ≡ length flags.old }
    ensures { TellCodewords numbers.now flags.new }
{
    let mut start = 0;
    while numbers.len() - start >= LANES {
        mark_block(numbers, start, flags);
        start += LANES;
    }
    for i in start..numbers.len() {
        flags[i] = is_codeword(numbers[i]);
    }
}

// Sets the eight flags from this place on.
#[inline(always)]
fn mark_block(numbers: &[u32], start: usize, flags: &mut [bool])
    requires lengths { length numbers.now ≡ length flags.old }
    requires room { start + LANES ≤ length numbers.now }
    requires before { TellFirst start numbers.now flags.old }
    ensures { TellFirst (start + LANES) numbers.now flags.new }
{
    let found = checks(u32x8::from_slice(&numbers[start..])).to_array();
    for i in 0..LANES {
        flags[start + i] = found[i] == 0;
    }
}

// Eleven sums of bits of each number, which are all 0 where it is a codeword and nowhere else: the
// high bits of the product, without carry, by x^31 + 1 divided by x + 1 and by the generator. Where
// the parity bit is set it turns each of them.
#[inline(always)]
fn checks(numbers: u32x8) -> u32x8
    requires { length numbers ≡ 8 }
    ensures { result ≡ map checks_of numbers }
{
    let twice = numbers << u32x8::splat(2);
    let pair = numbers ^ (numbers << u32x8::splat(1));
    let spread = numbers ^ twice;
    let three = pair ^ twice;
    let product = three
        ^ (three << u32x8::splat(5))
        ^ (spread << u32x8::splat(11))
        ^ (pair << u32x8::splat(16))
        ^ (numbers << u32x8::splat(20));
    let one = u32x8::splat(1);
    let odd = (numbers & one).simd_eq(one);
    let turned = odd.select(u32x8::splat(u32::MAX), u32x8::splat(0));
    (product ^ turned) >> u32x8::splat(21)
}
