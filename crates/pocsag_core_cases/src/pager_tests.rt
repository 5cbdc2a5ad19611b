//! The simulated pager.

use crate::given::{
    ACROSS, DIGITS, IDLE, LONE_TONE, PageRow, SECOND, SYNC, Sent, cut, flip, page, pages,
    transmission,
};
use crate::same;
use pocsag_pager::{Pager, PagerFault, hear_all};
use std::test::Fail;

// The page of `12345` for address 0.
const ZERO: Sent = (16, IDLE, &[(0, 0), (1, DIGITS)]);

// Two wrong bits in each word of a batch, its synchronisation codeword at the head.
const ALL_DAMAGED: &[u32] = &[
    0x8000_0001,
    0x4000_0002,
    0x2000_0004,
    0x1000_0008,
    0x0800_0010,
    0x0400_0020,
    0x0200_0040,
    0x0100_0080,
    0x0080_0100,
    0x0040_0200,
    0x0020_0400,
    0x0010_0800,
    0x0008_1000,
    0x0004_2000,
    0x0002_4000,
    0x0001_8000,
    0x0001_8000,
];

const WRONG_IDLE: &[u32] = &[0, 0, 3];

const WRONG_SYNC: &[u32] = &[1];

// Transmissions with the bits that are wrong, word by word behind the preamble, an address, and what is shown.
const HEARD: &[(Sent, &[u32], u32, &[PageRow])] = &[
    (ZERO, ALL_DAMAGED, 0, &[(0, 0, &[0x84C2A])]),
    (LONE_TONE, WRONG_IDLE, 8, &[(8, 0, &[])]),
    (LONE_TONE, WRONG_IDLE, 9, &[]),
    (LONE_TONE, WRONG_IDLE, 0, &[]),
    (LONE_TONE, WRONG_SYNC, 8, &[(8, 0, &[])]),
    (ACROSS, &[], 7, &[(7, 0, &[0x84C2A])]),
    (ACROSS, &[], 0, &[]),
];

// The first bytes of `lone-tone` with an address and the fault.
const FAULTS: [(usize, u32, Option<PagerFault>); 7] = [
    (140, 2_097_151, None),
    (140, 2_097_152, Some(PagerFault::BadAddress)),
    (140, 2_007_664, Some(PagerFault::ReservedAddress)),
    (71, 8, Some(PagerFault::ShortPreamble)),
    (72, 8, Some(PagerFault::NoBatch)),
    (139, 8, Some(PagerFault::Truncated)),
    (140, 8, None),
];

#[test]
fn transmissions(rt: HostRuntime) -> Result<(), Fail> {
    let alloc = rt.alloc();
    for (sent, wrong, address, wanted) in HEARD {
        let mut bytes = transmission(alloc, *sent)?;
        flip(bytes.as_mut_slice(), wrong);
        let shown = hear_all(alloc, bytes.as_slice(), *address)?;
        let due = pages(alloc, wanted)?;
        same!(rt; shown.as_slice(), due.as_slice(), (sent, address));
    }
    let bytes = transmission(alloc, LONE_TONE)?;
    for (len, address, due) in FAULTS {
        let told = hear_all(alloc, cut(bytes.as_slice(), len), address);
        same!(rt; told.err(), due, (len, address));
    }
    Ok(())
}

// Words that pagers of address 8 hear one after the other, and with how many items a page is shown.
const BY_WORD: [&[(u32, Option<usize>)]; 2] = [
    &[
        (SYNC, None),
        (SECOND, None),
        (DIGITS, None),
        (IDLE, Some(1)),
    ],
    &[(0, None), (SECOND, None)],
];

#[test]
fn words_and_ends(rt: HostRuntime) -> Result<(), Fail> {
    let alloc = rt.alloc();
    for (words, at_end) in BY_WORD.iter().zip([None, Some(0)]) {
        let mut pager = Pager::new(alloc, 8)?;
        let items: &[u32] = &[0x84C2A];
        for (word, shown) in words.iter() {
            let due = match shown {
                Some(count) => Some(page(alloc, 8, 0, &items[..(*count).min(1)])?),
                None => None,
            };
            same!(rt; pager.hear(*word)?, due);
        }
        let due = match at_end {
            Some(_) => Some(page(alloc, 8, 0, &[])?),
            None => None,
        };
        same!(rt; pager.end()?, due);
        same!(rt; pager.hear(IDLE).err(), Some(PagerFault::Failed));
        same!(rt; pager.end().err(), Some(PagerFault::Failed));
    }
    Ok(())
}
