//! The decoder and the listing.

use crate::given::{
    ACROSS, DIGITS, IDLE, LONE_TONE, ONES, PageRow, SECOND, SYNC, Sent, TIGHT, cut, flip, pages,
    transmission,
};
use crate::same;
use pocsag_decode::{
    DecodeFault, Decoder, ListFault, PageReader, PageSource, decode, list, repair_all,
};
use pocsag_pages::Page;
use pocsag_words::{MemorySink, OutOfMemory};
use std::alloc::Global;
use std::process::Abort;
use std::test::Fail;

const FIRST_ORPHAN: Sent = (16, IDLE, &[(1, DIGITS)]);

// Two pages of `12345` for addresses 7 and 15 in two batches: both start early in frame 7, or the first late.
const BOTH_EARLY: Sent = (
    32,
    IDLE,
    &[(14, 0), (15, DIGITS), (30, SECOND), (31, DIGITS)],
);

const ONE_LATE: Sent = (
    32,
    IDLE,
    &[(15, 0), (16, DIGITS), (30, SECOND), (31, DIGITS)],
);

const LAST_FRAME: &[PageRow] = &[(7, 0, &[0x84C2A]), (15, 0, &[0x84C2A])];

// The numeric text `12`, filled with spaces.
const TWO_DIGITS: Sent = (16, IDLE, &[(0, 0), (1, 0xC219_9DEA)]);

type Wanted = Result<&'static [PageRow], DecodeFault>;

// Codewords, the first so many of their bytes, and the pages or the first fault.
const DECODED: &[(Sent, usize, Wanted)] = &[
    (LONE_TONE, 140, Ok(&[(8, 0, &[])])),
    (LONE_TONE, 139, Err(DecodeFault::Truncated)),
    (LONE_TONE, 72, Err(DecodeFault::NoBatch)),
    (LONE_TONE, 71, Err(DecodeFault::ShortPreamble)),
    (
        (16, IDLE, &[(0, SECOND), (1, 0x7A89_C194)]),
        140,
        Err(DecodeFault::BadWord(1)),
    ),
    (FIRST_ORPHAN, 140, Err(DecodeFault::Orphan(1))),
    ((16, IDLE, &[(0, ONES)]), 140, Err(DecodeFault::Orphan(0))),
    (ACROSS, 208, Ok(&[(7, 0, &[0x84C2A])])),
    (BOTH_EARLY, 208, Ok(LAST_FRAME)),
    (ONE_LATE, 208, Ok(LAST_FRAME)),
    (
        TIGHT,
        140,
        Ok(&[(0, 0, &[0x88888; 5]), (11, 0, &[0x88888; 9])]),
    ),
];

// Decodes bytes one by one, with an empty piece behind each.
fn decode_by_byte(alloc: Global, bytes: &[u8]) -> Result<Vec<Page>, DecodeFault> {
    let mut decoder = Decoder::new(alloc);
    for byte in bytes {
        decoder.feed(&[*byte])?;
        decoder.feed(&[])?;
    }
    decoder.finish()
}

// The pages that a reader hands out, which has none left behind them.
fn handed_out(
    rt: &impl Abort,
    alloc: Global,
    bytes: &[u8],
    count: usize,
) -> Result<Vec<Page>, OutOfMemory> {
    let mut reader = PageReader::new(alloc, bytes);
    let mut pages = Vec::new(alloc);
    for _ in 0..count {
        pages.push(reader.next_page()?.expect(rt, "a page"))?;
    }
    same!(rt; reader.next_page()?, None, count);
    same!(rt; reader.next_page()?, None, count);
    Ok(pages)
}

fn expect_decoded(
    rt: &impl Abort,
    alloc: Global,
    bytes: &[u8],
    wanted: &Wanted,
    sent: &Sent,
) -> Result<(), OutOfMemory> {
    let due = match wanted {
        Ok(rows) => Ok(pages(alloc, rows)?),
        Err(fault) => Err(*fault),
    };
    same!(rt; decode(alloc, bytes), due, sent);
    same!(rt; decode_by_byte(alloc, bytes), due, sent);
    if let Ok(due) = due {
        same!(rt; handed_out(rt, alloc, bytes, due.len())?, due, sent);
    }
    Ok(())
}

fn expect_cuts(rt: &impl Abort, alloc: Global, bytes: &[u8]) {
    same!(rt; bytes.len(), 208);
    for n in 0..208 {
        let due = match n {
            0..=71 => Some(DecodeFault::ShortPreamble),
            72 => Some(DecodeFault::NoBatch),
            140 => None,
            _ => Some(DecodeFault::Truncated),
        };
        same!(rt; decode(alloc, cut(bytes, n)).err(), due, n);
    }
}

#[test]
fn transmissions(rt: HostRuntime) -> Result<(), Fail> {
    let alloc = rt.alloc();
    for (sent, len, wanted) in DECODED {
        let bytes = transmission(alloc, *sent)?;
        expect_decoded(&rt, alloc, cut(bytes.as_slice(), *len), wanted, sent)?;
    }
    let bytes = transmission(alloc, TIGHT)?;
    expect_cuts(&rt, alloc, bytes.as_slice());
    Ok(())
}

// One wrong bit in each byte of a transmission.
#[test]
fn wrong_bits(rt: HostRuntime) -> Result<(), Fail> {
    let alloc = rt.alloc();
    for place in 0..140usize {
        let due = match place {
            0..=71 => DecodeFault::ShortPreamble,
            72..=75 => DecodeFault::NoSync(0),
            _ => DecodeFault::BadWord((place as u64 - 76) / 4),
        };
        // The synchronisation codeword is tried with its last bit wrong too.
        for bit in [place as u32 % 8, 0] {
            let mut bytes = transmission(alloc, LONE_TONE)?;
            if let Some(byte) = bytes.get_mut(place) {
                *byte ^= 1u8 << bit % 8;
            }
            same!(rt; decode(alloc, bytes.as_slice()).err(), Some(due), place);
        }
    }
    Ok(())
}

// What is wrong in each of the first words behind the preamble, what is repaired of it, and the fault that is left.
type Repair = (&'static [u32], u64, u64, Option<DecodeFault>);

const REPAIRED: &[Repair] = &[
    (&[], 0, 0, None),
    (&[0x8000_0001, 0x4000_0000, 3, 0, 1], 4, 6, None),
    (&[7], 0, 0, Some(DecodeFault::NoSync(0))),
    (&[1, 7, 0, 1], 2, 2, Some(DecodeFault::BadWord(0))),
    // An idle codeword, with one bit wrong, in place of the synchronisation codeword.
    (&[SYNC ^ IDLE ^ 1], 0, 0, Some(DecodeFault::NoSync(0))),
];

// Repairs a lone tone with bits that are wrong, behind which are bytes that are no whole word.
fn expect_repaired(
    rt: &impl Abort,
    alloc: Global,
    bytes: &mut [u8],
    repair: &Repair,
) -> Result<(), Fail> {
    let (wrong, words, bits, fault) = repair;
    let told = repair_all(bytes);
    let found = (told.words, told.bits, decode(alloc, cut(bytes, 140)).err());
    same!(rt; found, (*words, *bits, *fault), wrong);
    same!(rt; bytes.ends_with(b"end"), true, wrong);
    if fault.is_none() {
        let right = transmission(alloc, LONE_TONE)?;
        same!(rt; cut(bytes, 140), right.as_slice(), wrong);
    }
    Ok(())
}

#[test]
fn repairs(rt: HostRuntime) -> Result<(), Fail> {
    let alloc = rt.alloc();
    for repair in REPAIRED {
        let mut bytes = transmission(alloc, LONE_TONE)?;
        flip(bytes.as_mut_slice(), repair.0);
        bytes.extend_from_slice(b"end")?;
        expect_repaired(&rt, alloc, bytes.as_mut_slice(), repair)?;
    }
    Ok(())
}

#[test]
fn an_orphan_in_pieces(rt: HostRuntime) -> Result<(), Fail> {
    let alloc = rt.alloc();
    let bytes = transmission(alloc, FIRST_ORPHAN)?;
    let mut decoder = Decoder::new(alloc);
    for (index, byte) in bytes.as_slice().iter().enumerate() {
        let due = match index {
            0..=82 => None,
            83 => Some(DecodeFault::Orphan(1)),
            _ => Some(DecodeFault::Failed),
        };
        same!(rt; decoder.feed(&[*byte]).err(), due, index);
    }
    same!(rt; decoder.finish().err(), Some(DecodeFault::Failed));
    Ok(())
}

#[test]
fn a_short_transmission_in_pieces(rt: HostRuntime) -> Result<(), Fail> {
    let alloc = rt.alloc();
    let bytes = transmission(alloc, LONE_TONE)?;
    let short = cut(bytes.as_slice(), 139);
    let (first, second) = short.split_at(short.len().min(79));
    let mut decoder = Decoder::new(alloc);
    let told = [
        decoder.feed(first).err(),
        decoder.feed(second).err(),
        decoder.finish().err(),
        decoder.finish().err(),
        decoder.feed(&[]).err(),
    ];
    let failed = Some(DecodeFault::Failed);
    same!(rt; told, [None, None, Some(DecodeFault::Truncated), failed, failed]);
    Ok(())
}

// Pages of functions 1 to 3: the message of the second goes across a batch, the third is `a,b`.
const KINDS: Sent = (
    32,
    IDLE,
    &[
        (0, 0x0000_359A),
        (14, 0x7FFF_EBE0),
        (15, DIGITS),
        (16, 0x8000_7F2B),
        (18, 0x0000_1DA5),
        (19, 0xC334_8DB6),
        (20, 0xC000_04DC),
    ],
);

const KINDS_LISTED: &[u8] =
    b"address,kind,message\n8,tone2,\n2097151,data1,84C2A0000F\n1,alpha,\"a,b\"\n";

const ACROSS_LISTED: &[u8] = b"address,kind,message\n7,numeric,12345\n";

// Codewords and the listing of their pages.
const LISTED: &[(Sent, &[u8])] = &[
    (TWO_DIGITS, b"address,kind,message\n0,numeric,12\n"),
    (ACROSS, ACROSS_LISTED),
    (KINDS, KINDS_LISTED),
];

// Lists pages to sinks that take all of the listing, or its first so many bytes and then fail.
fn expect_listed(
    rt: &impl Abort,
    alloc: Global,
    bytes: &[u8],
    listing: &[u8],
) -> Result<(), DecodeFault> {
    let pages = decode(alloc, bytes)?;
    for step in [1, 3, 64] {
        for k in 0..128 {
            let mut sink = MemorySink::<128>::new(step, k as u64);
            let due = if k < listing.len() {
                Some(ListFault::WriteFault)
            } else {
                None
            };
            same!(rt; list(alloc, pages.as_slice(), &mut sink).err(), due, k);
            same!(rt; sink.bytes(), cut(listing, k));
        }
    }
    Ok(())
}

#[test]
fn listings(rt: HostRuntime) -> Result<(), Fail> {
    let alloc = rt.alloc();
    for (sent, listing) in LISTED {
        let bytes = transmission(alloc, *sent)?;
        expect_listed(&rt, alloc, bytes.as_slice(), listing)?;
    }
    Ok(())
}
