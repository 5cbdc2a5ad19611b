//! Texts as items, both ways.

use crate::same;
use pocsag_text::{TextFault, pack_alpha, pack_numeric, unpack_alpha, unpack_numeric};
use std::alloc::Global;
use std::test::Fail;

#[derive(Clone, Copy, PartialEq, Eq, Debug)]
enum Coding {
    Numeric,
    Alpha,
}

fn pack(alloc: Global, coding: Coding, text: &[u8]) -> Result<Vec<u32>, TextFault> {
    match coding {
        Coding::Numeric => pack_numeric(alloc, text),
        Coding::Alpha => pack_alpha(alloc, text),
    }
}

// Texts with their items, and the text of these items.
const PACKED: [(Coding, &[u8], &[u32], &[u8]); 5] = [
    (Coding::Numeric, b"12345", &[0x84C2A], b"12345"),
    (Coding::Numeric, b"12  ", &[0x84333], b"12"),
    (Coding::Numeric, b"12", &[0x84333], b"12"),
    (Coding::Numeric, b"*U -][", &[0x5D3B7, 0xF3333], b"*U -]["),
    (Coding::Alpha, b"ABC", &[0x82870, 0x80000], b"ABC"),
];

const REFUSED: [(Coding, &[u8], TextFault); 2] = [
    (Coding::Alpha, b"", TextFault::EmptyMessage),
    (Coding::Numeric, b"12a", TextFault::BadCharacter(2)),
];

// A character, so often, with how many items it takes.
const LONG: [(Coding, u8, usize, Result<usize, TextFault>); 5] = [
    (Coding::Alpha, b'A', 20, Ok(7)),
    (Coding::Alpha, b'A', 4_000, Ok(1_400)),
    (Coding::Alpha, b'A', 4_001, Err(TextFault::TooLong)),
    (Coding::Numeric, b'1', 4_000, Ok(800)),
    (Coding::Numeric, b'1', 4_001, Err(TextFault::TooLong)),
];

#[test]
fn texts(rt: HostRuntime) -> Result<(), Fail> {
    let alloc = rt.alloc();
    for (coding, text, items, back) in PACKED {
        let packed = pack(alloc, coding, text)?;
        same!(rt; packed.as_slice(), items, text);
        let unpacked = match coding {
            Coding::Numeric => unpack_numeric(alloc, items)?,
            Coding::Alpha => unpack_alpha(alloc, items)?,
        };
        same!(rt; unpacked.as_slice(), back, text);
    }
    for (coding, text, fault) in REFUSED {
        same!(rt; pack(alloc, coding, text).err(), Some(fault), text);
    }
    for (coding, character, count, wanted) in LONG {
        let text = vec![in alloc; character; count]?;
        match pack(alloc, coding, text.as_slice()) {
            Ok(items) => {
                same!(rt; Ok(items.len()), wanted);
                assert!(rt; coding == Coding::Alpha || items.iter().all(|item| *item == 0x88888));
            }
            Err(fault) => same!(rt; Err(fault), wanted),
        }
    }
    Ok(())
}
