//! Codewords and devices.

use crate::same;
use pocsag_words::{
    DeviceFault, GrowingSink, Kind, MemorySink, MemorySource, Sink, SliceSource, Source, Word,
    address_word, check_all, from_raw, kind, message_word, repair, write_all,
};

// High bits of an address and a function, with the address codeword.
const ADDRESSES: [(u32, u8, u32); 6] = [
    (0, 0, 0x0000_0000),
    (1, 0, 0x0000_26EC),
    (2, 0, 0x0000_430B),
    (250_957, 0, 0x7A89_A470),
    (250_958, 0, 0x7A89_C197),
    (255_632, 2, 0x7CD2_15D8),
];

// Items with the message codeword.
const MESSAGES: [(u32, u32); 5] = [
    (0x84C2A, 0xC261_572C),
    (0x88888, 0xC444_47B9),
    (0x84333, 0xC219_9DEA),
    (0x82870, 0xC143_87B8),
    (0x80000, 0xC000_04DC),
];

const KINDS: [(u32, Option<Kind>); 4] = [
    (0x7A89_C197, Some(Kind::Idle)),
    (
        0x7A89_A470,
        Some(Kind::Address {
            high: 250_957,
            function: 0,
        }),
    ),
    (0xC261_572C, Some(Kind::Message(0x84C2A))),
    (0x0000_26ED, None),
];

#[test]
fn codewords(rt: HostRuntime) {
    for (high, function, raw) in ADDRESSES {
        assert!(rt; high < 262_144 && function < 4);
        same!(rt; address_word(high, function).raw(), raw);
    }
    for (item, raw) in MESSAGES {
        assert!(rt; item < 1_048_576);
        same!(rt; message_word(item).raw(), raw);
    }
    for (raw, due) in KINDS {
        let told = match from_raw(raw) {
            Some(word) => Some(kind(word)),
            None => None,
        };
        same!(rt; told == due, true, raw);
    }
    let numbers = [0x0000_26EC, 0x0000_26ED, 0x7A89_C197, 0x7CD2_15D8];
    let mut flags = [false; 4];
    check_all(&numbers, &mut flags);
    same!(rt; flags, [true, false, true, true]);
    let mut numbers = [0x0000_26EC; 40];
    let mut wrong = [false; 40];
    for i in 0..20 {
        numbers[2 * i + 1] = 0x0000_26ED;
        wrong[2 * i + 1] = true;
    }
    for n in 0..41 {
        let mut flags = wrong;
        check_all(&numbers[..n], &mut flags[..n]);
        for i in 0..40 {
            same!(rt; flags[i], (i % 2 == 0) == (i < n), (i, n));
        }
    }
}

#[test]
fn repairs(rt: HostRuntime) {
    same!(rt; repair(0x0000_0003).map(Word::raw), Some(0));
    same!(rt; repair(0x0000_0007), None);
    let word = 0x0000_26EC;
    same!(rt; repair(word).map(Word::raw), Some(word));
    for i in 0..32u32 {
        let one_wrong = word ^ 1u32 << i;
        same!(rt; repair(one_wrong).map(Word::raw), Some(word), i);
        for j in 0..i {
            let two_wrong = one_wrong ^ 1u32 << j;
            same!(rt; repair(two_wrong).map(Word::raw), Some(word), (i, j));
        }
    }
}

#[test]
fn sources(rt: HostRuntime) {
    let bytes = [1, 2, 3, 4, 5, 6, 7, 8, 9, 10];
    let mut source = MemorySource::new(&bytes, 3, 7);
    let mut buffer = [0u8; 5];
    same!(rt; source.read(&mut buffer), Ok(3));
    same!(rt; buffer, [1, 2, 3, 0, 0]);
    same!(rt; source.read(&mut buffer[..2]), Ok(2));
    same!(rt; source.read(&mut buffer), Ok(2));
    same!(rt; buffer, [6, 7, 3, 0, 0]);
    for _ in 0..2 {
        same!(rt; source.read(&mut buffer), Err(DeviceFault));
    }
    let mut whole = MemorySource::new(&bytes, 8, u64::MAX);
    let mut wide = [0u8; 16];
    for count in [8, 2, 0] {
        same!(rt; whole.read(&mut wide), Ok(count));
    }
    let mut slice = SliceSource::new(&bytes);
    for (room, count) in [(4, 4), (0, 0), (16, 6), (16, 0)] {
        assert!(rt; room <= 16);
        same!(rt; slice.read(&mut wide[..room]), Ok(count));
    }
    same!(rt; &wide[..6], &bytes[4..]);
}

#[test]
fn sinks(rt: HostRuntime) {
    let bytes = [1, 2, 3, 4, 5, 6, 7, 8, 9, 10];
    let mut grown = GrowingSink::new(rt.alloc());
    for piece in [&bytes[..3], &bytes[..0], &bytes[3..]] {
        same!(rt; grown.write(piece), Ok(piece.len()));
    }
    same!(rt; grown.into_bytes().as_slice(), bytes.as_slice());
    let mut full: MemorySink<8> = MemorySink::new(3, u64::MAX);
    same!(rt; full.write(&bytes), Ok(3));
    same!(rt; write_all(&mut full, &bytes), Err(DeviceFault));
    same!(rt; full.bytes(), [1, 2, 3, 1, 2, 3, 4, 5].as_slice());
    for (lasting, written) in [(4, Err(DeviceFault)), (10, Ok(()))] {
        let mut sink: MemorySink<16> = MemorySink::new(3, lasting);
        same!(rt; write_all(&mut sink, &bytes), written);
        assert!(rt; lasting <= 10);
        same!(rt; sink.bytes(), &bytes[..lasting as usize]);
    }
}
