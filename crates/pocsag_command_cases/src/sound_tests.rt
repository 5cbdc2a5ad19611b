//! `wav` over memory: the header and samples of a lone tone, worked out by hand, and its faults.

use crate::same;
use pocsag_core_cases::given::{LONE_TONE, transmission};
use pocsag_shell::{ErrorStream, Failure};
use pocsag_sound::{Keying, SoundFault, run_wav};
use pocsag_words::{MemorySink, MemorySource};
use std::alloc::Global;
use std::process::Abort;
use std::test::Fail;

// 2,400 samples a second: 36 + 3,328 and 3,328 bytes for 576 + 544 + 544 bits.
const HEADER: [u8; 44] = [
    b'R', b'I', b'F', b'F', 0x24, 0x0d, 0, 0, b'W', b'A', b'V', b'E', b'f', b'm', b't', b' ', 16,
    0, 0, 0, 1, 0, 1, 0, 0x60, 0x09, 0, 0, 0xc0, 0x12, 0, 0, 2, 0, 16, 0, b'd', b'a', b't', b'a',
    0x00, 0x0d, 0, 0,
];

// The bits of 7C, highest first, by a sample each: 8,000 for a 0 and -8,000 for a 1.
const SYNCHRONISATION: [u8; 16] = [
    0x40, 0x1f, 0xc0, 0xe0, 0xc0, 0xe0, 0xc0, 0xe0, 0xc0, 0xe0, 0xc0, 0xe0, 0x40, 0x1f, 0x40, 0x1f,
];

// The same with the levels exchanged.
const INVERTED: [u8; 16] = [
    0xc0, 0xe0, 0x40, 0x1f, 0x40, 0x1f, 0x40, 0x1f, 0x40, 0x1f, 0x40, 0x1f, 0xc0, 0xe0, 0xc0, 0xe0,
];

// What `wav` writes of the lone tone, with a sample for each bit and so many milliseconds of silence, where its writer takes at
// most so many bytes.
fn keyed(
    rt: &impl Abort,
    alloc: Global,
    tail: Option<u32>,
    is_inverted: bool,
    most: u64,
) -> (Option<SoundFault>, MemorySink<4000>) {
    let sent = transmission(alloc, LONE_TONE).expect(rt, "memory");
    let mut tx = MemorySource::new(sent.as_slice(), 50, 1000);
    let mut out = MemorySink::<4000>::new(1000, most);
    let keying = Keying::new(2400, 2400, None, tail, is_inverted)
        .ok()
        .expect(rt, "a keying");
    let mut err = ErrorStream::new(MemorySink::<100>::new(1, 1000));
    run_wav(alloc, keying, &mut tx, &mut out, &mut err);
    (err.fault(), out)
}

#[test]
fn a_lone_tone_is_keyed(rt: HostRuntime) -> Result<(), Fail> {
    for (is_inverted, first) in [(false, SYNCHRONISATION), (true, INVERTED)] {
        let (fault, out) = keyed(&rt, rt.alloc(), None, is_inverted, 4000);
        assert!(rt; fault.is_none());
        let file = out.bytes();
        same!(rt; file.len(), 3372);
        same!(rt; file.get(..44), Some(&HEADER[..]));
        same!(rt; file.get(1196..1212), Some(&first[..]));
        assert!(rt;
            file.get(2284..)
                .ok_or("silence")?
                .iter()
                .all(|byte| *byte == 0)
        );
    }
    Ok(())
}

// Milliseconds of silence, and the bytes of the file: at 2,400 bits a second one lasts 2.4 bits, and so three.
const TAILS: &[(Option<u32>, usize)] = &[
    (None, 3372),
    (Some(0), 2284),
    (Some(1), 2290),
    (Some(100), 2764),
];

#[test]
fn the_end_is_as_long_as_asked(rt: HostRuntime) {
    for (tail, len) in TAILS {
        let (fault, out) = keyed(&rt, rt.alloc(), *tail, false, 4000);
        same!(rt; (fault.is_none(), out.bytes().len()), (true, *len), tail);
    }
}

#[test]
fn a_failed_write_leaves_a_front(rt: HostRuntime) -> Result<(), Fail> {
    let (_, whole) = keyed(&rt, rt.alloc(), None, false, 4000);
    for most in [0, 43, 44, 2000, 3371] {
        let (fault, out) = keyed(&rt, rt.alloc(), None, false, most);
        let fault = fault.ok_or("a fault")?;
        same!(rt; fault.status(), 3);
        same!(rt;
            out.bytes(),
            whole.bytes().get(..most as usize).ok_or("a front")?
        );
    }
    Ok(())
}
