//! `decode`, `hear` and `show` of captures that are worked out by hand: a tone, inverted and one bit late, and one behind a
//! synchronisation codeword that cannot be recognised; and calls that are cut.

use crate::outputs::errors;
use crate::same;
use pocsag_capture::{CaptureFault, Polarity, Reception, ReceptionStats};
use pocsag_core_cases::given::{IDLE, LONE_TONE, SECOND, Sent, batches, cut};
use pocsag_receiver::{
    CaptureListing, CaptureOptions, CaptureView, ListForm, ReceiverFault, run_list_capture,
    run_show_capture,
};
use pocsag_show::{Rows, View};
use pocsag_words::{MemorySink, SliceSource};
use std::alloc::{AllocError, Global};
use std::process::Abort;
use std::test::Fail;

// Lists the pages of a capture, or those for one address, in a form, where the writer fails behind what the sink takes. Returns the
// exit status, and how each transmission was received.
fn list_capture<const N: usize>(
    alloc: Global,
    capture: &[u8],
    picking: CaptureOptions,
    out: &mut MemorySink<N>,
) -> (u8, Vec<ReceptionStats>) {
    let mut asked = CaptureListing {
        picking,
        heard: Vec::new(alloc),
    };
    let tx = &mut SliceSource::new(capture);
    let status = run_list_capture(alloc, &mut asked, tx, out, &mut errors());
    (status, asked.heard)
}

// Compares what is written of a capture. What was heard is answered.
fn expect_listing(
    rt: &impl Abort,
    alloc: Global,
    capture: &[u8],
    picking: CaptureOptions,
    due: &str,
) -> Vec<ReceptionStats> {
    let mut out = MemorySink::<4000>::new(1000, 4000);
    let (status, heard) = list_capture(alloc, capture, picking, &mut out);
    same!(rt; status, 0);
    same!(rt; out.bytes(), due.as_bytes());
    heard
}

const ALL_LISTED: CaptureOptions = CaptureOptions {
    only: None,
    form: ListForm::Listing,
};

const ALL_IN_JSON: CaptureOptions = CaptureOptions {
    only: None,
    form: ListForm::Json([false; 3]),
};

const WHOLE_TONE: &str = "address,kind,message,state\n8,tone0,,whole\n";

// The bytes of batches without a preamble.
fn received(rt: &impl Abort, alloc: Global, sent: Sent) -> Vec<u8> {
    batches(alloc, sent).expect(rt, "memory")
}

// A one, and then a batch with a tone of address 8 in its first codeword, each bit as the other.
fn late_tone(rt: &impl Abort, alloc: Global) -> [u8; 69] {
    let mut capture = [0xff; 69];
    for (place, byte) in received(rt, alloc, LONE_TONE).iter().enumerate() {
        if place < 68 {
            let received = 255 - *byte;
            capture[place] = capture[place] / 128 * 128 + received / 2;
            capture[place + 1] = received % 2 * 128 + 127;
        }
    }
    capture
}

#[test]
fn a_late_tone_is_captured(rt: HostRuntime) {
    let alloc = rt.alloc();
    let capture = late_tone(&rt, alloc);
    let due = ReceptionStats {
        reception: Reception {
            bit: 1,
            polarity: Polarity::Inverted,
            batches: 1,
            words: 17,
            words_in_front: 0,
        },
        steady: 1,
        corrected: 0,
        lost: 0,
        cut: 0,
    };
    let heard = expect_listing(&rt, alloc, &capture, ALL_LISTED, WHOLE_TONE);
    same!(rt; heard.as_slice(), [due].as_slice());
    let none = "address,kind,message,state\n";
    let others = CaptureOptions {
        only: Some(16),
        ..ALL_LISTED
    };
    expect_listing(&rt, alloc, &capture, others, none);
    let line =
        "{\"address\":8,\"function\":0,\"kind\":\"tone0\",\"message\":\"\",\"state\":\"whole\",\"transmission\":1,\"inverted\":true,\"bit\":1}\n";
    let its_own = CaptureOptions {
        only: Some(8),
        ..ALL_IN_JSON
    };
    expect_listing(&rt, alloc, &capture, its_own, line);
}

#[test]
fn a_captured_tone_is_shown(rt: HostRuntime) {
    let capture = late_tone(&rt, rt.alloc());
    let mut err = errors();
    for (nth, status) in [(1, 0), (2, 1)] {
        let mut grid = MemorySink::<4000>::new(1000, 4000);
        let mut viewing = CaptureView {
            view: View::Grid(Rows::all()),
            nth,
            heard: Vec::new(rt.alloc()),
        };
        let tx = &mut SliceSource::new(&capture);
        let told = run_show_capture(rt.alloc(), &mut viewing, tx, &mut grid, &mut err);
        same!(rt; told, status);
    }
    let is_none = matches!(
        err.fault(),
        Some(ReceiverFault::Capture(CaptureFault::NoSuchTransmission { nth: 2, found: 1 }))
    );
    assert!(rt; is_none);
}

// Three batches with a tone of address 8 in the first codeword of the third; the second begins with zeros.
const BRIDGED: Sent = (48, IDLE, &[(32, SECOND)]);

#[test]
fn a_bridged_tone_is_captured(rt: HostRuntime) {
    let mut capture = received(&rt, rt.alloc(), BRIDGED);
    for place in 68..72 {
        if let Some(byte) = capture.get_mut(place) {
            *byte = 0;
        }
    }
    let due = ReceptionStats {
        reception: Reception {
            bit: 0,
            polarity: Polarity::Upright,
            batches: 3,
            words: 51,
            words_in_front: 0,
        },
        steady: 3,
        corrected: 0,
        lost: 1,
        cut: 0,
    };
    let heard = expect_listing(&rt, rt.alloc(), capture.as_slice(), ALL_LISTED, WHOLE_TONE);
    same!(rt; heard.as_slice(), [due].as_slice());
}

// A batch with a tone of address 8, directly before a word past repair, one of address 9, and one of address 15 in its last
// codeword.
const CUT: Sent = (
    16,
    IDLE,
    &[(1, SECOND), (2, 0x0000_000B), (3, SECOND), (15, SECOND)],
);

#[test]
fn tones_are_cut(rt: HostRuntime) {
    let capture = received(&rt, rt.alloc(), CUT);
    let due = "address,kind,message,state\n8,tone0,,cut\n9,tone0,,whole\n15,tone0,,cut\n";
    expect_listing(&rt, rt.alloc(), capture.as_slice(), ALL_LISTED, due);
}

// Sixty batches with a tone in each codeword, of addresses 8 to 15, two of each in turn.
const MANY: Sent = (960, SECOND, &[]);

// Their lines of JSON, behind two receptions of a lone tone: that of the transmission with this number, which begins at this bit.
fn put_lines_of_many(
    lines: &mut Vec<u8>,
    alloc: Global,
    number: u32,
    bit: u64,
) -> Result<(), AllocError> {
    for tone in 0..960 {
        let address = 8 + tone / 2 % 8;
        let state = if tone == 959 { "cut" } else { "whole" };
        let line = format!(in alloc;
            "{{\"address\":{address},\"function\":0,\"kind\":\"tone0\",\"message\":\"\",\"state\":\"{state}\",\"transmission\":{number},\"inverted\":false,\"bit\":{bit}}}\n"
        )?;
        lines.extend_from_slice(line.as_bytes())?;
    }
    Ok(())
}

// A text longer than what waits before it is written: all of it, and a part where a write is refused.
#[test]
fn many_tones_are_listed_as_they_are_read(rt: HostRuntime) {
    let alloc = rt.alloc();
    let capture = received(&rt, alloc, MANY);
    let mut due = Vec::new(alloc);
    put_lines_of_many(&mut due, alloc, 1, 0).expect(&rt, "memory");
    let due = due.as_slice();
    for fails_at in [200_000, 0, 1, 50_000, 65_535, 65_536, 65_700, 100_000] {
        let mut out = MemorySink::<200_000>::new(50_000, fails_at as u64);
        let (status, heard) = list_capture(alloc, capture.as_slice(), ALL_IN_JSON, &mut out);
        same!(rt; status, if fails_at < due.len() { 3 } else { 0 }, fails_at);
        same!(rt; out.bytes(), cut(due, fails_at), fails_at);
        same!(rt; heard.len(), 1, fails_at);
    }
}

// Two transmissions, of which the first is longer than what waits: the pages of the second stand behind those of the first, and
// how both were received is reported also where the writer fails in the first.
#[test]
fn pages_of_the_second_transmission_stand_behind(rt: HostRuntime) -> Result<(), Fail> {
    let alloc = rt.alloc();
    let many = received(&rt, alloc, MANY);
    let mut capture = Vec::from_slice(alloc, many.as_slice())?;
    capture.extend_from_slice(&[0xff; 150])?;
    capture.extend_from_slice(many.as_slice())?;
    let mut due = Vec::new(alloc);
    put_lines_of_many(&mut due, alloc, 1, 0)?;
    put_lines_of_many(&mut due, alloc, 2, 33_840)?;
    for (step, fails_at, due_status) in [(50_000, 65_000, 3), (400_000, 400_000, 0)] {
        let mut out = MemorySink::<400_000>::new(step, fails_at as u64);
        let (status, heard) = list_capture(alloc, capture.as_slice(), ALL_IN_JSON, &mut out);
        same!(rt; (status, heard.len()), (due_status, 2));
        same!(rt; out.bytes(), cut(due.as_slice(), fails_at));
    }
    Ok(())
}
