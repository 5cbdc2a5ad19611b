//! Transmissions as they are shown: grids, drawings and listings.

use crate::given::{ACROSS, DIGITS, IDLE, LONE_TONE, ONES, SECOND, Sent, TIGHT, cut, transmission};
use crate::same;
use pocsag_decode::DecodeFault;
use pocsag_show::{Rows, ShowFault, View};
use pocsag_words::MemorySink;
use std::alloc::Global;
use std::test::Fail;

const LONE_TEXT: &[u8] = b"\
batches 1, codewords 1, idles 15 (94%), airtime 2188 ms at 512 bit/s, 934 ms at 1200 bit/s, 467 ms at 2400 bit/s
       0  1  2  3  4  5  6  7
  1   A. .. .. .. .. .. .. ..
";

const ACROSS_TEXT: &[u8] = b"\
batches 2, codewords 2, idles 30 (94%), airtime 3250 ms at 512 bit/s, 1387 ms at 1200 bit/s, 694 ms at 2400 bit/s
       0  1  2  3  4  5  6  7
  1   .. .. .. .. .. .. .. .A
  2   a. .. .. .. .. .. .. ..
";

const TIGHT_TEXT: &[u8] = b"\
batches 2, codewords 32, idles 0 (0%), airtime 3250 ms at 512 bit/s, 1387 ms at 1200 bit/s, 694 ms at 2400 bit/s
       0  1  2  3  4  5  6  7
  1   Aa aa aa Cc cc cc cc cc
  2   cc cc cc Bb bb bb bb bb
";

const MANY_TEXT: &[u8] = b"\
batches 2, codewords 27, idles 5 (16%), airtime 3250 ms at 512 bit/s, 1387 ms at 1200 bit/s, 694 ms at 2400 bit/s
       0  1  2  3  4  5  6  7
  1   AA EE II MM QQ UU XX ZZ
  2   AA EE II MM QQ U. .. ..
";

// 27 tones for eight addresses: four each for 8 to 12, three for 13 and two each for 14 and 15.
const MANY: Sent = (
    32,
    SECOND,
    &[(27, IDLE), (28, IDLE), (29, IDLE), (30, IDLE), (31, IDLE)],
);

const LONE_LIST: &[u8] = b"batch,frame,slot,codewords,address,kind,message\n1,0,0,1,8,tone0,\n";

const PLACED: Sent = (
    32,
    ONES,
    &[
        (0, 0),
        (6, SECOND),
        (22, 0),
        (29, IDLE),
        (30, SECOND),
        (31, IDLE),
    ],
);

const PLACED_LIST: &[u8] = b"batch,frame,slot,codewords,address,kind,message
1,0,0,6,0,numeric,1111111111111111111111111
1,3,6,16,11,numeric,111111111111111111111111111111111111111111111111111111111111111111111111111
2,3,6,7,3,numeric,111111111111111111111111111111
2,7,14,1,15,tone0,
";

const ORPHAN: Sent = (16, IDLE, &[(1, DIGITS)]);

#[derive(Clone, Copy, PartialEq, Eq, Debug)]
enum Form {
    Text,
    List,
    Drawing,
}

// Shows the first so many bytes to a sink.
fn show<const N: usize>(
    alloc: Global,
    form: Form,
    bytes: &[u8],
    sink: &mut MemorySink<N>,
) -> Option<ShowFault> {
    let view = match form {
        Form::Text => View::Grid(Rows::all()),
        Form::List => View::Places,
        Form::Drawing => View::Drawing(Rows::all()),
    };
    pocsag_show::show(alloc, view, bytes, sink).err()
}

// What is shown of these codewords behind so many more bytes of the preamble, so many bytes at a time.
const SHOWN: &[(Form, Sent, usize, usize, &[u8])] = &[
    (Form::Text, LONE_TONE, 0, 7, LONE_TEXT),
    (Form::Text, LONE_TONE, 9, 512, LONE_TEXT),
    (Form::Text, ACROSS, 0, 7, ACROSS_TEXT),
    (Form::Text, TIGHT, 0, 7, TIGHT_TEXT),
    (Form::Text, MANY, 0, 7, MANY_TEXT),
    (Form::List, LONE_TONE, 0, 7, LONE_LIST),
    (Form::List, PLACED, 0, 5, PLACED_LIST),
];

// The first so many bytes of codewords, of which nothing is shown.
const REFUSED: &[(Form, Sent, usize, DecodeFault)] = &[
    (Form::Text, LONE_TONE, 139, DecodeFault::Truncated),
    (Form::Text, LONE_TONE, 72, DecodeFault::NoBatch),
    (Form::Text, LONE_TONE, 71, DecodeFault::ShortPreamble),
    (Form::Text, ORPHAN, 140, DecodeFault::Orphan(1)),
    (Form::List, LONE_TONE, 139, DecodeFault::Truncated),
    (Form::Drawing, LONE_TONE, 139, DecodeFault::Truncated),
];

#[test]
fn texts_and_lists(rt: HostRuntime) -> Result<(), Fail> {
    let alloc = rt.alloc();
    for (form, sent, more, step, text) in SHOWN {
        let mut bytes = vec![in alloc; 0xAA; *more]?;
        bytes.extend_from_slice(transmission(alloc, *sent)?.as_slice())?;
        let mut sink = MemorySink::<512>::new((*step).max(1), 512);
        same!(rt; show(alloc, *form, bytes.as_slice(), &mut sink), None);
        same!(rt; sink.bytes(), *text);
    }
    Ok(())
}

#[test]
fn transmissions_that_are_refused(rt: HostRuntime) -> Result<(), Fail> {
    let alloc = rt.alloc();
    for (form, sent, len, fault) in REFUSED {
        let bytes = transmission(alloc, *sent)?;
        let mut sink = MemorySink::<512>::new(512, 512);
        let told = show(alloc, *form, cut(bytes.as_slice(), *len), &mut sink);
        same!(rt; told, Some(ShowFault::Transmission(*fault)), (form, len));
        same!(rt; sink.bytes().is_empty(), true, (form, len));
    }
    Ok(())
}

#[test]
fn failing_writes(rt: HostRuntime) -> Result<(), Fail> {
    let alloc = rt.alloc();
    let bytes = transmission(alloc, LONE_TONE)?;
    for (form, text) in [(Form::Text, LONE_TEXT), (Form::List, LONE_LIST)] {
        for left in 0..text.len() {
            let mut sink = MemorySink::<512>::new(3, left as u64);
            let told = show(alloc, form, bytes.as_slice(), &mut sink);
            same!(rt; told, Some(ShowFault::WriteFault), (form, left));
            same!(rt; sink.bytes(), &text[..left]);
        }
    }
    Ok(())
}

const TOTALS: &[u8] =
    b"batches 1000, codewords 0, idles 16000 (100%), airtime 1063625 ms at 512 bit/s, 453814 ms at 1200 bit/s, 226907 ms at 2400 bit/s\n";

const LAST_ROWS: &[u8] = b"999   .. .. .. .. .. .. .. ..\n1000  .. .. .. .. .. .. .. ..\n";

const DRAWN: &[u8] =
    b"<g class='p0'><title>A: address 8, tone0</title><rect x='80' y='80' width='28' height='18'/><rect class='k' x='80' y='80' width='24' height='18'/><text class='l' x='92' y='93'>A</text></g>\n";

// The rows of a transmission of three batches, and what its text ends with where these are asked for.
const ROWS: &[(u64, u64, &[u8])] = &[
    (1, 1, b"  1   .. .. .. .. .. .. .. .A\n"),
    (2, 2, b"  2   a. .. .. .. .. .. .. ..\n"),
    (2, 9, b"  2   a. .. .. .. .. .. .. ..\n"),
    (3, 3, b"       0  1  2  3  4  5  6  7\n"),
];

#[test]
fn rows_that_are_wanted(rt: HostRuntime) -> Result<(), Fail> {
    let alloc = rt.alloc();
    assert!(rt; Rows::new(0, 4).is_none());
    assert!(rt; Rows::new(4, 3).is_none());
    let bytes = transmission(alloc, ACROSS)?;
    for (first, last, text) in ROWS {
        let rows = Rows::new(*first, *last).expect(&rt, "an answer");
        let mut sink = MemorySink::<512>::new(512, 512);
        same!(rt; pocsag_show::show(alloc, View::Grid(rows), bytes.as_slice(), &mut sink).err(), None);
        assert!(rt; sink.bytes().starts_with(&ACROSS_TEXT[..113]));
        assert!(rt; sink.bytes().ends_with(text));
    }
    Ok(())
}

#[test]
fn large_texts_and_drawings(rt: HostRuntime) -> Result<(), Fail> {
    let alloc = rt.alloc();
    let bytes = transmission(alloc, (16_000, IDLE, &[]))?;
    let mut sink = MemorySink::<40000>::new(40_000, 40_000);
    same!(rt; show(alloc, Form::Text, bytes.as_slice(), &mut sink), None);
    assert!(rt; sink.bytes().starts_with(TOTALS));
    assert!(rt; sink.bytes().ends_with(LAST_ROWS));
    let bytes = transmission(alloc, LONE_TONE)?;
    let mut sink = MemorySink::<40000>::new(10_000, 10_000);
    same!(rt; show(alloc, Form::Drawing, bytes.as_slice(), &mut sink), None);
    assert!(rt;
        sink.bytes()
            .windows(DRAWN.len())
            .any(|piece| piece == DRAWN)
    );
    let mut sink = MemorySink::<512>::new(16, 16);
    let told = show(alloc, Form::Drawing, bytes.as_slice(), &mut sink);
    same!(rt; told, Some(ShowFault::WriteFault));
    same!(rt; sink.bytes(), b"<svg xmlns='http".as_slice());
    Ok(())
}
