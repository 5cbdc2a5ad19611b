//! The commands for transmissions and `explain`, over memory: what each reports, and its exit status.

use crate::outputs::errors;
use crate::same;
use pocsag_centre::{ExplainFiles, run_explain};
use pocsag_core_cases::given::{SECOND, cut, flip, transmission};
use pocsag_decode::Repaired;
use pocsag_findings::Format;
use pocsag_plan::plan_stream;
use pocsag_receiver::{
    Decoding, Hearing, ListForm, Repairing, Showing, run_decode, run_hear, run_show,
};
use pocsag_shell::{ErrorStream, Failure};
use pocsag_show::{Rows, View};
use pocsag_words::{End, GrowingSink, MemorySink, MemorySource, SliceSource};
use std::alloc::Global;
use std::process::Abort;
use std::test::Fail;

const LONE_TONE: &[u8] = b"address,kind,message\n8,tone0,\n";

const LISTED: &str = "address,kind,message\n8,tone0,\n";

const LINE: &str = "{\"address\":8,\"function\":0,\"kind\":\"tone0\",\"message\":\"\"}\n";

const NONE_HEARD: &str = "address,kind,message\n";

const PLACES: &str = "batch,frame,slot,codewords,address,kind,message\n1,0,0,1,8,tone0,\n";

const GRID: &str = "\
batches 1, codewords 1, idles 15 (94%), airtime 2188 ms at 512 bit/s, 934 ms at 1200 bit/s, 467 ms at 2400 bit/s
       0  1  2  3  4  5  6  7
  1   A. .. .. .. .. .. .. ..
";

const EXPLAINED: &str = "\
at least 1 batch, open end: 1 page, 1 codeword, room for 0 in 0 batches
node 1: all slots: 1 codeword, room for 0
so 0 batches do not suffice
";

// What `show` is asked for: the places of the pages, the grid, or rows of it that the transmission does not have.
#[derive(Clone, Copy)]
enum Picture {
    Places,
    Grid,
    Behind,
}

// A command, and what its words ask for; of `show` also whether it repairs.
#[derive(Clone, Copy)]
enum Command {
    Decode { form: ListForm, repair: bool },
    Hear(ListForm, u32),
    Show(Picture, bool),
    Explain,
}

// What is wrong with the files: what is flipped in the last bytes of the first three words behind the preamble, the length
// that the transmission is cut to, and after how many bytes its reader and standard output fail.
#[derive(Clone, Copy)]
struct Faults {
    flipped: [u32; 3],
    len: usize,
    tx: u64,
    out: u64,
}

const SOUND: Faults = Faults {
    flipped: [0, 0, 0],
    len: 1000,
    tx: 1000,
    out: 1000,
};

const FLIPPED: Faults = Faults {
    flipped: [1, 0, 3],
    ..SOUND
};

const CUT: Faults = Faults { len: 139, ..SOUND };

const UNREAD: Faults = Faults { tx: 20, ..SOUND };

const UNWRITTEN: Faults = Faults { out: 5, ..SOUND };

const CUT_SHORT: &str = "pocsag: the transmission is cut short\n";

const NO_READ: &str = "pocsag: cannot read or open a file\n";

const NO_WRITE: &str = "pocsag: cannot write\n";

const NO_ROWS: &str = "pocsag: rows 3-7: the transmission has 1 batch\n";

const NO_SYNC: &str = "pocsag: batch 0: no synchronisation codeword\n";

// What a command reported is what is due.
fn expect_told<F: Failure + Drop>(
    rt: &impl Abort,
    status: u8,
    out: &MemorySink<400>,
    err: &ErrorStream<F, MemorySink<100>>,
    case: &Case,
) {
    let (_, _, due, printed, line) = *case;
    same!(rt; status, due);
    same!(rt; out.bytes(), printed.as_bytes());
    same!(rt; err.stream().bytes(), line.as_bytes());
}

// The transmission and the certificate of a lone tone.
fn planned(rt: &impl Abort, alloc: Global) -> (Vec<u8>, Vec<u8>) {
    let (mut tx, mut cert) = (GrowingSink::new(alloc), GrowingSink::new(alloc));
    let pages = &mut SliceSource::new(LONE_TONE);
    plan_stream(alloc, pages, &mut tx, &mut cert, 100_000, End::Open).expect(rt, "a plan");
    (tx.into_bytes(), cert.into_bytes())
}

// The bytes with what is wrong with them.
fn spoiled(alloc: Global, sent: &[u8], faults: Faults) -> Result<Vec<u8>, Fail> {
    let mut bytes = Vec::from_slice(alloc, &sent[..faults.len.min(sent.len())])?;
    flip(bytes.as_mut_slice(), &faults.flipped);
    Ok(bytes)
}

const DECODE: Command = Command::Decode {
    form: ListForm::Listing,
    repair: false,
};

const DECODE_REPAIRED: Command = Command::Decode {
    form: ListForm::Listing,
    repair: true,
};

const DECODE_JSON: Command = Command::Decode {
    form: ListForm::Json([true, false, false]),
    repair: true,
};

const DECODE_TEXTS: Command = Command::Decode {
    form: ListForm::Texts([true, true, true]),
    repair: false,
};

const HEAR_8: Command = Command::Hear(ListForm::Listing, 8);

const HEAR_9: Command = Command::Hear(ListForm::Listing, 9);

const HEAR_NONE: Command = Command::Hear(ListForm::Listing, 2_097_152);

const HEAR_JSON: Command = Command::Hear(ListForm::Json([false; 3]), 8);

const SHOW_REPAIRED: Command = Command::Show(Picture::Places, true);

const GRID_SHOWN: Command = Command::Show(Picture::Grid, false);

const BEHIND_SHOWN: Command = Command::Show(Picture::Behind, false);

// A command, what is wrong, its status, and what it reports.
type Case = (Command, Faults, u8, &'static str, &'static str);

const CASES: &[Case] = &[
    (DECODE, SOUND, 0, LISTED, ""),
    (DECODE, FLIPPED, 1, "", NO_SYNC),
    (DECODE, CUT, 1, "", CUT_SHORT),
    (DECODE, UNREAD, 3, "", NO_READ),
    (DECODE, UNWRITTEN, 3, "addre", NO_WRITE),
    (DECODE_REPAIRED, FLIPPED, 0, LISTED, ""),
    (HEAR_8, FLIPPED, 0, LISTED, ""),
    (HEAR_9, SOUND, 0, NONE_HEARD, ""),
    (HEAR_NONE, SOUND, 1, "", "pocsag: bad address\n"),
    (DECODE_JSON, FLIPPED, 0, LINE, ""),
    (DECODE_JSON, CUT, 1, "", CUT_SHORT),
    (DECODE_JSON, UNWRITTEN, 3, "{\"add", NO_WRITE),
    (DECODE_TEXTS, SOUND, 0, LISTED, ""),
    (DECODE_TEXTS, UNWRITTEN, 3, "addre", NO_WRITE),
    (HEAR_JSON, FLIPPED, 0, LINE, ""),
    (GRID_SHOWN, SOUND, 0, GRID, ""),
    (GRID_SHOWN, FLIPPED, 1, "", NO_SYNC),
    (SHOW_REPAIRED, FLIPPED, 0, PLACES, ""),
    (BEHIND_SHOWN, SOUND, 1, "", NO_ROWS),
    (Command::Explain, SOUND, 0, EXPLAINED, ""),
    (Command::Explain, UNWRITTEN, 3, "at le", NO_WRITE),
];

fn expect_explained(rt: &impl Abort, alloc: Global, certificate: &[u8], case: &Case) {
    let (_, faults, _, _, _) = *case;
    let mut files = ExplainFiles {
        pages: MemorySource::new(LONE_TONE, 4, 1000),
        cert: MemorySource::new(certificate, 4, faults.tx),
    };
    let (mut out, mut err) = (MemorySink::<400>::new(7, faults.out), errors());
    let status = run_explain(alloc, Format::Lines(3), &mut files, &mut out, &mut err);
    expect_told(rt, status, &out, &err, case);
}

// Runs a command on the plan of a lone tone.
fn expect_case(rt: &impl Abort, alloc: Global, case: &Case) -> Result<(), Fail> {
    let (command, faults, _, _, _) = *case;
    let (sent, certificate) = planned(rt, alloc);
    let bytes = spoiled(alloc, sent.as_slice(), faults)?;
    let mut tx = MemorySource::new(bytes.as_slice(), 4, faults.tx);
    let (mut out, mut err) = (MemorySink::<400>::new(7, faults.out), errors());
    let status = match command {
        Command::Decode { form, repair } => {
            let repairing = Repairing::new(repair);
            let mut decoding = Decoding { form, repairing };
            run_decode(alloc, &mut decoding, &mut tx, &mut out, &mut err)
        }
        Command::Show(picture, repair) => {
            let view = match picture {
                Picture::Places => View::Places,
                Picture::Grid => View::Grid(Rows::all()),
                Picture::Behind => View::Grid(Rows::new(3, 7).expect(rt, "rows")),
            };
            let repairing = Repairing::new(repair);
            let mut showing = Showing { view, repairing };
            run_show(alloc, &mut showing, &mut tx, &mut out, &mut err)
        }
        Command::Hear(form, address) => {
            let hearing = Hearing { form, address };
            run_hear(alloc, hearing, &mut tx, &mut out, &mut err)
        }
        Command::Explain => {
            expect_explained(rt, alloc, certificate.as_slice(), case);
            return Ok(());
        }
    };
    expect_told(rt, status, &out, &err, case);
    Ok(())
}

#[test]
fn transmissions_are_read(rt: HostRuntime) -> Result<(), Fail> {
    for case in CASES {
        expect_case(&rt, rt.alloc(), case)?;
    }
    Ok(())
}

#[test]
fn repairs_are_counted(rt: HostRuntime) -> Result<(), Fail> {
    let (sent, _) = planned(&rt, rt.alloc());
    let cases = [([0, 0, 0], 0, 0), ([1, 0, 0], 1, 1), ([1, 0, 3], 2, 3)];
    for (flipped, words, bits) in cases {
        let faults = Faults { flipped, ..SOUND };
        let bytes = spoiled(rt.alloc(), sent.as_slice(), faults)?;
        let mut tx = SliceSource::new(bytes.as_slice());
        let mut out = MemorySink::<400>::new(7, 1000);
        let (form, repairing, mut err) = (ListForm::Listing, Repairing::new(true), errors());
        let mut decoding = Decoding { form, repairing };
        let status = run_decode(rt.alloc(), &mut decoding, &mut tx, &mut out, &mut err);
        same!(rt; status, 0);
        same!(rt; decoding.repairing.corrected, Repaired { words, bits });
    }
    Ok(())
}

// Lists the transmission in a form to sinks that take all of the text, or its first so many bytes and then fail.
fn expect_pieces(rt: &impl Abort, alloc: Global, form: ListForm, sent: &[u8], text: &[u8]) {
    for room in [
        0,
        1,
        65_535,
        65_560,
        text.len().saturating_sub(1),
        text.len(),
    ] {
        let mut tx = SliceSource::new(sent);
        let mut out = MemorySink::<80_000>::new(20_000, room as u64);
        let (repairing, mut err) = (Repairing::new(false), errors());
        let mut decoding = Decoding { form, repairing };
        let status = run_decode(alloc, &mut decoding, &mut tx, &mut out, &mut err);
        let due = if room < text.len() { 3 } else { 0 };
        same!(rt; status, due, room);
        same!(rt; out.bytes(), cut(text, room), room);
    }
}

#[test]
fn long_texts_are_written_in_pieces(rt: HostRuntime) -> Result<(), Fail> {
    let alloc = rt.alloc();
    let sent = transmission(alloc, (1_280, SECOND, &[]))?;
    let (mut lines, mut records) = (Vec::new(alloc), Vec::new(alloc));
    records.extend_from_slice(b"address,kind,message\n")?;
    for tone in 0..1_280 {
        let address = 8 + tone / 2 % 8;
        let line = format!(in alloc;
            "{{\"address\":{address},\"function\":0,\"kind\":\"tone0\",\"message\":\"\"}}\n"
        )?;
        lines.extend_from_slice(line.as_bytes())?;
        records.extend_from_slice(format!(in alloc; "{address},tone0,\n")?.as_bytes())?;
    }
    let (json, texts) = (ListForm::Json([false; 3]), ListForm::Texts([true; 3]));
    expect_pieces(&rt, alloc, json, sent.as_slice(), lines.as_slice());
    expect_pieces(&rt, alloc, texts, sent.as_slice(), records.as_slice());
    Ok(())
}
