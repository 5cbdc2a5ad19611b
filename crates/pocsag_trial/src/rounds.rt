use crate::line::{Line, show};
use crate::pages::LONE_TONE;
use pocsag_batch::{FirstFault, first_stream, lay_in_order};
use pocsag_pages::{RoundFault, read_round};
use pocsag_words::{MemorySink, MemorySource, OutOfMemory};
use std::alloc::Global;
use std::io;

fn lay_lone_tone(alloc: Global, line: &mut Line) -> Result<(), OutOfMemory> {
    let mut source = MemorySource::new(LONE_TONE, 7, 1000);
    let round = match read_round(alloc, &mut source) {
        Ok(round) => round,
        Err(RoundFault::OutOfMemory) => return Err(OutOfMemory),
        Err(fault) => {
            line.put(fault);
            return Ok(());
        }
    };
    let batches = lay_in_order(alloc, &round)?;
    line.put(batches.count());
    line.put_words(batches.words());
    Ok(())
}

fn stream_lone_tone(alloc: Global, line: &mut Line) -> Result<(), OutOfMemory> {
    let mut source = MemorySource::new(LONE_TONE, 7, 1000);
    let mut tx = MemorySink::<200>::new(64, 1000);
    let answer = first_stream(alloc, &mut source, &mut tx);
    match answer {
        Ok(batches) => line.put(batches),
        Err(FirstFault::OutOfMemory) => return Err(OutOfMemory),
        Err(FirstFault::Round(RoundFault::OutOfMemory)) => line.put("out of memory in the round"),
        Err(fault) => line.put(fault),
    }
    line.put_bytes(tx.bytes());
    Ok(())
}

// What stands behind the header of a page file, and how many digits 1 follow.
const BAD_FILES: [(&[u8], usize); 10] = [
    (b"7,tone0\n", 0),
    (b"2097152,tone0,\n", 0),
    (b"2007664,tone0,\n", 0),
    (b"7,Tone0,\n", 0),
    (b"7,tone1,x\n", 0),
    (b"7,alpha,\n", 0),
    (b"7,numeric,12a\n", 0),
    (b"7,numeric,", 4_001),
    (b"7,tone0,\n8,tone0,\n7,tone0,\n", 0),
    (b"", 0),
];

// The fault of a file, behind which nothing may be written.
fn show_bad_file(
    alloc: Global,
    file: &[u8],
    lasting: u64,
    line: &mut Line,
) -> Result<(), OutOfMemory> {
    let mut source = MemorySource::new(file, 900, lasting);
    let mut tx = MemorySink::<200>::new(64, 1000);
    match first_stream(alloc, &mut source, &mut tx) {
        Ok(batches) => line.put(batches),
        Err(FirstFault::OutOfMemory | FirstFault::Round(RoundFault::OutOfMemory)) => {
            return Err(OutOfMemory);
        }
        Err(fault) => line.put(fault),
    }
    line.put(tx.bytes().len());
    Ok(())
}

fn stream_bad_files(alloc: Global, line: &mut Line) -> Result<(), OutOfMemory> {
    show_bad_file(alloc, LONE_TONE, 29, line)?;
    show_bad_file(alloc, b"8,tone0,\n", 1000, line)?;
    for (records, ones) in BAD_FILES {
        let mut file = Vec::new(alloc);
        file.extend_from_slice(b"address,kind,message\n".as_slice())?;
        file.extend_from_slice(records)?;
        file.resize(21 + records.len() + ones, b'1')?;
        show_bad_file(alloc, file.as_slice(), 10_000, line)?;
    }
    Ok(())
}

pub fn show_all<R: AllocGlobal + Print>(rt: &R) -> io::Result<()> {
    show(rt, "lay_in_order of lone-tone", lay_lone_tone)?;
    show(rt, "first_stream of lone-tone", stream_lone_tone)?;
    show(rt, "bad files of first_stream", stream_bad_files)
}
