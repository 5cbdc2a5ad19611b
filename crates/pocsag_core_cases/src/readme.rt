//! The example of README, which calls the planner from Rattle. A script of `tests/` wants its lines to be README's.

use crate::same;
use pocsag_plan::plan_stream;
use pocsag_words::{End, MemorySink, MemorySource};
use std::alloc::Global;

/// The batches of the transmission of a page file, which goes to `tx`, or none where the file is refused.
fn batches_of_file(
    alloc: Global,
    file: &[u8],
    tx: &mut MemorySink<4000>,
    cert: &mut MemorySink<400>,
) -> Option<u32> {
    let mut source = MemorySource::new(file, 4096, u64::MAX);
    match plan_stream(alloc, &mut source, tx, cert, 100_000, End::Open) {
        Ok(plan) => Some(plan.batches),
        Err(_) => None,
    }
}

#[test]
fn a_page_file_is_planned_in_memory(rt: HostRuntime) {
    let file = b"address,kind,message\n0,numeric,5550199\n8,tone0,\n".as_slice();
    let mut tx = MemorySink::<4000>::new(4096, u64::MAX);
    let mut cert = MemorySink::<400>::new(4096, u64::MAX);
    let batches = batches_of_file(rt.alloc(), file, &mut tx, &mut cert);
    same!(rt; batches, Some(1));
    same!(rt; tx.bytes().len(), 140);
}
