use crate::line::{Line, show};
use pocsag_tree::{CertificateFault, depth, nodes, read_certificate, write_certificate};
use pocsag_words::{MemorySink, MemorySource, OutOfMemory};
use std::alloc::Global;
use std::io;

// The certificate of `loops-apart` in its first version.
const LOOPS_APART: &[u8; 20] =
    b"PCB1\x00\x00\x00\x03\x02\x00\x01\x30\x00\x02\x00\x00\x01\x00\x80\x00";

fn read_loops_apart(alloc: Global, line: &mut Line) -> Result<(), OutOfMemory> {
    let mut source = MemorySource::new(LOOPS_APART, 1, 1000);
    match read_certificate(alloc, &mut source) {
        Ok(certificate) => {
            let mut sink = MemorySink::<100>::new(3, 1000);
            line.put(certificate.batches);
            line.put(nodes(&certificate.tree));
            line.put(depth(&certificate.tree));
            if write_certificate(
                certificate.end,
                certificate.batches,
                &certificate.tree,
                &mut sink,
            )
            .is_ok()
            {
                line.put_bytes(sink.bytes());
            }
        }
        Err(CertificateFault::OutOfMemory) => return Err(OutOfMemory),
        Err(_) => line.put("not read"),
    }
    Ok(())
}

pub fn show_all<R: AllocGlobal + Print>(rt: &R) -> io::Result<()> {
    show(rt, "read_certificate of loops-apart", read_loops_apart)
}
