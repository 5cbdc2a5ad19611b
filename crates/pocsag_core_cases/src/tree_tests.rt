//! Certificates, read and written.

use crate::same;
use pocsag_tree::CertificateFault::{
    BadField, BadTag, NotCertificate, Trailing, Truncated, Version,
};
use pocsag_tree::{
    CertificateFault, Tree, TreeWriteFault, depth, nodes, read_certificate, write_certificate,
};
use pocsag_words::{End, MemorySink, MemorySource, OutOfMemory};
use std::alloc::Global;
use std::process::Abort;
use std::test::Fail;

// The certificate of two loops apart, in all versions.
const APART: &[u8] = b"PCB1\0\0\0\x03\x02\0\x01\x30\0\x02\0\0\x01\0\x80\0";

const APART_AGAIN: &[u8] = b"PCB2\0\0\0\0\x03\x02\0\x01\x30\0\x02\0\0\x01\0\x80\0";

const APART_WITH_IDLE: &[u8] = b"PCB4\0\0\0\x03\x02\0\x01\x30\0\x02\0\0\x01\0\x80\0";

const REFUSED: &[(&[u8], CertificateFault)] = &[
    (b"\0", NotCertificate),
    (b"PCB3", Version),
    (b"PCB5", Version),
    (b"PCB1\0\0\0\x01\x07", BadTag),
    (b"PCB1\0\0\0\x01\0\0\0", BadField),
    (b"PCB1", Truncated),
    (b"PCB1\0\0\0\0", BadField),
    (b"PCB1\0\0\0\x01\x01\0\0\0", BadField),
    (b"PCB1\0\0\0\x01\x02\0\x01\0\0\0", BadField),
    (b"PCB1\0\0\0\x01\x02\0\x01\0\0\x01", BadField),
    (b"PCB1\0\0\0\x01\x02\0\x01\0\x01\x11", BadField),
    // Fields out of range.
    (b"PCB2\0\0\0\0\x01\x01\0\x4e\x21", BadField),
    (b"PCB1\0\0\0\x01\x01\0\x07\xd1", BadField),
    (b"PCB1\0\0\0\x01\x04", BadTag),
    (b"PCB2\x02", BadField),
    (b"PCB2", Truncated),
    (b"PCB2\x02\0\0\0\x02\x04\x01\0\xff\xff", BadField),
    (b"PCB2\x01\0\0\0\x02\x04\0\0\xff\xff", BadField),
    (b"PCB2\x01\0\0\0\x02\x04\x03\0\xff\xff", BadField),
    (
        b"PCB1\0\0\0\x03\x02\0\x01\x30\0\x02\0\0\x01\0\x80\0\0",
        Trailing,
    ),
    // The greatest fields, and one more.
    (b"PCB2\0\0\0\0\x01\x01\x87", Truncated),
    (b"PCB2\0\0\0\0\x01\x01\x88", BadField),
    (b"PCB1\0\0\0\x01\x01\x7f\x07\xd0", Truncated),
    (b"PCB1\0\0\0\x01\x01\x80", BadField),
    (b"PCB2\0\0\0\0\x01\x02\0\x01\0\x01\x20", Truncated),
    (b"PCB2\0\0\0\0\x01\x02\0\x01\0\x01\x21", BadField),
    (b"PCB1\0\0\0\x01\x02\0\x01\0\x01\x10", Truncated),
    (b"PCB2\0\0\0\0\x01\x05", BadTag),
    (b"PCB4\0\0\0\0", BadField),
    (b"PCB4\0\0\0\x01\x01\x87", Truncated),
    (b"PCB4\0\0\0\x01\x01\x88", BadField),
    (b"PCB4\0\0\0\x01\x05", BadTag),
    (b"PCB4\0\0\0\x01\0\0\x03\0", Trailing),
];

// Certificates, and what is written of them.
const WRITTEN: &[(&[u8], &[u8])] = &[
    (APART, APART_AGAIN),
    (APART_AGAIN, APART_AGAIN),
    (b"PCB1\0\0\0\x01\0\0\x03", b"PCB2\0\0\0\0\x01\0\0\x03"),
    (b"PCB1\0\0\0\x02\0\x0c\0", b"PCB2\0\0\0\0\x02\0\x0c\0"),
    (
        b"PCB1\0\0\0\x02\x02\0\x01\x30\0\x02\0\0\x01\0\x80\0",
        b"PCB2\0\0\0\0\x02\x02\0\x01\x30\0\x02\0\0\x01\0\x80\0",
    ),
];

// Certificates that are written back as they are.
const KEPT: &[&[u8]] = &[
    b"PCB2\x01\0\0\0\x01\0\0\x03",
    b"PCB2\x01\0\0\0\x05\x04\x01\0\x80\0",
    b"PCB2\0\0\0\0\x58\0\xff\xff",
    b"PCB2\x01\0\0\0\x02\x04\x01\0\xff\xff",
    b"PCB2\0\0\0\0\x02\x04\x01\0\xff\xff",
    b"PCB2\x01\0\0\0\x02\x04\x02\0\xff\xff\0\xff\xff",
    b"PCB2\x01\0\0\0\x03\x04\x02\0\xff\xff\0\x80\0",
    b"PCB2\x01\0\0\0\x03\x04\x01\0\xff\xff",
    b"PCB2\0\0\0\0\x01\x01\0\x4e\x20\x03\x03",
    b"PCB4\0\0\0\x01\0\0\x03",
    b"PCB4\0\0\0\x02\x04\x01\0\xff\xff",
    APART_WITH_IDLE,
];

// The fault of these bytes, read one at a time, from a device that lasts for so many.
fn fault(alloc: Global, bytes: &[u8], lasting: u64) -> Option<CertificateFault> {
    let mut source = MemorySource::new(bytes, 1, lasting);
    read_certificate(alloc, &mut source).err()
}

#[test]
fn certificates_read(rt: HostRuntime) {
    let alloc = rt.alloc();
    for (bytes, due) in REFUSED {
        same!(rt; fault(alloc, bytes, u64::MAX), Some(*due), bytes);
    }
    for whole in [APART, APART_AGAIN, APART_WITH_IDLE] {
        for len in 0..whole.len() {
            let told = fault(alloc, &whole[..len], u64::MAX);
            same!(rt; told, Some(CertificateFault::Truncated), len);
        }
    }
    for place in 0..21u64 {
        let told = fault(alloc, APART, place);
        same!(rt; told, Some(CertificateFault::ReadFault), place);
    }
    same!(rt; fault(alloc, APART, 21), None);
}

fn expect_written(rt: &impl Abort, alloc: Global, bytes: &[u8], text: &[u8]) {
    let read = read_certificate(alloc, &mut MemorySource::new(bytes, 2, u64::MAX));
    let read = read.expect(rt, "a certificate");
    let mut sink = MemorySink::<64>::new(1, u64::MAX);
    let written = write_certificate(read.end, read.batches, &read.tree, &mut sink);
    same!(rt; written, Ok(()));
    same!(rt; sink.bytes(), text);
}

#[test]
fn certificates_written(rt: HostRuntime) {
    for (bytes, text) in WRITTEN {
        expect_written(&rt, rt.alloc(), bytes, text);
    }
    for text in KEPT {
        expect_written(&rt, rt.alloc(), text, text);
    }
}

#[test]
fn failing_writes(rt: HostRuntime) -> Result<(), Fail> {
    let alloc = rt.alloc();
    let tree = read_certificate(alloc, &mut MemorySource::new(APART, 1, u64::MAX))?.tree;
    for place in 0..APART_AGAIN.len() {
        let mut sink = MemorySink::<64>::new(3, place as u64);
        let written = write_certificate(End::Open, 3, &tree, &mut sink);
        same!(rt; written, Err(TreeWriteFault::WriteFault), place);
        same!(rt; sink.bytes(), &APART_AGAIN[..place]);
    }
    Ok(())
}

// A split by a class that there is not.
pub(crate) fn split_by_200(alloc: Global) -> Result<Tree, OutOfMemory> {
    Ok(Tree::Split {
        class: 200,
        m: 1,
        below: Box::new(alloc, Tree::Overload(3))?,
        from: Box::new(alloc, Tree::Overload(3))?,
    })
}

#[test]
fn trees_that_have_no_certificate(rt: HostRuntime) -> Result<(), Fail> {
    let split = split_by_200(rt.alloc())?;
    for (batches, tree) in [(1, Tree::Overload(0)), (0, Tree::Open), (1, split)] {
        let mut sink = MemorySink::<64>::new(64, u64::MAX);
        let written = write_certificate(End::Open, batches, &tree, &mut sink);
        same!(rt; written, Err(TreeWriteFault::BadTree));
        assert!(rt; sink.bytes().is_empty());
    }
    Ok(())
}

// So many splits, one below the other, and so many leaves.
pub(crate) fn splits(alloc: Global, count: usize, leaves: usize) -> Result<Vec<u8>, OutOfMemory> {
    let mut bytes = Vec::from_slice(alloc, b"PCB1\0\0\0\x01".as_slice())?;
    for _ in 0..count {
        bytes.extend_from_slice(b"\x01\0\0\x01".as_slice())?;
    }
    for _ in 0..leaves {
        bytes.push(3)?;
    }
    Ok(bytes)
}

// Nested cuts of so many children to depth 3, with leaves at depth 4, up to node 1,000,000.
fn many_nodes(
    alloc: Global,
    head: &[u8],
    cut: &[u8],
    children: u32,
) -> Result<Vec<u8>, OutOfMemory> {
    let mut bytes = Vec::from_slice(alloc, head)?;
    bytes.extend_from_slice(cut)?;
    let mut left: u32 = 999_999;
    for _ in 0..14 {
        if 0 < left {
            bytes.extend_from_slice(cut)?;
            left -= 1;
        }
        for _ in 0..children {
            if 0 < left {
                bytes.extend_from_slice(cut)?;
                left -= 1;
            }
            for _ in 0..children {
                if 0 < left {
                    bytes.push(3)?;
                    left -= 1;
                }
            }
        }
    }
    Ok(bytes)
}

#[test]
fn deep_and_large_certificates(rt: HostRuntime) -> Result<(), Fail> {
    let alloc = rt.alloc();
    for (count, due) in [
        (300, CertificateFault::TooDeep),
        (299, CertificateFault::Truncated),
    ] {
        let deep = splits(alloc, count, 0)?;
        same!(rt; fault(alloc, deep.as_slice(), u64::MAX), Some(due));
    }
    let bytes = splits(alloc, 299, 300)?;
    let tree = read_certificate(alloc, &mut MemorySource::new(&bytes, 1, u64::MAX))?.tree;
    same!(rt; (depth(&tree), nodes(&tree)), (300, 299));
    let first = many_nodes(alloc, b"PCB1\0\0\0\x01", b"\x02\0\x01\0\x01\x10", 272)?;
    let second = many_nodes(alloc, b"PCB2\0\0\0\0\x01", b"\x02\0\x01\0\x01\x20", 288)?;
    for bytes in [first, second] {
        let told = fault(alloc, bytes.as_slice(), u64::MAX);
        assert!(rt; told == Some(CertificateFault::TooMany));
    }
    Ok(())
}
