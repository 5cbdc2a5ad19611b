//! What the tests give to the calls: pages, page files and transmissions, from rows of tables.

use pocsag_pages::{Page, Payload, Round, RoundFault, read_round};
use pocsag_words::{MemorySource, OutOfMemory};
use std::alloc::Global;

pub const SYNC: u32 = 0x7cd2_15d8;

pub const IDLE: u32 = 0x7a89_c197;

/// The address codeword of address 8, 11 or 15 with function 0.
pub const SECOND: u32 = 0x26ec;

/// The message codeword of `11111`.
pub const ONES: u32 = 0xc444_47b9;

/// The message codeword of `12345`.
pub const DIGITS: u32 = 0xc261_572c;

/// A page: its address, its function and its items.
pub type PageRow = (u32, u8, &'static [u32]);

pub fn page(alloc: Global, address: u32, function: u8, items: &[u32]) -> Result<Page, OutOfMemory> {
    Ok(Page {
        address,
        function,
        payload: Payload::from_vec(Vec::from_slice(alloc, items)?),
    })
}

pub fn pages(alloc: Global, rows: &[PageRow]) -> Result<Vec<Page>, OutOfMemory> {
    let mut list = Vec::new(alloc);
    for (address, function, items) in rows {
        list.push(page(alloc, *address, *function, items)?)?;
    }
    Ok(list)
}

/// So many pages of an address codeword alone, at the addresses from 0 on.
pub fn tones(alloc: Global, count: u32) -> Result<Vec<Page>, OutOfMemory> {
    let mut list = Vec::new(alloc);
    for address in 0..count {
        list.push(page(alloc, address, 0, &[])?)?;
    }
    Ok(list)
}

/// The records of a page file: what each begins with, and how many digits 1 follow.
pub type Records = &'static [(&'static str, usize)];

pub fn page_file(alloc: Global, records: &[(&str, usize)]) -> Result<Vec<u8>, OutOfMemory> {
    let mut file = Vec::from_slice(alloc, b"address,kind,message\n".as_slice())?;
    for (begins, ones) in records {
        file.extend_from_slice(begins.as_bytes())?;
        for _ in 0..*ones {
            file.push(b'1')?;
        }
        file.push(b'\n')?;
    }
    Ok(file)
}

/// The header of a page file, and behind it these bytes and so many digits 1.
pub fn file_of(alloc: Global, records: &[u8], ones: usize) -> Result<Vec<u8>, OutOfMemory> {
    let mut file = Vec::from_slice(alloc, b"address,kind,message\n".as_slice())?;
    file.extend_from_slice(records)?;
    let len = file.len().saturating_add(ones);
    file.resize(len, b'1')?;
    Ok(file)
}

/// A page file of so many pages of this kind and message, at addresses from 0 on that are so far apart.
pub fn many_records(
    alloc: Global,
    count: u32,
    apart: u32,
    page: &[u8],
) -> Result<Vec<u8>, OutOfMemory> {
    let mut file = file_of(alloc, b"", 0)?;
    for place in 0..count {
        let address = place.saturating_mul(apart);
        file.extend_from_slice(format!(in alloc; "{address},")?.as_bytes())?;
        file.extend_from_slice(page)?;
    }
    Ok(file)
}

pub fn round_of_file(alloc: Global, records: &[(&str, usize)]) -> Result<Round, RoundFault> {
    let file = page_file(alloc, records)?;
    let mut source = MemorySource::new(file.as_slice(), 64, u64::MAX);
    read_round(alloc, &mut source)
}

/// Codewords: how many there are, which one stands where nothing else is said, and the others by place.
pub type Sent = (usize, u32, &'static [(usize, u32)]);

/// One tone at slot 0.
pub const LONE_TONE: Sent = (16, IDLE, &[(0, SECOND)]);

/// One page of `12345` for address 7 across two batches.
pub const ACROSS: Sent = (32, IDLE, &[(15, 0), (16, DIGITS)]);

/// Three pages that fill two batches.
pub const TIGHT: Sent = (32, ONES, &[(0, 0), (6, SECOND), (22, 0)]);

pub fn words(alloc: Global, sent: Sent) -> Result<Vec<u32>, OutOfMemory> {
    let (count, other, placed) = sent;
    let mut words = vec![in alloc; other; count]?;
    for (place, word) in placed {
        if *place < words.len() {
            words[*place] = *word;
        }
    }
    Ok(words)
}

/// The bytes of batches of these codewords, which follow those that are there.
pub fn put_batches(bytes: &mut Vec<u8>, words: &[u32]) -> Result<(), OutOfMemory> {
    for (place, word) in words.iter().enumerate() {
        if place % 16 == 0 {
            bytes.extend_from_slice(SYNC.to_be_bytes().as_slice())?;
        }
        bytes.extend_from_slice(word.to_be_bytes().as_slice())?;
    }
    Ok(())
}

/// The bytes of batches of these codewords, without a preamble.
pub fn batches(alloc: Global, sent: Sent) -> Result<Vec<u8>, OutOfMemory> {
    let mut bytes = Vec::new(alloc);
    put_batches(&mut bytes, words(alloc, sent)?.as_slice())?;
    Ok(bytes)
}

/// The bytes of the preamble and of batches of these codewords.
pub fn transmission(alloc: Global, sent: Sent) -> Result<Vec<u8>, OutOfMemory> {
    let mut bytes = vec![in alloc; 0xaa; 72]?;
    put_batches(&mut bytes, words(alloc, sent)?.as_slice())?;
    Ok(bytes)
}

/// The first so many bytes.
pub fn cut(bytes: &[u8], len: usize) -> &[u8] {
    &bytes[..len.min(bytes.len())]
}

/// Makes these bits wrong in the words behind the preamble.
pub fn flip(bytes: &mut [u8], wrong: &[u32]) {
    for (place, bits) in wrong.iter().enumerate() {
        for (byte, flipped) in bits.to_be_bytes().iter().enumerate() {
            if let Some(sent) = bytes.get_mut(72 + 4 * place.min(100) + byte) {
                *sent ^= *flipped;
            }
        }
    }
}
