use crate::line::{Line, show};
use pocsag_text::{TextFault, pack_alpha, pack_numeric, unpack_alpha, unpack_numeric};
use pocsag_words::OutOfMemory;
use std::alloc::Global;
use std::io;

fn show_items(packed: Result<Vec<u32>, TextFault>, line: &mut Line) -> Result<(), OutOfMemory> {
    match packed {
        Ok(items) => line.put_items(items.as_slice()),
        Err(TextFault::OutOfMemory) => return Err(OutOfMemory),
        Err(fault) => line.put(fault),
    }
    Ok(())
}

fn pack_five_digits(alloc: Global, line: &mut Line) -> Result<(), OutOfMemory> {
    show_items(pack_numeric(alloc, b"12345"), line)
}

fn pack_three_letters(alloc: Global, line: &mut Line) -> Result<(), OutOfMemory> {
    show_items(pack_alpha(alloc, b"ABC"), line)
}

fn unpack_symbols(alloc: Global, line: &mut Line) -> Result<(), OutOfMemory> {
    let text = unpack_numeric(alloc, &[0x5d3b7, 0xf3333])?;
    line.put_bytes(text.as_slice());
    Ok(())
}

fn unpack_three_letters(alloc: Global, line: &mut Line) -> Result<(), OutOfMemory> {
    let text = unpack_alpha(alloc, &[0x82870, 0x80000])?;
    line.put_bytes(text.as_slice());
    Ok(())
}

pub fn show_all<R: AllocGlobal + Print>(rt: &R) -> io::Result<()> {
    show(rt, "pack_numeric of five-digits", pack_five_digits)?;
    show(rt, "pack_alpha of alpha-packing", pack_three_letters)?;
    show(rt, "unpack_numeric of numeric-symbols", unpack_symbols)?;
    show(rt, "unpack_alpha of alpha-packing", unpack_three_letters)
}
