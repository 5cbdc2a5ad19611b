//! Classes of pages by what a person knows of them: some addresses and lengths.

use crate::sets::FIRST_ALONE;
use arrayvec::ArrayVec;
use pocsag_pages::Round;
use pocsag_slots::{CLASSES, Classes, class_of, frame, rest};
use pocsag_words::End;
use std::alloc::{AllocError, Global};
use std::fmt::{self, Display, Formatter};

// How many different addresses, and how many lengths, are named of a class at the most.
const NAMED: usize = 3;

// Different numbers in the order in which they came, with one more than are named where there are more.
type Sample = ArrayVec<u64, 4>;

fn add_different(sample: &mut Sample, number: u64) {
    if !sample.as_slice().contains(&number) {
        let _ = sample.try_push(number);
    }
}

/// What is reported of the pages of one class.
#[derive(Drop)]
pub(crate) struct ClassPages {
    addresses: Sample,
    lengths: Sample,
    /// How many whole turns of sixteen codewords they take together.
    pub(crate) turns: u32,
}

/// The kinds of a round whose classes were counted for the end, class by class.
pub(crate) fn kinds_of(
    alloc: Global,
    round: &Round,
    end: End,
    classes: &Classes,
) -> Result<Vec<ClassPages>, AllocError> {
    let mut kinds = Vec::new(alloc);
    for turns in classes.turns.iter() {
        kinds.push(ClassPages {
            addresses: ArrayVec::new(),
            lengths: ArrayVec::new(),
            turns: *turns,
        })?;
    }
    for page in round.pages() {
        let class = class_of(page, end).number;
        if let Some(kind) = kinds.get_mut(usize::from(class)) {
            let message = page.payload.as_slice().len() as u64;
            add_different(&mut kind.addresses, u64::from(page.address));
            add_different(&mut kind.lengths, message.saturating_add(1));
        }
    }
    Ok(kinds)
}

// Some numbers of a sample: `3`, `3 or 11`, `3, 11, 19, ..`.
#[derive(Clone, Copy)]
struct SampleWords<'a>(&'a Sample);

impl Display for SampleWords<'_> {
    fn fmt<W: fmt::Write>(&self, f: &mut Formatter<W>) -> fmt::Result {
        let numbers = self.0.as_slice();
        let (named, more) = numbers.split_at(numbers.len().min(NAMED));
        let mut link = "";
        for (place, number) in named.iter().enumerate() {
            write!(f, "{link}{number}")?;
            let is_next_last = numbers.len().saturating_sub(place) == 2;
            link = if is_next_last { " or " } else { ", " };
        }
        f.write_str(if more.is_empty() { "" } else { ", .." })
    }
}

/// The pages of a class: `address 3, 11, 19, .. (2 or 18 codewords)`; where the round has none
/// `frame 5 and length 4 modulo 16`.
#[derive(Clone, Copy)]
pub(crate) struct KindWords<'a>(pub(crate) &'a [ClassPages], pub(crate) u8);

impl Display for KindWords<'_> {
    fn fmt<W: fmt::Write>(&self, f: &mut Formatter<W>) -> fmt::Result {
        let KindWords(kinds, class) = *self;
        match kinds.get(usize::from(class)) {
            Some(kind) if kind.addresses.len() > 0 => {
                let addresses = SampleWords(&kind.addresses);
                let lengths = SampleWords(&kind.lengths);
                let is_one = kind.lengths.as_slice() == [1].as_slice();
                let noun = if is_one { "codeword" } else { "codewords" };
                write!(f, "address {addresses} ({lengths} {noun})")
            }
            _ if usize::from(class) >= CLASSES => { write!(f, "class {class}, which there is not") }
            _ => {
                let frame = frame(class);
                let rest = rest(class);
                let modulo = if class >= FIRST_ALONE {
                    ""
                } else {
                    " modulo 16"
                };
                write!(f, "frame {frame} and length {rest}{modulo}")
            }
        }
    }
}
