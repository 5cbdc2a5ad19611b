//! The limits of a node in words.

use crate::finding::{Finding, Narrowed};
use crate::kind::KindWords;
use crate::refuted::Refuted;
use crate::sets::{Counted, start_slot};
use std::fmt::{self, Display, Formatter};

/// What the limits of a node say beyond those of the root; nothing where they are the same.
#[derive(Clone, Copy)]
pub(crate) struct LimitWords<'a>(pub(crate) Refuted<'a>, pub(crate) &'a Finding);

impl Display for LimitWords<'_> {
    fn fmt<W: fmt::Write>(&self, f: &mut Formatter<W>) -> fmt::Result {
        let LimitWords(refuted, finding) = *self;
        let mut link = "limits: ";
        for (slot, cap) in finding.caps.iter().enumerate() {
            if *cap < refuted.batches {
                write!(f, "{link}room for {cap} in slot {slot}")?;
                link = "; ";
            }
        }
        for narrowed in finding.narrowed.iter() {
            let Narrowed {
                class,
                pages,
                lo,
                hi,
            } = *narrowed;
            write!(f, "{link}{lo}")?;
            if lo < hi {
                write!(f, " to {hi}")?;
            }
            let pages = Counted(u64::from(pages), "page");
            let kind = KindWords(refuted.kinds, class);
            let verb = if hi == 1 { "starts" } else { "start" };
            let slot = start_slot(class, true);
            write!(f, " of {pages} of {kind} {verb} in slot {slot}")?;
            link = "; ";
        }
        Ok(())
    }
}
