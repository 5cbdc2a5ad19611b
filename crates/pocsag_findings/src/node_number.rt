use std::alloc::AllocError;
use std::fmt::{self, Display, Formatter};

/// The number of a node: of the root 1, of its second child 1.2; before the root the path is empty. It goes from node to
/// node, each before its children.
#[derive(Drop)]
pub(crate) struct Numbering {
    pub(crate) path: Vec<u32>,
}

impl Numbering {
    /// Goes on to the next node, at this depth.
    pub(crate) fn step(&mut self, depth: u32) -> Result<(), AllocError> {
        let above = depth.saturating_sub(1) as usize;
        let before = self.path.get(above).copied().unwrap_or(0);
        self.path.truncate(above);
        self.path.push(before.saturating_add(1))?;
        Ok(())
    }
}

/// The number of the node that was reached.
impl Display for Numbering {
    fn fmt<W: fmt::Write>(&self, f: &mut Formatter<W>) -> fmt::Result {
        let mut dot = "";
        for number in self.path.iter() {
            write!(f, "{dot}{number}")?;
            dot = ".";
        }
        Ok(())
    }
}
