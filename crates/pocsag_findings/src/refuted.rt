ghost use Rattle.std.specs.Prelude.{◌≡◌, IfOk};

use crate::explained::JudgedCertificate;
use crate::finding::Finding;
use crate::judgement::DRAWN_DEPTH;
use crate::kind::ClassPages;
use crate::listing::findings;
use crate::node_number::Numbering;
use crate::position::NodeContext;
use crate::sentences::Sentence;
use crate::walk::Walk;
use pocsag_tree::{Certificate, Tree, nodes};
use pocsag_words::{End, OutOfMemory};

/// What a certificate is for: an end, the number of batches that it refutes, and the pages.
#[derive(Clone, Copy)]
pub(crate) struct Refuted<'a> {
    pub(crate) end: End,
    /// One batch less than the certificate shows to be needed.
    pub(crate) batches: u32,
    /// The pages that they do not hold.
    pub(crate) kinds: &'a [ClassPages],
}

/// The first node of a certificate that does not hold. Both are empty where all hold.
#[derive(Drop)]
pub(crate) struct RefusedNode {
    pub(crate) number: String,
    /// Why it does not hold.
    pub(crate) why: String,
}

/// What is explained: a certificate beside the round of a page file.
#[derive(Drop)]
pub(crate) struct Explanation<'a> {
    pub(crate) refuted: Refuted<'a>,
    pub(crate) batches: u32,
    /// Whether the checker accepts the certificate.
    pub(crate) is_shown: bool,
    pub(crate) pages: u64,
    pub(crate) codewords: u64,
    /// How many codewords the refuted batches hold.
    pub(crate) room: u64,
    /// How many nodes the tree has.
    pub(crate) nodes: u64,
    pub(crate) refused: RefusedNode,
    context: NodeContext<'a>,
    certificate: &'a Certificate,
}

impl<'a> Explanation<'a> {
    /// The explanation of a certificate, whose nodes are judged in a context.
    pub(crate) fn new(
        judged: JudgedCertificate<'a>,
        context: NodeContext<'a>,
        kinds: &'a [ClassPages],
    ) -> Result<Explanation<'a>, OutOfMemory>
        ensures end { IfOk result (λ e. e.refuted.end ≡ judged.entry.certificate.now.end) }
        ensures batches { IfOk result (λ e. e.batches ≡ judged.entry.certificate.now.batches) }
        ensures verdict { IfOk result (λ e. e.is_shown ≡ judged.entry.is_shown) }
    {
        let JudgedCertificate {
            round,
            certificate,
            is_shown,
        } = judged;
        let pages = round.pages();
        let mut codewords = pages.len() as u64;
        for page in pages {
            codewords = codewords.saturating_add(page.payload.as_slice().len() as u64);
        }
        let refuted = Refuted {
            end: certificate.end,
            batches: context.batches,
            kinds,
        };
        let mut refused = RefusedNode {
            number: String::new(context.alloc),
            why: String::new(context.alloc),
        };
        let nodes = if is_shown {
            nodes(&certificate.tree)
        } else {
            find_refused(context, refuted, &certificate.tree, &mut refused)?
        };
        Ok(Explanation {
            refuted,
            batches: certificate.batches,
            is_shown,
            pages: pages.len() as u64,
            codewords,
            room: 16 * u64::from(refuted.batches),
            nodes,
            refused,
            context,
            certificate,
        })
    }

    /// The findings that are drawn: those of the root and of the nodes right below it.
    pub(crate) fn drawn(&self) -> Result<Vec<Finding>, OutOfMemory> {
        let NodeContext { alloc, classes, .. } = self.context;
        findings(alloc, classes, self.certificate, DRAWN_DEPTH)
    }

    /// The findings of the nodes down to this depth.
    pub(crate) fn walk(&self, depth: u32) -> Result<Walk<'a>, OutOfMemory> {
        let mut context = self.context;
        context.depth = depth;
        Walk::new(context, &self.certificate.tree)
    }
}

// Finds the first node that does not hold, and why: `1.2` and `slot 15: 1 codeword at the least, room for 1`. Returns how many
// nodes there are.
fn find_refused(
    context: NodeContext<'_>,
    refuted: Refuted<'_>,
    tree: &Tree,
    refused: &mut RefusedNode,
) -> Result<u64, OutOfMemory> {
    let mut nodes: u64 = 0;
    let mut numbering = Numbering {
        path: Vec::new(context.alloc),
    };
    let mut walk = Walk::new(context, tree)?;
    while let Some(finding) = walk.next()? {
        nodes = nodes.saturating_add(1);
        numbering.step(finding.depth)?;
        if !finding.holds && refused.number.is_empty() {
            let why = Sentence(refuted, &finding);
            write!(refused.number, "{numbering}")?;
            write!(refused.why, "{why}")?;
        }
    }
    Ok(nodes)
}
