ghost use Rattle.std.specs.Prelude.{◌≡◌, IfOk};
ghost use Rattle.pocsag_tree.specs.Views.{bound_tree_of};
ghost use Rattle.pocsag_findings.specs.Findings.{findings_of};
ghost use Rattle.pocsag_findings.specs.Views.{all_stated};

use crate::finding::Finding;
use crate::position::NodeContext;
use crate::walk::Walk;
use pocsag_slots::Classes;
use pocsag_tree::Certificate;
use pocsag_words::OutOfMemory;
use std::alloc::Global;

/// What is found of the nodes of a certificate down to this depth, each node before its children, in the order of the
/// certificate, for a round of these classes. The classes must be counted for the certificate's end.
pub fn findings(
    alloc: Global,
    classes: &Classes,
    certificate: &Certificate,
    depth: u32,
) -> Result<Vec<Finding>, OutOfMemory>
    ensures { IfOk result (λ found. all_stated found.items ≡
        findings_of classes.now certificate.now.end certificate.now.batches depth
        (bound_tree_of certificate.now.tree)) }
{
    let context = NodeContext {
        alloc,
        classes,
        end: certificate.end,
        batches: certificate.batches.saturating_sub(1),
        depth,
    };
    let mut walk = Walk::new(context, &certificate.tree)?;
    let mut found = Vec::new(alloc);
    while let Some(finding) = walk.next()? {
        found.push(finding)?;
    }
    Ok(found)
}
