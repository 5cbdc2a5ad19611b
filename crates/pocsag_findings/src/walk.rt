ghost use Rattle.std.specs.Prelude.{◌≡◌, ◌+◌, ◌<◌, ◌++◌, ◌∷◌, [], All, IfOk, MatchOption};
ghost use Rattle.pocsag_slots.specs.Loads.{AreInOrder};
ghost use Rattle.pocsag_tree.specs.Views.{bound_tree_of};
ghost use Rattle.pocsag_findings.specs.Findings.{findings_of};
ghost use Rattle.pocsag_findings.specs.Descents.{walk_props};
ghost use Rattle.pocsag_findings.specs.Views.{stated};
ghost use Rattle.pocsag_findings.specs.Walks.{found_at, IsSound, stated_at};

use crate::finding::{Fact, Finding, Reached};
use crate::judgement::{columns_at, fact_of, is_met, narrowed_of, shares_at};
use crate::level::{Child, Level, children_of};
use crate::position::{Descent, NodeContext, Position};
use pocsag_slots::all_limits;
use pocsag_tree::Tree;
use pocsag_words::OutOfMemory;

/// The findings of a certificate down to a depth, one after the other, each node before its children.
#[derive(Drop)]
pub(crate) struct Walk<'a> {
    context: NodeContext<'a>,
    // The nodes on the path to the one that was taken last, of which children may be left.
    levels: Vec<Level<'a>>,
    ghost sound: { All (IsSound context) levels.items } by { Prim.hlevel walk_props },
}

impl<'a> Walk<'a> {
    ghost use Rattle.pocsag_findings.specs.Ahead.{findings_left};

    /// All findings of a tree that is taken to show that one batch more than the context's is needed.
    pub(crate) fn new(context: NodeContext<'a>, tree: &'a Tree) -> Result<Walk<'a>, OutOfMemory>
        ensures { IfOk result (λ walk. findings_left walk ≡
            findings_of context.entry.classes.now context.entry.end (context.entry.batches + 1) context.entry.depth
            (bound_tree_of tree.now)) }
    {
        let mut levels = Vec::new(context.alloc);
        if context.depth > 0 {
            let mut children = Vec::new(context.alloc);
            children.push(Child {
                descent: Descent::Start,
                tree,
            })?;
            levels.push(Level {
                limits: all_limits(context.classes, context.batches),
                above: 0,
                children,
                next: 0,
            })?;
        }
        Ok(Walk { context, levels })
    }

    /// The finding that comes next, or none where none is left. After an error nothing is known of the remaining
    /// findings.
    pub(crate) fn next(&mut self) -> Result<Option<Finding>, OutOfMemory>
        ensures { IfOk result (λ found. MatchOption found
            ((findings_left self.old ≡ []) × (findings_left self.new ≡ []))
            (λ finding. findings_left self.old ≡ stated finding ∷ findings_left self.new)) }
    {
        while let Some(mut level) = self.levels.pop() {
            if level.next < level.children.len() {
                let Child { descent, tree } = level.children[level.next];
                level.next += 1;
                let place = descent.position(&self.context, &level.limits, level.above);
                self.levels.push(level)?;
                return Ok(Some(self.enter(&place, tree)?));
            }
        }
        Ok(None)
    }

    // The finding of a node that stands there, whose children come next.
    fn enter(&mut self, place: &Position, tree: &'a Tree) -> Result<Finding, OutOfMemory>
        requires above { place.now.above < self.old.context.depth }
        requires ordered { AreInOrder self.old.context.classes.now place.now.limits }
        ensures { IfOk result (λ finding.
            found_at self.old.context.classes.now self.old.context.end self.old.context.batches self.old.context.depth
            place.now (bound_tree_of tree.now) ++ findings_left self.old ≡ stated finding ∷ findings_left self.new) }
    {
        let finding = finding_at(&self.context, place, tree)?;
        let above = place.above + 1;
        if above >= self.context.depth {
            return Ok(finding);
        }
        let children = children_of(&self.context, &place.limits, tree, finding.holds)?;
        self.levels.push(Level {
            limits: place.limits,
            above,
            children,
            next: 0,
        })?;
        Ok(finding)
    }
}

// What is found of a node that stands there.
fn finding_at(context: &NodeContext, place: &Position, tree: &Tree) -> Result<Finding, OutOfMemory>
    requires above { place.now.above < context.now.depth }
    requires ordered { AreInOrder context.now.classes.now place.now.limits }
    ensures { IfOk result (λ finding. stated finding ≡
        stated_at context.now.classes.now context.now.end context.now.batches place.now (bound_tree_of tree.now)) }
{
    let alloc = context.alloc;
    if let Reached::Unreached = place.reached {
        return Ok(Finding {
            depth: place.above + 1,
            reached: place.reached,
            fact: Fact::Unjudged,
            shares: Vec::new(alloc),
            columns: Vec::new(alloc),
            narrowed: Vec::new(alloc),
            caps: Vec::new(alloc),
            holds: false,
        });
    }
    let fact = fact_of(context, &place.limits, tree);
    Ok(Finding {
        depth: place.above + 1,
        reached: place.reached,
        fact,
        shares: shares_at(context, &place.limits, tree)?,
        columns: columns_at(context, &place.limits, place.above)?,
        narrowed: narrowed_of(context, &place.limits)?,
        caps: place.limits.cap.to_vec(alloc)?,
        holds: is_met(fact, context.end, context.batches),
    })
}
