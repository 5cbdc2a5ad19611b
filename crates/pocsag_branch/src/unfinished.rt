ghost use Rattle.std.specs.Prelude.{◌≡◌};
ghost use Rattle.pocsag_tree.specs.Views.{bound_tree_of, bounds_of};
ghost use Rattle.pocsag_branch.specs.Marks.{has_open, have_open};

use pocsag_tree::Tree;

// Whether some node of the tree is `Open`.
#[cycle(unfinished)]
pub(crate) fn is_unfinished(tree: &Tree) -> bool
    ensures { result ≡ has_open (bound_tree_of tree.now) }
{
    match tree {
        Tree::Overload(_) => false,
        Tree::Split { below, from, .. } => is_unfinished(below) || is_unfinished(from),
        Tree::Cut { children, .. } => any_unfinished(children),
        Tree::Close { children } => any_unfinished(children),
        Tree::Open => true,
    }
}

#[cycle(unfinished)]
fn any_unfinished(trees: &[Tree]) -> bool
    ensures { result ≡ have_open (bounds_of trees.now) }
{
    for tree in trees {
        if is_unfinished(tree) {
            return true;
        }
    }
    false
}
