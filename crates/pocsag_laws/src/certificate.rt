ghost use Rattle.std.specs.Prelude.{◌≡◌, ℕ, List, [], ◌++◌};
ghost use Rattle.pocsag_words.specs.declared.ending.End.{End};
ghost use Rattle.pocsag_tree.specs.declared.refusals.CertificateFault.{CertificateFault};
ghost use Rattle.pocsag_tree.specs.BoundTrees.{BoundTree};
ghost use Rattle.pocsag_tree.specs.CertificateText.{IsText};
ghost use Rattle.pocsag_tree.specs.Parts.{HasFirst};

/// No two certificates have one text, and no text of one is a proper prefix of another, over all versions together. Bytes
/// have at most one first fault, and a text of a certificate has none.
pub fn one_certificate()
    ensures same { (bytes : List ℕ)
        (end other_end : End) (batches other_batches : ℕ) (tree other_tree : BoundTree)
        → IsText end batches tree bytes → IsText other_end other_batches other_tree bytes
        → (end ≡ other_end) × (batches ≡ other_batches) × (tree ≡ other_tree) }
    ensures no_prefix { (bytes more : List ℕ)
        (end other_end : End) (batches other_batches : ℕ) (tree other_tree : BoundTree)
        → IsText end batches tree bytes → IsText other_end other_batches other_tree (bytes ++ more)
        → more ≡ [] }
    ensures one_fault { (bytes : List ℕ) (f g : CertificateFault)
        → HasFirst f bytes → HasFirst g bytes → f ≡ g }
    ensures no_fault { (bytes : List ℕ) (end : End) (batches : ℕ) (tree : BoundTree)
        (f : CertificateFault)
        → IsText end batches tree bytes → ¬ HasFirst f bytes }
{}
