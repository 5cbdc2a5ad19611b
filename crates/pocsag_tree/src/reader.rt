ghost use Rattle.std.specs.Prelude.{◌≡◌, ℕ, ◌+◌, ◌<◌, ◌≤◌, [], ◌∷◌, length, Err, IfOk, IfErr, OnOk, OnErr, IsErrOf, MatchOption};
ghost use Rattle.pocsag_words.specs.declared.ending.End.{End};
ghost use Rattle.pocsag_words.specs.Devices.{HasFailed};
ghost use Rattle.pocsag_tree.specs.Limits.{greatest_depth, most_nodes};
ghost use Rattle.pocsag_tree.specs.BoundTrees.{BoundTree, all_nodes, depth_of};
ghost use Rattle.pocsag_tree.specs.Views.{bound_tree_of, bounds_of};
ghost use Rattle.pocsag_tree.specs.CertificateText.{IsText};
ghost use Rattle.pocsag_tree.specs.Parts.{HasFirst};
ghost use Rattle.pocsag_tree.specs.Answers.{AnswersTriple, AnswersFault, IsFault, HasNoFault, given_before};
ghost use Rattle.pocsag_tree.specs.declared.refusals.CertificateFault.{CertificateFault};
ghost use Rattle.pocsag_tree.specs.declared.refusals.CertificateFault.TheVariants as fault;
ghost use Rattle.pocsag_tree.specs.Parser.{Gives, ReadsBy, IsNodeRead, IsBodyRead, IsRowRead, IsWanting, but_last, number_then, node_then, failed_after, byte_at, number_at, small_at, large_at, row_at, overload_at, split_at, cut_at, close_at, body_at, node_at, mark_at, version_at, long_number_at, batches_at, end_at, certificate_at, all_of, IsEarly};

use crate::limits::{DEPTH_LIMIT, FIRST_VERSION, NODE_LIMIT, Ranges, SECOND_VERSION};
use crate::refusals::CertificateFault;
use crate::shape::{Certificate, Tree};
use pocsag_words::{End, Source};
use std::alloc::Global;

// The next byte, or nothing at the end.
fn read_byte<S: Source>(source: &mut S) -> Result<Option<u8>, CertificateFault>
    ensures failures { S.failures source.new ≡ failed_after result (S.failures source.old) }
    ensures refused { IfErr result (λ e. e ≡ CertificateFault.ReadFault) }
    ensures told { S.is_known → IfOk result (λ next. MatchOption next
        ((S.held source.old ≡ []) × (S.held source.new ≡ []))
        (λ byte. S.held source.old ≡ byte ∷ S.held source.new)) }
    ensures kept { S.is_known → OnErr result (S.held source.new ≡ S.held source.old) }
{
    let mut buffer = [0u8; 1];
    let count = source.read(&mut buffer)?;
    if count == 0 {
        return Ok(None);
    }
    Ok(Some(buffer[0]))
}

// The next byte, which is wanted.
#[tactic(auto, using(crate::proofs::Fronts::but_last_cons, crate::proofs::Fronts::but_last_all))]
fn next_byte<S: Source>(source: &mut S) -> Result<u8, CertificateFault>
    ensures failures { S.failures source.new ≡ failed_after result (S.failures source.old) }
    ensures reads { S.is_known → ReadsBy byte_at number_then result (S.held source.old) (S.held source.new) }
{
    match read_byte(source)? {
        Some(byte) => Ok(byte),
        None => Err(CertificateFault::Truncated),
    }
}

// A number of two bytes.
#[tactic(auto, unfolding(crate::specs::Parser::number_at))]
fn next_number<S: Source>(source: &mut S) -> Result<u16, CertificateFault>
    ensures failures { S.failures source.new ≡ failed_after result (S.failures source.old) }
    ensures reads { S.is_known → ReadsBy number_at number_then result (S.held source.old) (S.held source.new) }
{
    let high = next_byte(source)?;
    let low = next_byte(source)?;
    Ok(u16::from(high) * 256 + u16::from(low))
}

// A field of one byte, in this range.
#[tactic(auto, unfolding(crate::specs::Parser::small_at))]
fn small<S: Source>(low: u8, high: u8, source: &mut S) -> Result<u8, CertificateFault>
    ensures in_range { IfOk result (λ n. (low ≤ n) × (n ≤ high)) }
    ensures failures { S.failures source.new ≡ failed_after result (S.failures source.old) }
    ensures reads { S.is_known → ReadsBy (small_at low high) number_then result
        (S.held source.old) (S.held source.new) }
{
    let number = next_byte(source)?;
    if low <= number && number <= high {
        Ok(number)
    } else {
        Err(CertificateFault::BadField)
    }
}

// A field of two bytes, in this range.
#[tactic(auto, unfolding(crate::specs::Parser::large_at))]
fn large<S: Source>(low: u16, high: u16, source: &mut S) -> Result<u16, CertificateFault>
    ensures in_range { IfOk result (λ n. (low ≤ n) × (n ≤ high)) }
    ensures failures { S.failures source.new ≡ failed_after result (S.failures source.old) }
    ensures reads { S.is_known → ReadsBy (large_at low high) number_then result
        (S.held source.old) (S.held source.new) }
{
    let number = next_number(source)?;
    if low <= number && number <= high {
        Ok(number)
    } else {
        Err(CertificateFault::BadField)
    }
}

#[tactic(auto, unfolding(crate::specs::Parser::mark_at))]
fn mark<S: Source>(wanted: u8, source: &mut S) -> Result<(), CertificateFault>
    ensures failures { S.failures source.new ≡ failed_after result (S.failures source.old) }
    ensures reads { S.is_known → ReadsBy (mark_at wanted) (λ _ rest. rest) result
        (S.held source.old) (S.held source.new) }
{
    if next_byte(source)? == wanted {
        Ok(())
    } else {
        Err(CertificateFault::NotCertificate)
    }
}

// The ranges of the version, and the end.
#[tactic(auto, unfolding(crate::specs::Parser::version_at))]
fn version<S: Source>(source: &mut S) -> Result<(Ranges, End), CertificateFault>
    ensures failures { S.failures source.new ≡ failed_after result (S.failures source.old) }
    ensures reads { S.is_known → ReadsBy version_at (λ x rest. (x.0, x.1, rest)) result
        (S.held source.old) (S.held source.new) }
{
    match next_byte(source)? {
        0x31 => Ok((FIRST_VERSION, End::Open)),
        0x32 => {
            let closed = small(0, 1, source)? == 1;
            let end = if closed { End::Closed } else { End::Open };
            Ok((SECOND_VERSION, end))
        }
        0x34 => Ok((SECOND_VERSION, End::Idle)),
        _ => Err(CertificateFault::Version),
    }
}

// A number of four bytes, which is not 0.
#[tactic(auto, unfolding(crate::specs::Parser::batches_at, crate::specs::Parser::long_number_at))]
fn batches<S: Source>(source: &mut S) -> Result<u32, CertificateFault>
    ensures failures { S.failures source.new ≡ failed_after result (S.failures source.old) }
    ensures reads { S.is_known → ReadsBy batches_at number_then result (S.held source.old) (S.held source.new) }
{
    let high = next_number(source)?;
    let low = next_number(source)?;
    let number = u32::from(high) * 65536 + u32::from(low);
    if 1 <= number {
        Ok(number)
    } else {
        Err(CertificateFault::BadField)
    }
}

#[tactic(auto, unfolding(crate::specs::Parser::end_at))]
fn end<S: Source>(source: &mut S) -> Result<(), CertificateFault>
    ensures failures { S.failures source.new ≡ failed_after result (S.failures source.old) }
    ensures shrinks { S.is_known → length (S.held source.new) ≤ length (S.held source.old) }
    ensures bytes { S.is_known → Gives (λ _. tt) ⊥ result (end_at (S.held source.old)) }
    ensures kept { S.is_known → IsErrOf result CertificateFault.ReadFault
        → S.held source.new ≡ S.held source.old }
    ensures small { ¬ IsErrOf result CertificateFault.OutOfMemory }
{
    match read_byte(source)? {
        Some(_) => Err(CertificateFault::Trailing),
        None => Ok(()),
    }
}

// Whether a node may stand here, which is judged before any byte of it.
fn wanted(depth: u32, made: u32) -> Result<(), CertificateFault>
    ensures fine { OnOk result ((1 ≤ depth) × (made < most_nodes)) }
    ensures early { IfErr result (λ e. IsEarly depth made e) }
{
    if depth == 0 {
        return Err(CertificateFault::TooDeep);
    }
    if made >= NODE_LIMIT {
        return Err(CertificateFault::TooMany);
    }
    Ok(())
}

// What a tree is built by: the memory, and the ranges of the certificate's version.
#[derive(Clone, Copy)]
struct Builder {
    alloc: Global,
    ranges: Ranges,
}

#[cycle(node)]
#[tactic(auto, unfolding(crate::specs::Parser::node_at))]
fn node<S: Source>(
    builder: Builder,
    depth: u32,
    made: u32,
    source: &mut S,
) -> Result<(Tree, u32), CertificateFault>
    requires { made ≤ most_nodes }
    ensures counts { IfOk result (λ x. IsNodeRead depth made (bound_tree_of x.0) x.1) }
    ensures failures { S.failures source.new ≡ failed_after result (S.failures source.old) }
    ensures reads { S.is_known → ReadsBy (node_at builder.ranges depth made) node_then result
        (S.held source.old) (S.held source.new) }
{
    wanted(depth, made)?;
    let tag = next_byte(source)?;
    if tag > builder.ranges.tag {
        return Err(CertificateFault::BadTag);
    }
    body(builder, tag, depth - 1, made + 1, source)
}

#[cycle(node)]
#[tactic(auto, unfolding(crate::specs::Parser::body_at, crate::specs::Parser::overload_at))]
fn body<S: Source>(
    builder: Builder,
    tag: u8,
    depth: u32,
    made: u32,
    source: &mut S,
) -> Result<(Tree, u32), CertificateFault>
    requires { made ≤ most_nodes }
    ensures counts { IfOk result (λ x. IsBodyRead depth made (bound_tree_of x.0) x.1) }
    ensures failures { S.failures source.new ≡ failed_after result (S.failures source.old) }
    ensures reads { S.is_known →
        ReadsBy (body_at builder.ranges (node_at builder.ranges depth) tag made) node_then result
        (S.held source.old) (S.held source.new) }
{
    match tag {
        0 => {
            let set = large(1, u16::MAX, source)?;
            Ok((Tree::Overload(set), made))
        }
        1 => split(builder, depth, made, source),
        2 => cut(builder, depth, made, source),
        3 => Ok((Tree::Open, made)),
        _ => close(builder, depth, made, source),
    }
}

// Room for the children of a `Split`.
fn two_boxes(alloc: Global) -> Result<(Box<Tree>, Box<Tree>), CertificateFault>
    ensures { IfErr result (λ e. e ≡ CertificateFault.OutOfMemory) }
{
    let below = Box::new(alloc, Tree::Open)?;
    let from = Box::new(alloc, Tree::Open)?;
    Ok((below, from))
}

#[cycle(node)]
#[tactic(auto, unfolding(crate::specs::Parser::split_at))]
fn split<S: Source>(
    builder: Builder,
    depth: u32,
    made: u32,
    source: &mut S,
) -> Result<(Tree, u32), CertificateFault>
    requires { made ≤ most_nodes }
    ensures counts { IfOk result (λ x. IsBodyRead depth made (bound_tree_of x.0) x.1) }
    ensures failures { S.failures source.new ≡ failed_after result (S.failures source.old) }
    ensures reads { S.is_known → ReadsBy (split_at builder.ranges (node_at builder.ranges depth) made) node_then result
        (S.held source.old) (S.held source.new) }
{
    let class = small(0, builder.ranges.class, source)?;
    let m = large(1, builder.ranges.m, source)?;
    wanted(depth, made)?;
    let (mut below, mut from) = two_boxes(builder.alloc)?;
    let (tree, made) = node(builder, depth, made, source)?;
    let _open = Box::replace(&mut below, tree);
    let (tree, made) = node(builder, depth, made, source)?;
    let _open = Box::replace(&mut from, tree);
    Ok((
        Tree::Split {
            class,
            m,
            below,
            from,
        },
        made,
    ))
}

#[cycle(node)]
#[tactic(auto, unfolding(crate::specs::Parser::cut_at))]
fn cut<S: Source>(
    builder: Builder,
    depth: u32,
    made: u32,
    source: &mut S,
) -> Result<(Tree, u32), CertificateFault>
    requires { made ≤ most_nodes }
    ensures counts { IfOk result (λ x. IsBodyRead depth made (bound_tree_of x.0) x.1) }
    ensures failures { S.failures source.new ≡ failed_after result (S.failures source.old) }
    ensures reads { S.is_known → ReadsBy (cut_at builder.ranges (node_at builder.ranges depth) made) node_then result
        (S.held source.old) (S.held source.new) }
{
    let set = large(1, u16::MAX, source)?;
    let needed = small(0, builder.ranges.class, source)?;
    let count = large(2, builder.ranges.children, source)?;
    let (children, made) = row(builder, depth, made, count, source)?;
    Ok((
        Tree::Cut {
            set,
            needed,
            children,
        },
        made,
    ))
}

#[cycle(node)]
#[tactic(auto, unfolding(crate::specs::Parser::close_at))]
fn close<S: Source>(
    builder: Builder,
    depth: u32,
    made: u32,
    source: &mut S,
) -> Result<(Tree, u32), CertificateFault>
    requires { made ≤ most_nodes }
    ensures counts { IfOk result (λ x. IsBodyRead depth made (bound_tree_of x.0) x.1) }
    ensures failures { S.failures source.new ≡ failed_after result (S.failures source.old) }
    ensures reads { S.is_known → ReadsBy (close_at (node_at builder.ranges depth) made) node_then result
        (S.held source.old) (S.held source.new) }
{
    let count = small(1, 2, source)?;
    let (children, made) = row(builder, depth, made, u16::from(count), source)?;
    Ok((Tree::Close { children }, made))
}

// So many nodes, one after the other.
#[cycle(node)]
fn row<S: Source>(
    builder: Builder,
    depth: u32,
    made: u32,
    count: u16,
    source: &mut S,
) -> Result<(Vec<Tree>, u32), CertificateFault>
    requires few { made ≤ most_nodes }
    requires some { 1 ≤ count }
    ensures counts { IfOk result (λ x. IsRowRead depth made (bounds_of x.0.items) x.1) }
    ensures failures { S.failures source.new ≡ failed_after result (S.failures source.old) }
    ensures reads { S.is_known →
        ReadsBy (row_at (node_at builder.ranges depth) count made) (λ x rest. (bounds_of x.0.items, x.1, rest)) result
        (S.held source.old) (S.held source.new) }
{
    wanted(depth, made)?;
    let mut children = Vec::with_capacity(builder.alloc, usize::from(count))?;
    let mut reached = made;
    for _ in 0..count {
        let (child, after) = node(builder, depth, reached, source)?;
        children.push_reserved(child);
        reached = after;
    }
    Ok((children, reached))
}

// A certificate, whatever comes after it.
#[tactic(auto, unfolding(crate::specs::Parser::certificate_at))]
fn certificate<S: Source>(alloc: Global, source: &mut S) -> Result<Certificate, CertificateFault>
    ensures deep { IfOk result (λ c. depth_of (bound_tree_of c.tree) ≤ greatest_depth) }
    ensures few { IfOk result (λ c. all_nodes (bound_tree_of c.tree) ≤ most_nodes) }
    ensures failures { S.failures source.new ≡ failed_after result (S.failures source.old) }
    ensures reads { S.is_known →
        ReadsBy certificate_at (λ c rest. (c.end, c.batches, bound_tree_of c.tree, rest)) result
        (S.held source.old) (S.held source.new) }
{
    mark(0x50, source)?;
    mark(0x43, source)?;
    mark(0x42, source)?;
    let (ranges, end) = version(source)?;
    let batches = batches(source)?;
    let (tree, _) = node(Builder { alloc, ranges }, DEPTH_LIMIT, 0, source)?;
    Ok(Certificate { end, batches, tree })
}

// A certificate, and then the end.
#[tactic(auto, using(crate::proofs::Fronts::but_last_none), unfolding(crate::specs::Parser::all_of))]
fn all<S: Source>(alloc: Global, source: &mut S) -> Result<Certificate, CertificateFault>
    ensures deep { IfOk result (λ c. depth_of (bound_tree_of c.tree) ≤ greatest_depth) }
    ensures few { IfOk result (λ c. all_nodes (bound_tree_of c.tree) ≤ most_nodes) }
    ensures failures { S.failures source.new ≡ failed_after result (S.failures source.old) }
    ensures bytes { S.is_known → Gives (λ c. (c.end, c.batches, bound_tree_of c.tree)) ⊥ result
        (all_of (S.held source.old)) }
    ensures wanting { S.is_known → IsErrOf result CertificateFault.ReadFault
        → IsWanting (certificate_at (but_last (length (S.held source.new)) (S.held source.old))) }
    ensures room { S.is_known → IsErrOf result CertificateFault.OutOfMemory
        → certificate_at (but_last (length (S.held source.new)) (S.held source.old)) ≡ Err fault.Truncated }
{
    let certificate = certificate(alloc, source)?;
    end(source)?;
    Ok(certificate)
}

/// Reads a certificate, in version PCB1, PCB2 or PCB4, up to the end of the input.
///
/// The fault is the first from left to right. It reads no node deeper than `DEPTH_LIMIT` and no more than
/// `NODE_LIMIT` nodes, whatever the bytes are. It takes one byte in each read, so a reader of a file must be
/// buffered. Time and memory are linear in the bytes read, beside room for at most `DEPTH_LIMIT` unfinished lists of
/// children.
pub fn read_certificate<S: Source>(
    alloc: Global,
    reader: &mut S,
) -> Result<Certificate, CertificateFault>
    // What is read is what all the bytes are a text of, and what they are a text of is read.
    ensures found { S.is_known → IfOk result (λ c.
        IsText c.end c.batches (bound_tree_of c.tree) (S.held reader.old)) }
    ensures only { S.is_known → (end : End) (batches : ℕ) (tree : BoundTree)
        → IsText end batches tree (S.held reader.old) → AnswersTriple result end batches tree }
    // A fault is the first of the bytes, and the first of the bytes is answered.
    ensures fault { S.is_known → IfErr result (λ e. IsFault e (S.held reader.old)) }
    ensures first { S.is_known → (f : CertificateFault)
        → HasFirst f (S.held reader.old) → AnswersFault result f }
    // No fault stands in what the reader gave before it failed.
    ensures in_place { S.is_known → IsErrOf result CertificateFault.ReadFault
        → HasNoFault (given_before (S.held reader.old) (S.held reader.new)) }
    // Memory is wanting only where a further byte is wanted, and no fault stands before it.
    ensures room { S.is_known → IsErrOf result CertificateFault.OutOfMemory
        → HasFirst fault.Truncated (given_before (S.held reader.old) (S.held reader.new)) }
    // What is read is small enough to be read again, also where the reader reports nothing.
    ensures deep { IfOk result (λ c. depth_of (bound_tree_of c.tree) ≤ greatest_depth) }
    ensures few { IfOk result (λ c. all_nodes (bound_tree_of c.tree) ≤ most_nodes) }
    // The reader failed in this call exactly where that is answered.
    ensures succeeded { ¬ IsErrOf result CertificateFault.ReadFault
        → S.failures reader.new ≡ S.failures reader.old }
    ensures failed { IsErrOf result CertificateFault.ReadFault
        → HasFailed (S.failures reader.old) (S.failures reader.new) }
{
    all(alloc, reader)
}
