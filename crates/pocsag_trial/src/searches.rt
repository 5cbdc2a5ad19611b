//! Searches on worked examples and on rounds whose trees are large.
ghost use Rattle.pocsag_branch.specs.Found.{IsNodeLimit};

use crate::line::{Line, show};
use crate::pages::{FOUR_PAGES, example};
use pocsag_branch::{FallbackPlan, Found, FreeFault, SearchFault, fallback, search, search_freely};
use pocsag_check::{check, check_open};
use pocsag_core_cases::rounds::{TIGHT, has_page};
use pocsag_pages::Round;
use pocsag_slots::classes_of;
use pocsag_tree::nodes;
use pocsag_words::{End, OutOfMemory};
use std::alloc::Global;
use std::io;

const LIMIT: u32 = 100_000;

// Two pages that go round once each and meet nowhere.
const LOOPS_APART: [(u32, usize); 2] = [(0, 15), (3, 15)];

// Pages for which each tree of the search's shape has at least 354,623 nodes.
const EIGHT_PAGES: [(u32, usize); 8] = [
    (5, 4),
    (0, 8),
    (4, 8),
    (1, 2),
    (7, 30),
    (6, 14),
    (2, 30),
    (9, 14),
];

// The batches, how many steps and nodes there are, and whether the checker accepts the tree for the batches.
fn put_found(round: &Round, found: &Found, end: End, line: &mut Line) {
    line.put(found.batches);
    line.put(found.steps.len());
    line.put(nodes(&found.tree));
    line.put(check(round, found.batches, &found.tree, end));
}

/// What the search answers for the round.
pub fn put_search(
    alloc: Global,
    round: &Round,
    limit: u32,
    end: End,
    line: &mut Line,
) -> Result<(), OutOfMemory>
    requires { IsNodeLimit limit }
{
    let classes = classes_of(round, end);
    if !has_page(&classes) {
        line.put("no pages");
        return Ok(());
    }
    match search(alloc, &classes, limit, end) {
        Ok(found) => put_found(round, &found, end, line),
        Err(SearchFault::SearchLimit(stop)) => {
            line.put(stop.least);
            line.put(stop.found);
            line.put(nodes(&stop.tree));
            line.put(check_open(round, stop.found, &stop.tree, end));
        }
        Err(SearchFault::OutOfMemory) => return Err(OutOfMemory),
    }
    Ok(())
}

// The fewest batches that are shown, how many steps and nodes there are, and whether the checker accepts the
// tree for them.
fn put_fallback(round: &Round, fallback: &FallbackPlan, line: &mut Line) {
    line.put(fallback.least);
    line.put(fallback.steps.len());
    line.put(nodes(&fallback.tree));
    line.put(check(round, fallback.least, &fallback.tree, End::Open));
}

/// What the free search answers for the round, with the open end.
pub fn put_free_search(
    alloc: Global,
    round: &Round,
    limit: u32,
    line: &mut Line,
) -> Result<(), OutOfMemory>
    requires { IsNodeLimit limit }
{
    let classes = classes_of(round, End::Open);
    if !has_page(&classes) {
        line.put("no pages");
        return Ok(());
    }
    match search_freely(alloc, &classes, limit, End::Open) {
        Ok(found) => put_found(round, &found, End::Open, line),
        Err(FreeFault::SearchLimit { fallback, stop }) => {
            line.put("near");
            put_fallback(round, &fallback, line);
            line.put(nodes(&stop.tree));
            line.put(check_open(round, stop.found, &stop.tree, End::Open));
        }
        Err(FreeFault::OutOfMemory) => return Err(OutOfMemory),
    }
    Ok(())
}

fn show_fallback(
    alloc: Global,
    pages: &[(u32, usize)],
    line: &mut Line,
) -> Result<(), OutOfMemory> {
    let round = example(alloc, pages)?;
    let classes = classes_of(&round, End::Open);
    if !has_page(&classes) {
        line.put("no pages");
        return Ok(());
    }
    match fallback(alloc, &classes, End::Open) {
        Ok(fallback) => put_fallback(&round, &fallback, line),
        Err(_) => return Err(OutOfMemory),
    }
    Ok(())
}

fn show_searches<R: AllocGlobal + Print>(rt: &R) -> io::Result<()> {
    show(rt, "search of three-pages-tight", |alloc, line| {
        put_search(alloc, &example(alloc, TIGHT)?, LIMIT, End::Open, line)
    })?;
    show(rt, "search of loops-apart, closed", |alloc, line| {
        put_search(
            alloc,
            &example(alloc, &LOOPS_APART)?,
            LIMIT,
            End::Closed,
            line,
        )
    })?;
    show(rt, "search of four pages", |alloc, line| {
        put_search(alloc, &example(alloc, &FOUR_PAGES)?, LIMIT, End::Open, line)
    })?;
    show(rt, "search of loops-apart to 2 nodes", |alloc, line| {
        put_search(alloc, &example(alloc, &LOOPS_APART)?, 2, End::Open, line)
    })?;
    show(rt, "search of eight pages to 300 nodes", |alloc, line| {
        put_search(alloc, &example(alloc, &EIGHT_PAGES)?, 300, End::Open, line)
    })
}

fn show_free_searches<R: AllocGlobal + Print>(rt: &R) -> io::Result<()> {
    show(rt, "search_freely of three-pages-tight", |alloc, line| {
        put_free_search(alloc, &example(alloc, TIGHT)?, LIMIT, line)
    })?;
    show(rt, "search_freely of four pages", |alloc, line| {
        put_free_search(alloc, &example(alloc, &FOUR_PAGES)?, LIMIT, line)
    })?;
    show(rt, "search_freely of eight pages", |alloc, line| {
        put_free_search(alloc, &example(alloc, &EIGHT_PAGES)?, LIMIT, line)
    })?;
    show(
        rt,
        "search_freely of loops-apart to 1 node",
        |alloc, line| { put_free_search(alloc, &example(alloc, &LOOPS_APART)?, 1, line) },
    )?;
    show(
        rt,
        "fallback of loops-apart",
        |alloc, line| show_fallback(alloc, &LOOPS_APART, line),
    )
}

pub fn show_all<R: AllocGlobal + Print>(rt: &R) -> io::Result<()> {
    show_searches(rt)?;
    show_free_searches(rt)
}
