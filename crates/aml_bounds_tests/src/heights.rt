// How long chains of calls are.

use crate::graphs::{Graph, Row, graph_of, pairs_of};
use aml_calls::call_order;
use aml_components::Heights;
use aml_paths::{NoMemory, ObjectId};
use std::alloc::Global;
use std::test::Fail;

/// Pairs, and how long the longest chains are that begin with some methods.
type HeightRow<'a> = (&'a [Row<'a>], &'a [(usize, u8)]);

fn heights_of(alloc: Global, pairs: &[(ObjectId, Vec<ObjectId>)]) -> Result<Heights, NoMemory> {
    let (ordered, others) = call_order(alloc, pairs)?;
    Heights::of(alloc, pairs, &ordered, &others)
}

/// Whether a chain from a method has at most so many, and not at most one fewer; 65 is more than
/// any.
fn is_high(heights: &Heights, method: usize, height: u8) -> bool {
    for most in 0..65u8 {
        if heights.is_short(ObjectId(method), most) != (height <= most) {
            return false;
        }
    }
    true
}

/// Whether the longest chains from some methods are so long.
fn all_are_high(heights: &Heights, answers: &[(usize, u8)]) -> bool {
    for (method, height) in answers {
        if !is_high(heights, *method, *height) {
            return false;
        }
    }
    true
}

fn are_high(alloc: Global, row: HeightRow<'_>) -> Result<bool, NoMemory> {
    let (pairs, answers) = row;
    let pairs = pairs_of(alloc, pairs)?;
    let heights = heights_of(alloc, &pairs)?;
    Ok(all_are_high(&heights, answers))
}

/// The same in a large graph.
fn are_high_in(alloc: Global, graph: Graph, answers: &[(usize, u8)]) -> Result<bool, NoMemory> {
    let pairs = graph_of(alloc, graph)?;
    let heights = heights_of(alloc, &pairs)?;
    Ok(all_are_high(&heights, answers))
}

#[test]
fn rows_of_heights(rt: HostRuntime) -> Result<(), Fail> {
    let rows: &[HeightRow<'_>] = &[
        (&[], &[(0, 1), (7, 1)]),
        (
            &[(0, &[1]), (1, &[2]), (2, &[])],
            &[(0, 3), (1, 2), (2, 1), (3, 1)],
        ),
        // the longer of two ways, behind the shorter and before it
        (
            &[(0, &[1, 2]), (1, &[3]), (2, &[1]), (4, &[2, 3])],
            &[(0, 4), (1, 2), (2, 3), (3, 1), (4, 4)],
        ),
        // a cycle, what leads to it, and what it leads to
        (
            &[(0, &[1]), (1, &[2]), (2, &[1, 3]), (3, &[]), (4, &[4])],
            &[(0, 65), (1, 65), (2, 65), (3, 1), (4, 65)],
        ),
        // of two pairs the first counts
        (&[(0, &[8]), (0, &[0])], &[(0, 2), (8, 1)]),
    ];
    for (i, row) in rows.iter().enumerate() {
        let are_right = match are_high(rt.alloc(), *row) {
            Ok(are_right) => are_right,
            Err(NoMemory) => are_high(rt.alloc(), *row)?,
        };
        assert!(rt; are_right, "row {i}");
    }
    Ok(())
}

#[test]
fn heights_of_large_graphs(rt: HostRuntime) -> Result<(), Fail> {
    let rows: &[(Graph, &[(usize, u8)])] = &[
        (Graph::Chain(60_000), &[(0, 65), (59_936, 64)]),
        (Graph::Ring(60_000), &[(0, 65), (59_936, 65)]),
        (Graph::Star(60_000), &[(0, 2), (59_999, 2)]),
        (Graph::Behind(300), &[(0, 65), (236, 64)]),
        (Graph::Complete(300), &[(0, 65), (236, 65)]),
    ];
    for (graph, answers) in rows {
        let are_right = are_high_in(rt.alloc(), *graph, answers)?;
        assert!(rt; are_right, "{graph:?}");
    }
    Ok(())
}
