// Which methods reach each other.

use crate::graphs::{Graph, Row, graph_of, pairs_of};
use aml_calls::reaches;
use aml_components::Components;
use aml_paths::{NoMemory, ObjectId};
use std::alloc::Global;
use std::test::Fail;

/// Whether the answer for two methods is the one that two searches give.
fn is_as_reached(
    alloc: Global,
    pairs: &[(ObjectId, Vec<ObjectId>)],
    components: &Components,
    one: ObjectId,
    other: ObjectId,
) -> Result<bool, NoMemory> {
    let there = reaches(alloc, pairs, one, other)?;
    let back = reaches(alloc, pairs, other, one)?;
    Ok(components.reach_each_other(one, other) == (there && back))
}

/// Whether it is so for each two of the first methods of a graph.
fn all_are_as_reached(
    alloc: Global,
    pairs: &[(ObjectId, Vec<ObjectId>)],
    components: &Components,
    count: usize,
) -> Result<bool, NoMemory> {
    for i in 0..count {
        for j in 0..count {
            if !is_as_reached(alloc, pairs, components, ObjectId(i), ObjectId(j))? {
                return Ok(false);
            }
        }
    }
    Ok(true)
}

/// The same of a graph's rows.
fn are_as_reached(alloc: Global, row: (&[Row<'_>], usize)) -> Result<bool, NoMemory> {
    let (pairs, count) = row;
    let pairs = pairs_of(alloc, pairs)?;
    let components = Components::of(alloc, &pairs)?;
    all_are_as_reached(alloc, &pairs, &components, count)
}

#[test]
fn rows_of_components(rt: HostRuntime) -> Result<(), Fail> {
    let rows: &[(&[Row<'_>], usize)] = &[
        (&[], 3),
        // a chain, and a method that calls itself
        (&[(0, &[1]), (1, &[2]), (2, &[2])], 4),
        // two cycles, of which one leads to the other
        (&[(0, &[1]), (1, &[0, 2]), (2, &[3]), (3, &[2])], 4),
        // and back from the second
        (&[(0, &[1]), (1, &[0, 2]), (2, &[3]), (3, &[2, 1])], 4),
        // a cycle that closes early, late, and by a way across
        (
            &[(0, &[1, 4]), (1, &[2]), (2, &[3, 0]), (3, &[1]), (4, &[3])],
            6,
        ),
        (
            &[
                (0, &[1]),
                (1, &[2]),
                (2, &[3]),
                (3, &[4]),
                (4, &[2, 5]),
                (5, &[]),
            ],
            6,
        ),
        // what leads to a component that is closed, and to one that is open
        (
            &[(3, &[4]), (4, &[]), (0, &[1]), (1, &[4, 2, 3]), (2, &[0])],
            5,
        ),
        // of two pairs the first counts
        (&[(0, &[1]), (1, &[2]), (1, &[0]), (2, &[])], 3),
        // a call twice
        (&[(0, &[1, 1]), (1, &[0, 0, 2]), (2, &[2, 0])], 3),
    ];
    for (i, row) in rows.iter().enumerate() {
        let are_right = match are_as_reached(rt.alloc(), *row) {
            Ok(are_right) => are_right,
            Err(NoMemory) => are_as_reached(rt.alloc(), *row)?,
        };
        assert!(rt; are_right, "row {i}");
    }
    Ok(())
}

/// Two methods, and whether they reach each other.
type Answer = (usize, usize, bool);

/// The first two methods for which the answer is another.
fn other_answer(components: &Components, rows: &[Answer]) -> Option<(usize, usize)> {
    for (one, other, answer) in rows {
        if components.reach_each_other(ObjectId(*one), ObjectId(*other)) != *answer {
            return Some((*one, *other));
        }
    }
    None
}

#[test]
fn components_by_hand(rt: HostRuntime) -> Result<(), Fail> {
    let graph: &[Row<'_>] = &[(0, &[1]), (1, &[2]), (2, &[1, 3]), (3, &[3])];
    let rows: &[Answer] = &[
        (0, 0, true),
        (0, 1, false),
        (1, 0, false),
        (1, 2, true),
        (2, 1, true),
        (2, 3, false),
        (3, 3, true),
        // numbers of no method
        (9, 9, true),
        (9, 8, false),
        (9, 0, false),
    ];
    let pairs = pairs_of(rt.alloc(), graph)?;
    let components = Components::of(rt.alloc(), &pairs)?;
    assert_eq!(rt; other_answer(&components, rows), None);
    Ok(())
}

/// Whether each two methods that follow each other have this answer.
fn all_neighbors_have(components: &Components, count: usize, answer: bool) -> bool {
    for i in 1..count {
        if components.reach_each_other(ObjectId(i - 1), ObjectId(i)) != answer {
            return false;
        }
    }
    true
}

/// The same in a large graph.
fn all_neighbors_in(alloc: Global, graph: Graph, answer: bool) -> Result<bool, NoMemory> {
    let pairs = graph_of(alloc, graph)?;
    let components = Components::of(alloc, &pairs)?;
    Ok(all_neighbors_have(&components, pairs.len(), answer))
}

#[test]
fn components_of_large_graphs(rt: HostRuntime) -> Result<(), Fail> {
    let rows: &[(Graph, bool)] = &[
        (Graph::Chain(60_000), false),
        (Graph::Ring(60_000), true),
        (Graph::Star(60_000), false),
        (Graph::Behind(300), false),
        (Graph::Complete(300), true),
    ];
    for (graph, answer) in rows {
        let are_right = all_neighbors_in(rt.alloc(), *graph, *answer)?;
        assert!(rt; are_right, "{graph:?}");
    }
    Ok(())
}
