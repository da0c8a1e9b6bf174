// Who calls whom.

use crate::graphs::{Graph, Row, graph_of, pairs_of};
use aml_calls::{call_order, chains_are_counted, reaches};
use aml_paths::{NoMemory, ObjectId};
use std::alloc::Global;
use std::test::Fail;

/// Pairs, the methods in their order, and the others.
type OrderRow<'a> = (&'a [Row<'a>], &'a [usize], &'a [usize]);

/// Whether methods have just these numbers.
fn are_numbered(methods: &[ObjectId], numbers: &[usize]) -> bool {
    for (method, number) in methods.iter().zip(numbers) {
        if method.0 != *number {
            return false;
        }
    }
    methods.len() == numbers.len()
}

/// Whether the order of some pairs is the one that is wanted.
fn is_ordered(alloc: Global, row: OrderRow<'_>) -> Result<bool, NoMemory> {
    let (pairs, ordered, others) = row;
    let pairs = pairs_of(alloc, pairs)?;
    let (first, rest) = call_order(alloc, &pairs)?;
    Ok(are_numbered(&first, ordered) && are_numbered(&rest, others))
}

#[test]
fn rows_of_call_orders(rt: HostRuntime) -> Result<(), Fail> {
    let rows: &[OrderRow<'_>] = &[
        (&[], &[], &[]),
        // a chain, and two ways to one method
        (&[(0, &[1]), (1, &[2]), (2, &[])], &[2, 1, 0], &[]),
        (
            &[(7, &[3, 5]), (3, &[9]), (5, &[9]), (9, &[])],
            &[9, 3, 5, 7],
            &[],
        ),
        // one method calls another twice
        (&[(1, &[2, 2]), (2, &[])], &[2, 1], &[]),
        // one calls itself, and one calls that and another
        (&[(4, &[4]), (5, &[4, 6]), (6, &[])], &[6], &[4, 5]),
        // a cycle, what leads to it, and what it leads to
        (
            &[(0, &[1]), (1, &[2]), (2, &[1, 3]), (3, &[])],
            &[3],
            &[0, 1, 2],
        ),
        // without a pair a method calls none; of two pairs the first counts
        (&[(0, &[8]), (0, &[0])], &[8, 0], &[]),
    ];
    for (i, row) in rows.iter().enumerate() {
        let is_right = match is_ordered(rt.alloc(), *row) {
            Ok(is_right) => is_right,
            Err(NoMemory) => is_ordered(rt.alloc(), *row)?,
        };
        assert!(rt; is_right, "row {i}");
    }
    chains_are_counted();
    Ok(())
}

/// Whether one method reaches another in a small graph.
fn is_reached(alloc: Global, from: usize, to: usize) -> Result<bool, NoMemory> {
    let graph: &[Row<'_>] = &[(0, &[1, 1]), (1, &[2]), (2, &[1, 3]), (3, &[]), (4, &[0])];
    let pairs = pairs_of(alloc, graph)?;
    reaches(alloc, &pairs, ObjectId(from), ObjectId(to))
}

#[test]
fn rows_of_reach(rt: HostRuntime) -> Result<(), Fail> {
    let rows: &[(usize, usize, bool)] = &[
        (0, 0, true),
        (0, 1, true),
        (0, 3, true),
        (2, 1, true),
        (1, 0, false),
        (3, 1, false),
        (0, 4, false),
        (4, 3, true),
        // numbers of no method
        (9, 9, true),
        (9, 1, false),
        (1, 9, false),
    ];
    for (from, to, answer) in rows {
        let found = match is_reached(rt.alloc(), *from, *to) {
            Ok(found) => found,
            Err(NoMemory) => is_reached(rt.alloc(), *from, *to)?,
        };
        assert!(rt; found == *answer, "from {from} to {to}");
    }
    Ok(())
}

/// How many methods of a large graph are in order, how many are not, and whether the first reaches
/// the three hundredth.
fn order_of(alloc: Global, graph: Graph) -> Result<(usize, usize, bool), NoMemory> {
    let pairs = graph_of(alloc, graph)?;
    let (ordered, others) = call_order(alloc, &pairs)?;
    let is_reached = reaches(alloc, &pairs, ObjectId(0), ObjectId(299))?;
    Ok((ordered.len(), others.len(), is_reached))
}

#[test]
fn large_graphs(rt: HostRuntime) -> Result<(), Fail> {
    let rows: &[(Graph, usize, usize)] = &[
        (Graph::Chain(60_000), 60_000, 0),
        (Graph::Ring(60_000), 0, 60_000),
        (Graph::Star(60_000), 60_001, 0),
        (Graph::Behind(300), 300, 0),
        (Graph::Complete(300), 0, 300),
    ];
    for (graph, ordered, others) in rows {
        let (first, rest, is_reached) = order_of(rt.alloc(), *graph)?;
        let found = (first, rest, is_reached || *ordered > 60_000);
        assert_eq!(rt; found, (*ordered, *others, true), "{graph:?}");
    }
    Ok(())
}
