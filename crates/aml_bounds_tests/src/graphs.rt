// Graphs of calls.

use aml_paths::{NoMemory, ObjectId};
use std::alloc::{AllocError, Global};

/// A method and those that it calls, by their numbers.
pub type Row<'a> = (usize, &'a [usize]);

/// Methods, each with those that it calls.
pub type Pairs = Vec<(ObjectId, Vec<ObjectId>)>;

/// A large graph of so many methods.
#[derive(Clone, Copy, Debug)]
pub enum Graph {
    /// Each calls the next, and the last none.
    Chain(usize),
    /// Each calls the next, and the last the first.
    Ring(usize),
    /// All call one more.
    Star(usize),
    /// Each calls all behind it.
    Behind(usize),
    /// Each calls all.
    Complete(usize),
}

/// Methods of some numbers.
fn ids(alloc: Global, numbers: &[usize]) -> Result<Vec<ObjectId>, AllocError> {
    let mut ids = Vec::new(alloc);
    for number in numbers {
        ids.push(ObjectId(*number))?;
    }
    Ok(ids)
}

/// Pairs of methods by their numbers, where memory is left.
fn pairs_by(alloc: Global, rows: &[Row<'_>]) -> Result<Pairs, AllocError> {
    let mut pairs = Vec::new(alloc);
    for (method, callees) in rows {
        pairs.push((ObjectId(*method), ids(alloc, callees)?))?;
    }
    Ok(pairs)
}

/// Pairs of methods by their numbers.
pub fn pairs_of(alloc: Global, rows: &[Row<'_>]) -> Result<Pairs, NoMemory> {
    match pairs_by(alloc, rows) {
        Ok(pairs) => Ok(pairs),
        Err(AllocError) => Err(NoMemory),
    }
}

/// So many methods, each of which calls the next, and the last of which calls another, if any.
fn chain(alloc: Global, count: usize, last: &[usize]) -> Result<Pairs, AllocError> {
    let mut pairs = Vec::new(alloc);
    for i in 0..count {
        let next = [i + 1];
        let callees = if i + 1 < count { &next } else { last };
        pairs.push((ObjectId(i), ids(alloc, callees)?))?;
    }
    Ok(pairs)
}

/// So many methods that all call one.
fn star(alloc: Global, count: usize) -> Result<Pairs, AllocError> {
    let mut pairs = Vec::new(alloc);
    for i in 0..count {
        pairs.push((ObjectId(i), ids(alloc, &[count])?))?;
    }
    Ok(pairs)
}

/// The methods from one number on, up to another.
fn between(alloc: Global, from: usize, to: usize) -> Result<Vec<ObjectId>, AllocError> {
    let mut ids = Vec::new(alloc);
    for i in from..to {
        ids.push(ObjectId(i))?;
    }
    Ok(ids)
}

/// So many methods, each of which calls all behind it, or all.
fn complete(alloc: Global, count: usize, all: bool) -> Result<Pairs, AllocError> {
    let mut pairs = Vec::new(alloc);
    for i in 0..count {
        let from = if all { 0 } else { i + 1 };
        pairs.push((ObjectId(i), between(alloc, from, count)?))?;
    }
    Ok(pairs)
}

/// The methods of a large graph, each with those that it calls.
pub fn graph_of(alloc: Global, graph: Graph) -> Result<Pairs, NoMemory> {
    let made = match graph {
        Graph::Chain(count) => chain(alloc, count, &[]),
        Graph::Ring(count) => chain(alloc, count, &[0]),
        Graph::Star(count) => star(alloc, count),
        Graph::Behind(count) => complete(alloc, count, false),
        Graph::Complete(count) => complete(alloc, count, true),
    };
    match made {
        Ok(pairs) => Ok(pairs),
        Err(AllocError) => Err(NoMemory),
    }
}
