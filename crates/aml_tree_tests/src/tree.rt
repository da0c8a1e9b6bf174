// Modules and bodies written by hand from the grammar, with the place of every part.

ghost use Rattle.std.specs.Prelude.{◌-◌, get_or, []};

mod bodies;
mod definitions;
mod faults;
mod memory;
mod operators;

use aml_lex::NameRef;
use aml_tree::{Arity, Op, Span, Term, TreeFault, read_body, read_module};
use std::alloc::{AllocError, Global};
use std::process::Abort;

/// A part: what it is, its place, the place behind it, and how many parts it has itself.
type Part = (Op, usize, usize, usize);

/// A name takes as many arguments as the digit says that ends its first segment.
struct ByDigit;

impl Arity for ByDigit {
    ghost counts = { λ _ name _. get_or (get_or name.segs 0 []) 3 0 - 48 };

    fn arity(&self, name: &NameRef<'_>, _at: usize) -> u8 {
        if name.segs() == 0 {
            return 0;
        }
        name.seg(0).bytes[3].saturating_sub(b'0')
    }
}

/// A table of 36 bytes of header, which no reader looks at, and a module.
fn table_of(alloc: Global, module: &[u8]) -> Result<Vec<u8>, AllocError> {
    let mut table = [0u8; 36].to_vec(alloc)?;
    table.extend_from_slice(module)?;
    Ok(table)
}

/// The definitions of a module.
fn module_of(alloc: Global, module: &[u8]) -> Result<Vec<Term>, TreeFault> {
    let table = table_of(alloc, module)?;
    read_module(alloc, &table)
}

/// The answer for bytes that are a body and nothing else.
fn body_of(alloc: Global, body: &[u8]) -> Result<Vec<Term>, TreeFault> {
    let span = Span {
        at: 0,
        end: body.len(),
    };
    read_body(alloc, body, span, &ByDigit)
}

/// Puts terms on a stack, so that the first comes off first.
fn push_all<'a>(left: &mut Vec<&'a Term>, terms: &'a [Term]) -> Result<(), TreeFault> {
    left.extend(terms.iter().rev())?;
    Ok(())
}

/// The parts, each before its own; no more than one beyond so many.
fn parts_of(alloc: Global, terms: &[Term], most: usize) -> Result<Vec<Part>, TreeFault> {
    let mut left = Vec::new(alloc);
    push_all(&mut left, terms)?;
    let mut parts = Vec::new(alloc);
    for _ in 0..=most {
        if let Some(term) = left.pop() {
            parts.push((term.op, term.at, term.end, term.parts.len()))?;
            push_all(&mut left, &term.parts)?;
        }
    }
    Ok(parts)
}

/// Compares every part; where memory is wanted for that, once more.
fn compare(rt: &impl Abort, alloc: Global, terms: &[Term], rows: &[Part]) -> Result<(), TreeFault> {
    let parts = match parts_of(alloc, terms, rows.len()) {
        Err(TreeFault::NoMemory) => parts_of(alloc, terms, rows.len())?,
        told => told?,
    };
    assert_eq!(rt; parts.as_slice(), rows);
    Ok(())
}
