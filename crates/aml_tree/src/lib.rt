//! Terms of AML, read from the bytes of a table by the operator table (ACPI 6.5, 20.2.5).
//!
//! A definition block's module is read first, its methods' bodies skipped; a body is read once it
//! is known how many arguments each name takes. Each reader answers the tree that the grammar ties
//! to the bytes, or the first fault in the order of the bytes, or want of memory.
//!
//! Rooms: `walk` reads terms by the table, `opening` how one begins, `leaf` parts without parts,
//! `limit` the limits of literal sizes; `module` reads a module, `body` a method's body, `data` the
//! data of a Name and `head` how it begins, without memory. `arity` is how many arguments a name
//! takes, `operator` the operator at a place, `fault` why terms cannot be read, `laws` the laws of
//! the grammar.
#![tactic(auto)]

mod arity;
mod body;
mod data;
mod fault;
mod head;
mod laws;
mod leaf;
mod limit;
mod module;
mod opening;
mod operator;
mod walk;

pub use aml_operators::{Op, Term};
pub use arity::{Arity, NoArguments};
pub use body::{Span, made_place, read_body};
pub use data::read_data;
pub use fault::{Refusal, TreeCause, TreeFault};
pub use head::{Head, data_head, element_head};
pub use laws::{
    bodies_are_unique, faults_are_unique, faults_stand_within, modules_are_unique, names_are_there,
    trees_have_their_shape,
};
pub use module::read_module;
pub use operator::{counts_within_decide, op_at, opcodes_decide};
