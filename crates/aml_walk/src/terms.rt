// The terms of a body: a cycle of functions, each one form of the judgement.

pub mod acts;
mod blocks;
mod calls;
mod operators;
mod stores;
