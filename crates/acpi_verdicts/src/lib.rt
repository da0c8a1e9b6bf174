//! The verdicts on the methods of a namespace, as they are printed, and what people are told of why
//! a method is refused.
//!
//! Rooms: `listed` prints the verdicts and answers whether a method is refused, `words` has what
//! causes mean, `findings` what was found there and what was wanted, `outside` what is wanted of
//! what has no meaning, `about` the region or the method that a cause is about, `explained` what is
//! told of a refused method and of those that it calls, `totals` how many methods are refused for
//! which cause, `errors` what is told of an AML error that ends an evaluation, `arguments` of
//! arguments that a method does not take.
#![tactic(auto)]

mod about;
mod arguments;
mod errors;
mod explained;
mod findings;
mod listed;
mod outside;
mod totals;
mod words;

pub use arguments::misfit_note;
pub use errors::error_text;
pub use explained::{explain, unread_text};
pub use listed::{any_refused, list_said, list_verdicts};
pub use totals::summary;
