//! The verifier: a verdict on each method of a namespace before any of them runs (the rules are the
//! project's own; `docs/VERDICTS.md` tells them).
//!
//! Rooms: `verifier` judges one body at a time, each behind those that it calls; `read` is what it
//! read before, and what is kept of it, `body` has what is known around a body, `verdict` what is
//! said of a method, `checked` what is said of all and what is kept of their bodies, `accepts`
//! whether values are of the kinds of arguments.
#![tactic(auto)]

mod accepts;
mod body;
mod checked;
mod read;
mod verdict;
mod verifier;

pub use accepts::Misfit;
pub use checked::Checked;
pub use verdict::Verdict;
pub use verifier::{Verifier, verify};
