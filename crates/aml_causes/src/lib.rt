//! Why a method is refused (the causes are the project's own): V1 to V18 in their order, and the
//! place in a table at which one is told. `docs/VERDICTS.md` says when each is.
#![tactic(auto)]

mod cause;

pub use cause::{Cause, Refusal};
