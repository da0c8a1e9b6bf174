//! Judging a method's body in place, so far as it asks no other term's value: by the rules of
//! aml_judged (the kind rules, causes and bounds are the project's own), with one environment, one
//! record of exits and one sum, which change as the walk goes on.
//!
//! Rooms: `progress` says where a judgement stands; `names`, `targets`, `seen`, `mutexes`, `calls`
//! and `leaves` have what is judged without a term's value, or behind it, `definitions` what a
//! definition at the top of a body makes, `turns` what stands round a loop and under a test. What
//! is known around a body, and what is found where a rule refuses, is aml_findings'.
#![tactic(auto)]

pub mod calls;
pub mod definitions;
pub mod leaves;
pub mod mutexes;
pub mod names;
pub mod progress;
pub mod seen;
pub mod targets;
pub mod turns;

pub use progress::Progress;
