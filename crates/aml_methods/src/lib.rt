//! The methods of a namespace before they are judged: what each calls, what its names mean, the
//! shapes of its literals, and the kinds of its arguments.
//!
//! Rooms: `gather` reads each body once, and hands on what was read (`trees`); `named` has what
//! names mean, and `by_number` what stands under the numbers of objects; `argument_kinds` has the
//! kinds of a method's arguments; `law` that there is what methods are judged by.
#![tactic(auto)]

mod argument_kinds;
mod by_number;
mod gather;
mod law;
mod named;
mod trees;

pub use argument_kinds::arguments;
pub use by_number::{nothing_yet, put};
pub use gather::{Gathering, gathered};
pub use law::judgings_are_there;
pub use named::Named;
pub use trees::Trees;
