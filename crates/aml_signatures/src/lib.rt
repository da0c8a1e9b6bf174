//! The kinds of methods' arguments, as a text tells them. Rooms: `argument_kind`; `words`, what the
//! words of a line tell; `signatures`, what a text tells by paths; `fault`, why a text tells
//! nothing.
#![tactic(auto)]

mod argument_kind;
mod fault;
mod signatures;
mod words;

pub use argument_kind::ArgumentKind;
pub use fault::SignatureFault;
pub use signatures::Signatures;
