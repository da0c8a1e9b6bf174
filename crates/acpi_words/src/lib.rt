//! What is asked of `acpicheck`, and who is told more than what is printed: the words of the
//! command line and of standard input (`process_words`, `folder`, `first_line`, `words`), the text
//! of `--args` (`arguments`), and people (`notes`, `line_notes`).
#![tactic(auto)]

mod arguments;
mod first_line;
mod folder;
mod line_notes;
mod notes;
mod process_words;
mod words;

pub use arguments::{bad_argument, read_arguments};
pub use first_line::read_first_line;
pub use line_notes::{LineNotes, start_note};
pub use notes::{Notes, Silent, StandardError};
pub use process_words::command_words;
pub use words::{
    EvalRequest, ObjectRequest, Request, RoutingRequest, VerifyRequest, read_words, words_error,
};
