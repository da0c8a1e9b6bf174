// Paths as they are printed.

ghost use Rattle.std.specs.Prelude.{◌≡◌, ◌+◌, ◌≤◌, ◌∷◌, [], length, slice_index, option_and_then};
ghost use Rattle.aml_paths.specs.Paths.{path_number};
ghost use Rattle.aml_paths.specs.Printed.{path_in, segments_in};

use crate::paths::{Paths, ROOT};
use aml_lex::NameSeg;

/// The four characters from a place on.
fn segment_at(text: &[u8], at: usize) -> NameSeg
    requires { at + 4 ≤ length text.now }
    ensures { result.bytes ≡ slice_index text.now at ∷ slice_index text.now (at + 1)
        ∷ slice_index text.now (at + 2) ∷ slice_index text.now (at + 3) ∷ [] }
{
    NameSeg {
        bytes: [text[at], text[at + 1], text[at + 2], text[at + 3]],
    }
}

impl Paths {
    ghost use Rattle.aml_paths.specs.Steps.{paths_seen};

    /// The number of the path that a text prints: `\` and segments joined by `.`.
    pub fn printed(&self, text: &[u8]) -> Option<usize>
        ensures { let paths = paths_seen self.now in
            result ≡ option_and_then (path_number paths) (path_in text.now) }
    {
        match text {
            [b'\\', segments @ ..] => self.printed_below_root(segments),
            _ => None,
        }
    }

    /// The number of the path whose segments a text prints.
    fn printed_below_root(&self, text: &[u8]) -> Option<usize>
        ensures { let paths = paths_seen self.now in
            result ≡ option_and_then (path_number paths) (segments_in text.now) }
    {
        let mut number = ROOT;
        let mut at = 0;
        while text.len() - at > 4 {
            let segment = segment_at(text, at);
            if text[at + 4] != b'.' {
                return None;
            }
            number = self.child(number, segment)?;
            at += 5;
        }
        if text.len() - at < 4 {
            return None;
        }
        self.child(number, segment_at(text, at))
    }
}
