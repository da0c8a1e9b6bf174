// Paths of a namespace, as they are printed.

ghost use Rattle.std.specs.Prelude.{◌≡◌, ◌++◌, OnOk};
ghost use Rattle.aml_namespace.specs.Shows.{shown};
ghost use Rattle.aml_path_text.specs.Paths.{path_of};
ghost use Rattle.aml_paths.specs.Printed.{path_text};
ghost use Rattle.aml_paths.specs.Steps.{path_seen};

use aml_lex::NameSeg;
use aml_namespace::Namespace;
use aml_paths::{NoMemory, ObjectId};
use std::alloc::{AllocError, Global};

/// Adds the path with this number; the root's behind the last.
pub fn push_path(
    alloc: Global,
    line: &mut Vec<u8>,
    namespace: &Namespace<'_>,
    id: ObjectId,
) -> Result<(), NoMemory>
    ensures { OnOk result (line.new.items
        ≡ line.old.items ++ path_text (path_of (shown namespace.now).entries id.0)) }
{
    match namespace.path(alloc, id)? {
        Some(path) => push_segments(line, path.as_slice())?,
        None => push_segments(line, &[])?,
    }
    Ok(())
}

// Adds the path of these segments.
fn push_segments(line: &mut Vec<u8>, path: &[NameSeg]) -> Result<(), AllocError>
    ensures { OnOk result (line.new.items ≡ line.old.items ++ path_text (path_seen path.now)) }
{
    line.push(b'\\')?;
    for (i, segment) in path.iter().enumerate() {
        if i > 0 {
            line.push(b'.')?;
        }
        line.extend_from_slice(&segment.bytes)?;
    }
    Ok(())
}
