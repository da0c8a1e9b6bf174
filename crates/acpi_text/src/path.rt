// The first paths of objects, as they are printed.

ghost use Rattle.std.specs.Prelude.{◌≡◌, ◌++◌, OnOk};
ghost use Rattle.acpi_text.specs.Names.{object_text};
ghost use Rattle.aml_namespace.specs.Shows.{shown};

use crate::writing::RunFault;
use aml_namespace::Namespace;
use aml_path_text::push_path;
use aml_paths::ObjectId;
use std::alloc::Global;

/// Adds the first path of the object with this number, and `unresolved` where no object has it.
pub(crate) fn push_object(
    alloc: Global,
    line: &mut Vec<u8>,
    namespace: &Namespace<'_>,
    id: ObjectId,
) -> Result<(), RunFault>
    ensures { OnOk result
        (line.new.items ≡ line.old.items ++ object_text (shown namespace.now).entries id) }
{
    match namespace.object(id) {
        Some(_) => {
            push_path(alloc, line, namespace, id)?;
            Ok(())
        }
        None => {
            line.extend_from_slice(b"unresolved")?;
            Ok(())
        }
    }
}
