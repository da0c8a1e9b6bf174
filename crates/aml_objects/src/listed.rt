// All methods and all paths, in order of definition.

ghost use Rattle.std.specs.Prelude.{◌≡◌, ◌<◌, ◌∷◌, [], length, map, slice_get, IfOk};
ghost use Rattle.aml_objects.specs.LookUp.{is_method, methods_in, owned_at, owned_paths};

use crate::object::Object;
use crate::objects::{Objects, owner};
use aml_lex::NameSeg;
use aml_paths::ObjectId;
use std::alloc::{AllocError, Global};

/// A path's segments from the root on, with the number of its object.
type OwnedPath = (Vec<NameSeg>, ObjectId);

/// Whether an object is a method.
fn is_method(object: Option<Object>) -> bool
    ensures { result ≡ is_method object }
{
    matches!(object, Some(Object::Method(_)))
}

impl Objects {
    ghost use Rattle.aml_objects.specs.Kept.{entries_seen, owned_kept};

    /// The numbers of all methods.
    pub fn methods(&self, alloc: Global) -> Result<Vec<ObjectId>, AllocError>
        ensures { IfOk result (λ methods. methods.items ≡ methods_in (entries_seen self.now)) }
    {
        let mut methods = Vec::new(alloc);
        for number in 0..self.len() {
            if is_method(self.object(number)) {
                methods.push(ObjectId(number))?;
            }
        }
        Ok(methods)
    }

    /// The path with this number, with the number of its object.
    fn owned_path(&self, alloc: Global, number: usize) -> Result<OwnedPath, AllocError>
        requires { number < length (entries_seen self.now) }
        ensures { IfOk result
            (λ owned. owned_at number (slice_get (entries_seen self.now) number) ≡
            owned_kept owned ∷ []) }
    {
        let path = self.paths.path(alloc, number + 1)?;
        Ok((path, ObjectId(owner(number, self.entries[number]))))
    }

    /// All paths, each with the number of its object.
    pub fn owned_paths(&self, alloc: Global) -> Result<Vec<OwnedPath>, AllocError>
        ensures { IfOk result
            (λ paths. map owned_kept paths.items ≡ owned_paths (entries_seen self.now)) }
    {
        let mut paths = Vec::new(alloc);
        for number in 0..self.len() {
            paths.push(self.owned_path(alloc, number)?)?;
        }
        Ok(paths)
    }
}
