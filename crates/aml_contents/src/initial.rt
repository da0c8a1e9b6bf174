// What the data names of a namespace hold before any evaluation.

ghost use Rattle.std.specs.Prelude.{◌≡◌, IfOk};
ghost use Rattle.aml_namespace.specs.Shows.{shown};
ghost use Rattle.aml_contents.specs.Belongs.{Belong};
ghost use Rattle.aml_contents.specs.FirstContents.{first_contents, first_kinds};

use crate::first_contents::first_content;
use crate::names::Names;
use aml_namespace::Namespace;
use aml_paths::{NoMemory, ObjectId};
use std::alloc::Global;

impl Names {
    ghost use Rattle.aml_contents.specs.Held.{contents, content_kinds};

    /// What the data names of a namespace hold before any evaluation (ACPI 6.5, 19.6, Name):
    /// integers modulo 2 to the width; strings; buffers as long as the greater of their size and
    /// their initialiser, filled with zeros; packages of as many elements as they tell, further
    /// ones dropped and missing ones unset, in packages too. A package's names are looked up from
    /// the scope in which the data name stands, when all tables are loaded. `_REV` is 2, and `_OS_`
    /// the host's text. The names belong to the namespace.
    pub fn initial(alloc: Global, namespace: &Namespace<'_>) -> Result<Names, NoMemory>
        ensures contents { let ns = shown namespace.now in
            IfOk result (λ made. contents made ≡ first_contents ns) }
        ensures kinds { let ns = shown namespace.now in
            IfOk result (λ made. content_kinds made ≡ first_kinds ns) }
        ensures belong { let ns = shown namespace.now in
            IfOk result (λ made. Belong ns (content_kinds made)) }
    {
        Names::first(alloc, namespace)
    }

    /// What the data names of a namespace hold before any evaluation.
    fn first(alloc: Global, namespace: &Namespace<'_>) -> Result<Names, NoMemory>
        ensures contents { let ns = shown namespace.now in
            IfOk result (λ made. contents made ≡ first_contents ns) }
        ensures kinds { let ns = shown namespace.now in
            IfOk result (λ made. content_kinds made ≡ first_kinds ns) }
    {
        let mut names = Names::new(alloc);
        for i in 0..namespace.len() {
            let held = first_content(alloc, namespace, ObjectId(i))?;
            names.push(alloc, namespace.width(), held)?;
        }
        Ok(names)
    }
}
