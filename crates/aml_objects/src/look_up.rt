// What names name in the scopes of objects (ACPI 6.5, 5.3).

ghost use Rattle.std.specs.Prelude.{◌≡◌, ◌≤◌, length, option_and_then, slice_get};
ghost use Rattle.aml_lex.specs.Names.{name_of};
ghost use Rattle.aml_objects.specs.Entries.{paths_in};
ghost use Rattle.aml_objects.specs.LookUp.{looked_up, named_in};

use crate::objects::Objects;
use aml_lex::NameRef;
use aml_paths::{ROOT, Scope};

impl Objects {
    ghost use Rattle.aml_objects.specs.Kept.{entries_seen};

    /// The number of the object that a name names in the scope whose path has this number.
    #[tactic(auto, using(crate::proofs::Kept::scope_there))]
    fn named_in(&self, scope: usize, name: &NameRef<'_>) -> Option<usize>
        requires { scope ≤ length (entries_seen self.now) }
        ensures { let entries = entries_seen self.now in result ≡ option_and_then
            (λ path. named_in entries path (name_of name.now))
            (slice_get (paths_in entries) scope) }
    {
        self.object_number(self.resolve(scope, name)?)
    }

    /// The number of the object that a name names in a scope; in what is none, nothing.
    #[tactic(auto, using(crate::proofs::Kept::past_paths))]
    pub fn look_up(&self, scope: Scope, name: &NameRef<'_>) -> Option<usize>
        ensures { result ≡ looked_up (entries_seen self.now) scope (name_of name.now) }
    {
        match scope {
            Scope::Root => self.named_in(ROOT, name),
            Scope::At(id) if id.0 < self.len() => self.named_in(id.0 + 1, name),
            Scope::At(_) => None,
        }
    }
}
