// Names and the paths that they spell (ACPI 6.5, 5.3).

ghost use Rattle.std.specs.Prelude.{◌≡◌, ◌<◌, length, option_and_then, IfSome};
ghost use Rattle.std.specs.Option.{option_map};
ghost use Rattle.aml_lex.specs.Names.{name_of};
ghost use Rattle.aml_paths.specs.Paths.{path_at, path_number};
ghost use Rattle.aml_paths.specs.Resolve.{base_of, resolve, spelled};

use crate::paths::{Paths, ROOT};
use aml_lex::{NameRef, NameSeg};

/// Where the path stands that a name spells.
#[derive(Clone, Copy, Debug)]
pub enum Lead {
    /// Above the root, or below a path that is not there.
    Nowhere,
    /// Under this number: a name without segments.
    At(usize),
    /// A segment below the path with this number.
    Below(usize, NameSeg),
}

impl Paths {
    ghost use Rattle.aml_paths.specs.Steps.{LeadsTo, paths_seen};

    /// The number of the path from which a name's segments lead, in the scope whose path has this
    /// number; above the root is none.
    pub fn base(&self, scope: usize, name: &NameRef<'_>) -> Option<usize>
        requires { scope < length (paths_seen self.now) }
        ensures found { let paths = paths_seen self.now in
            option_map (path_at paths) result ≡ base_of (path_at paths scope) (name_of name.now) }
        ensures there { IfSome result (λ n. n < length (paths_seen self.now)) }
    {
        if name.rooted() {
            return Some(ROOT);
        }
        self.above(scope, name.parents())
    }

    /// The number of the path that a name spells, where it stands.
    pub fn spelled(&self, scope: usize, name: &NameRef<'_>) -> Option<usize>
        requires { scope < length (paths_seen self.now) }
        ensures { let paths = paths_seen self.now in
            result ≡ option_and_then (path_number paths)
            (spelled (path_at paths scope) (name_of name.now)) }
    {
        self.below(self.base(scope, name)?, name, name.segs())
    }

    /// The number of the path that a name names in the scope whose path has this number.
    pub fn resolve(&self, scope: usize, name: &NameRef<'_>) -> Option<usize>
        requires { scope < length (paths_seen self.now) }
        ensures { let paths = paths_seen self.now in
            result ≡ resolve (path_number paths) (path_at paths scope) (name_of name.now) }
    {
        match name.lone_segment() {
            Some(segment) => self.nearest(scope, segment),
            None => self.spelled(scope, name),
        }
    }

    /// Where the path stands that a name spells in the scope whose path has this number.
    pub fn lead(&self, scope: usize, name: &NameRef<'_>) -> Lead
        requires { scope < length (paths_seen self.now) }
        ensures { let paths = paths_seen self.now in
            LeadsTo paths result (spelled (path_at paths scope) (name_of name.now)) }
    {
        let Some(base) = self.base(scope, name) else {
            return Lead::Nowhere;
        };
        let count = name.segs();
        if count == 0 {
            return Lead::At(base);
        }
        match self.below(base, name, count - 1) {
            Some(parent) => Lead::Below(parent, name.seg(count - 1)),
            None => Lead::Nowhere,
        }
    }
}
