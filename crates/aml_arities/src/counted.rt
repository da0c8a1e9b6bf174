// How many arguments names take that tables declare as others' methods (ACPI 6.5, 19.6.46,
// External).

ghost use Rattle.std.specs.Prelude.{◌≡◌, ◌≤◌, ◌<◌, ◌++◌, ◌∷◌, [], length, map, slice_get, option_and_then, Some, None, OnOk, IfOk, ◌-◌, ◌^◌, min};
ghost use Rattle.std.specs.BTreeMap.{get};
ghost use Rattle.std.specs.Ordering.{nat_cmp};
ghost use Rattle.aml_lex.specs.Names.{name_of};
ghost use Rattle.aml_paths.specs.Scopes.{scope_number};
ghost use Rattle.aml_arities.specs.Told.{declared_path};
ghost use Rattle.aml_paths.specs.Paths.{path_at};
ghost use Rattle.aml_paths.specs.Resolve.{spelled};
ghost use Rattle.aml_paths.specs.Steps.{paths_seen};
ghost use Rattle.aml_arities.specs.Counts.{CountsWithin};

use crate::external::External;
use aml_lex::{NameRef, NameSeg, name_there};
use aml_paths::{Paths, Scope};
use std::alloc::{AllocError, Global};
use std::collections::{BTreeMap, BTreeSet};

/// What declarations tell of paths.
#[derive(Drop)]
pub struct Counted {
    /// The paths of the namespace under their numbers, and behind them those that declarations
    /// spell.
    pub(crate) paths: Paths,
    /// The number of the namespace's paths, the root's among them.
    named: usize,
    /// How many arguments, by the path's number.
    counts: BTreeMap<usize, u8>,
    ghost within: { CountsWithin counts (length (paths_seen paths)) },
    ghost named_there: { named ≤ length (paths_seen paths) },
}

impl Counted {
    ghost use Rattle.aml_arities.specs.Counted.{Stays, Tells, TellsAll, all_paths, named_paths, told};

    /// The paths of a namespace, of which nothing is told.
    fn new(alloc: Global, paths: &Paths) -> Result<Counted, AllocError>
        ensures { IfOk result (λ c. TellsAll [] (paths_seen paths.now) [] c) }
    {
        Ok(Counted {
            paths: paths.copy(alloc)?,
            named: paths.len(),
            counts: BTreeMap::new(alloc),
        })
    }

    /// The number of the path that is one segment below the path with this number.
    fn step_to(&mut self, at: usize, segment: NameSeg) -> Result<usize, AllocError>
        requires { at < length (all_paths self.old) }
        ensures leads { let path = path_at (all_paths self.old) at ++ segment.bytes ∷ [] in
            IfOk result (λ n. slice_get (all_paths self.new) n ≡ Some path) }
        ensures stays { OnOk result (Stays self.old self.new) }
    {
        match self.paths.child(at, segment) {
            Some(number) => Ok(number),
            None => self.paths.add(at, segment),
        }
    }

    /// The number of the path of a name's segments below the path with this number.
    fn path_to(&mut self, base: usize, name: &NameRef<'_>) -> Result<usize, AllocError>
        requires { base < length (all_paths self.old) }
        ensures leads { let path = path_at (all_paths self.old) base ++ (name_of name.now).segs in
            IfOk result (λ n. slice_get (all_paths self.new) n ≡ Some path) }
        ensures stays { OnOk result (Stays self.old self.new) }
    {
        let mut number = base;
        for i in 0..name.segs() {
            number = self.step_to(number, name.seg(i))?;
        }
        Ok(number)
    }

    /// Tells of the path with this number that it has so many arguments, where nothing was told.
    fn tell(&mut self, number: usize, args: u8) -> Result<(), AllocError>
        requires { number < length (all_paths self.old) }
        ensures { let path = path_at (all_paths self.old) number in
            OnOk result (Tells self.old self.new (Some path) args) }
    {
        if self.counts.contains_key(&number) {
            return Ok(());
        }
        self.counts.insert(number, args)?;
        Ok(())
    }

    /// Tells what a declaration does.
    fn declare(&mut self, tables: &[&[u8]], external: External) -> Result<(), AllocError>
        ensures { let bytes = map (λ t. t.now) tables.now in
            let path = declared_path bytes (named_paths self.old) external in
            OnOk result (Tells self.old self.new path external.args) }
    {
        let scope = number_of_scope(external.name.scope);
        if scope >= self.named {
            return Ok(());
        }
        let Some(bytes) = tables.get(external.name.table) else {
            return Ok(());
        };
        let Some(name) = name_there(bytes, external.name.at) else {
            return Ok(());
        };
        let Some(base) = self.paths.base(scope, &name) else {
            return Ok(());
        };
        let number = self.path_to(base, &name)?;
        self.tell(number, external.args)
    }

    /// Makes each search for a path short, once all declarations have told.
    fn settle_chains(&mut self) -> Result<(), AllocError>
        ensures { Stays self.old self.new }
    {
        self.paths.settle_chains()
    }

    /// Of the paths of a namespace, what declarations tell.
    pub fn of(
        alloc: Global,
        paths: &Paths,
        tables: &[&[u8]],
        externals: &[External],
    ) -> Result<Counted, AllocError>
        ensures { IfOk result
            (λ c. TellsAll (map (λ t. t.now) tables.now) (paths_seen paths.now) externals.now c) }
    {
        let mut counted = Counted::new(alloc, paths)?;
        for external in externals {
            counted.declare(tables, *external)?;
        }
        counted.settle_chains()?;
        Ok(counted)
    }

    /// The segments in which those paths end that are none of the namespace.
    fn ends_spelled(&self, alloc: Global) -> Result<BTreeSet<NameSeg>, AllocError> {
        let mut ends = BTreeSet::new(alloc);
        for number in 1..self.paths.len() {
            if number >= self.named {
                ends.insert(self.paths.last_step(number).segment)?;
            }
        }
        Ok(ends)
    }

    /// The numbers of the paths that end as one that is none of the namespace, each behind its
    /// depth, in the order of the depths. A search for what is told comes to no others: a name that
    /// ends as none of these is found in the namespace, or nowhere.
    pub(crate) fn searched(&self, alloc: Global) -> Result<Vec<(usize, usize)>, AllocError> {
        let ends = self.ends_spelled(alloc)?;
        let mut numbers = Vec::new(alloc);
        for number in 1..self.paths.len() {
            let step = self.paths.last_step(number);
            if ends.contains(&step.segment) {
                numbers.push((step.spot.depth, number))?;
            }
        }
        numbers.sort_unstable();
        Ok(numbers)
    }

    /// What is told of the path with this number.
    pub(crate) fn count_at(&self, number: usize) -> Option<u8>
        ensures { result ≡ get nat_cmp self.now.counts number }
    {
        self.counts.get(&number).copied()
    }

    /// What is told of the path that a name spells in the scope whose path has this number.
    pub(crate) fn spelled_count(&self, scope: usize, name: &NameRef<'_>) -> Option<u8>
        requires { scope < length (all_paths self.now) }
        ensures { let paths = all_paths self.now in
            result ≡ option_and_then (told self.now)
            (spelled (path_at paths scope) (name_of name.now)) }
    {
        self.count_at(self.paths.spelled(scope, name)?)
    }
}

/// The number of a scope's path. No namespace has so many paths that the number is cut.
fn number_of_scope(scope: Scope) -> usize
    ensures { result ≡ min (scope_number scope) (2 ^ 64 - 1) }
{
    match scope {
        Scope::Root => 0,
        Scope::At(id) => id.0.saturating_add(1),
    }
}
