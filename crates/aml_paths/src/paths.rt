// Absolute paths, each under a number (ACPI 6.5, 5.3).

ghost use Rattle.std.specs.Prelude.{◌≡◌, ◌<◌, ◌≤◌, ◌++◌, ◌∷◌, ℕ, false, [], length, take, slice_get, Some, None, OnOk, OnErr, IfOk};
ghost use Rattle.aml_lex.specs.Names.{name_of};
ghost use Rattle.aml_paths.specs.Chains.{AreLasts, CanFollow, number_below_chain, spots_of};
ghost use Rattle.aml_paths.specs.Marks.{AreMarked};
ghost use Rattle.aml_paths.specs.Paths.{root, path_at, path_number, number_above, number_below};
ghost use Rattle.aml_paths.specs.Resolve.{greatest, upward_search};
ghost use Rattle.aml_paths.specs.Trie.{AreNumbered, path_of};

use crate::chains::{Spot, holds, note_last};
use crate::marks::{group_of, mark_below, may_stand};
use crate::place::{Characters, Place};
use aml_lex::{NameRef, NameSeg};
use std::alloc::{AllocError, Global};
use std::collections::BTreeMap;

/// The number of the root's path.
pub const ROOT: usize = 0;

/// How many changes of chain a path may have above it, however few paths there are.
const CHANGES: usize = 64;

/// For so many paths a path may have one change more above it. The more paths there are, the more
/// must then be made until chains are laid anew, so that whoever chooses them gains little by
/// having them so.
const PATHS_A_CHANGE: usize = 256;

/// So many changes no path has above it on chains that are laid anew, in a namespace of any size.
const FEW_CHANGES: usize = 20;

/// A path as one segment below another.
#[derive(Clone, Copy, Debug)]
pub struct Step {
    pub segment: NameSeg,
    /// The other path's number.
    pub parent: usize,
    pub spot: Spot,
}

/// Absolute paths, each under a number: the root's is 0. With a path stand all that begin it, and
/// only the last step of each is kept, so that a path of thousands of segments is not stored whole
/// once for each name below it.
#[derive(Drop)]
pub struct Paths {
    /// Of the paths but the root, in the order of their numbers.
    steps: Vec<Step>,
    /// The number of the path at a place: an ordered map, so that whoever chooses the segments
    /// cannot make a look-up slow.
    numbers: BTreeMap<Place, usize>,
    /// At the number of a chain's first path, but for the root, that of its last.
    lasts: Vec<usize>,
    /// At the number of a chain's first path, which segments may stand below the chain's paths.
    marks: Vec<u64>,
    ghost numbered: { AreNumbered numbers steps.items },
    ghost ended: { AreLasts lasts.items (spots_of steps.items) },
    ghost marked: { AreMarked marks.items numbers },
}

impl Paths {
    ghost use Rattle.aml_paths.specs.Steps.{path_seen, paths_seen};

    /// The root alone.
    pub fn new(alloc: Global) -> Paths
        ensures { paths_seen result ≡ root ∷ [] }
    {
        Paths {
            steps: Vec::new(alloc),
            numbers: BTreeMap::new(alloc),
            lasts: Vec::new(alloc),
            marks: Vec::new(alloc),
        }
    }

    /// How many paths there are, the root among them.
    pub fn len(&self) -> usize
        ensures { result ≡ length (paths_seen self.now) }
    {
        self.steps.len() + 1
    }

    /// Where the path with this number stands.
    fn spot(&self, number: usize) -> Spot
        requires { number < length (paths_seen self.now) }
        ensures { slice_get (spots_of self.now.steps.items) number ≡ Some result }
    {
        if number == ROOT {
            return Spot {
                top: ROOT,
                depth: 0,
                changes: 0,
            };
        }
        self.steps[number - 1].spot
    }

    /// Whether a path of this segment may be below one of the chain with this top.
    fn may_be_below(&self, top: usize, segment: NameSeg) -> bool
        ensures { let spots = spots_of self.now.steps.items in
            let find = number_below_chain (paths_seen self.now) spots top segment.bytes in
            result ≡ false → (depth : ℕ) → find depth ≡ None }
    {
        may_stand(&self.marks, top, group_of(segment))
    }

    /// The number of the path that is one segment below the path with this number.
    pub fn child(&self, at: usize, segment: NameSeg) -> Option<usize>
        ensures { result ≡ number_below (paths_seen self.now) at (segment.bytes ∷ []) }
    {
        if at >= self.len() {
            return None;
        }
        let spot = self.spot(at);
        if !self.may_be_below(spot.top, segment) {
            return None;
        }
        let place = Place {
            segment: Characters::of(segment),
            top: spot.top,
            depth: spot.depth,
        };
        self.numbers.get(&place).copied()
    }

    /// The number of the path of a name's first segments, so many of them, below the path with this
    /// number.
    pub(crate) fn below(&self, at: usize, name: &NameRef<'_>, count: usize) -> Option<usize>
        requires there { at < length (paths_seen self.now) }
        requires within { count ≤ length (name_of name.now).segs }
        ensures { result ≡
            number_below (paths_seen self.now) at (take count (name_of name.now).segs) }
    {
        let mut number = at;
        for i in 0..count {
            number = self.child(number, name.seg(i))?;
        }
        Some(number)
    }

    /// The last step to the path with this number, which is not the root.
    pub fn last_step(&self, number: usize) -> Step
        requires below_root { 0 < number }
        requires there { number < length (paths_seen self.now) }
        ensures leads { let paths = paths_seen self.now in
            slice_get paths number ≡ Some (path_of paths result) }
        ensures spot { slice_get (spots_of self.now.steps.items) number ≡ Some result.spot }
        ensures earlier { result.parent < number }
    {
        self.steps[number - 1]
    }

    /// The number of the path so many segments above the path with this number. Above the root is
    /// none, so that the loop is no longer than the path, however many carets a name has.
    pub(crate) fn above(&self, at: usize, carets: usize) -> Option<usize>
        requires { at < length (paths_seen self.now) }
        ensures { result ≡ number_above (paths_seen self.now) at carets }
    {
        let mut number = at;
        let mut left = carets;
        while left > 0 {
            if number == 0 {
                return None;
            }
            number = self.last_step(number).parent;
            left -= 1;
        }
        Some(number)
    }

    /// The number of the path of this segment below the longest path of a chain, of those that are
    /// no longer than the one at this spot, below which it stands.
    fn last_below_chain(&self, spot: Spot, segment: NameSeg) -> Option<usize>
        ensures { let spots = spots_of self.now.steps.items in
            let find = number_below_chain (paths_seen self.now) spots spot.top segment.bytes in
            result ≡ greatest find spot.depth }
    {
        if !self.may_be_below(spot.top, segment) {
            return None;
        }
        let greatest = Place {
            segment: Characters::of(segment),
            top: spot.top,
            depth: spot.depth,
        };
        let (place, number) = self.numbers.range(..=greatest).next_back()?;
        if place.top != spot.top || place.segment != Characters::of(segment) {
            return None;
        }
        Some(*number)
    }

    /// The number of the path of this segment below the longest prefix of the path with this
    /// number, the path itself among them, below which it stands.
    pub fn nearest(&self, at: usize, segment: NameSeg) -> Option<usize>
        requires { at < length (paths_seen self.now) }
        ensures { let paths = paths_seen self.now in
            result ≡ upward_search (path_number paths) (path_at paths at) segment.bytes }
    {
        let mut number = at;
        'up: loop {
            let spot = self.spot(number);
            if let Some(found) = self.last_below_chain(spot, segment) {
                return Some(found);
            }
            if spot.top == ROOT {
                return None;
            }
            number = self.last_step(spot.top).parent;
        }
    }

    /// The path with this number, its segments from the root on.
    pub fn path(&self, alloc: Global, at: usize) -> Result<Vec<NameSeg>, AllocError>
        requires { at < length (paths_seen self.now) }
        ensures { IfOk result (λ segments.
            slice_get (paths_seen self.now) at ≡ Some (path_seen segments.items)) }
    {
        let mut segments = Vec::new(alloc);
        let mut number = at;
        while number > 0 {
            let step = self.last_step(number);
            segments.push(step.segment)?;
            number = step.parent;
        }
        segments.reverse();
        Ok(segments)
    }

    /// Where a path may stand that is made one segment below the path with this number, at this
    /// spot: on that path's chain, if this is wanted and the chain ends there, and else on a chain
    /// of its own.
    fn spot_below(&self, at: usize, above: Spot, wants_to_go_on: bool) -> Spot
        requires { slice_get (spots_of self.now.steps.items) at ≡ Some above }
        ensures { CanFollow (spots_of self.now.steps.items) above result }
    {
        let number = self.len();
        let depth = above.depth + 1;
        if wants_to_go_on && holds(&self.lasts, above.top, at) {
            return Spot {
                top: above.top,
                depth,
                changes: above.changes,
            };
        }
        Spot {
            top: number,
            depth,
            changes: above.changes.saturating_add(1),
        }
    }

    /// Adds the path that is one segment below the path with this number, on that path's chain if
    /// this is wanted and the chain ends there, and answers its number.
    fn add_below(
        &mut self,
        at: usize,
        segment: NameSeg,
        wants_to_go_on: bool,
    ) -> Result<usize, AllocError>
        requires there { at < length (paths_seen self.old) }
        requires new { number_below (paths_seen self.old) at (segment.bytes ∷ []) ≡ None }
        ensures ok { let path = path_at (paths_seen self.old) at ++ segment.bytes ∷ [] in
            OnOk result (paths_seen self.new ≡ paths_seen self.old ++ path ∷ []) }
        ensures number { IfOk result (λ n. n ≡ length (paths_seen self.old)) }
        ensures err { OnErr result (paths_seen self.new ≡ paths_seen self.old) }
    {
        let number = self.len();
        let above = self.spot(at);
        let spot = self.spot_below(at, above, wants_to_go_on);
        let step = Step {
            segment,
            parent: at,
            spot,
        };
        let place = Place {
            segment: Characters::of(segment),
            top: above.top,
            depth: above.depth,
        };
        note_last(&mut self.lasts, spot.top, number)?;
        mark_below(&mut self.marks, above.top, group_of(segment))?;
        self.steps.push(step)?;
        match self.numbers.insert(place, number) {
            Ok(_) => Ok(number),
            Err(_) => {
                self.steps.pop();
                Err(AllocError)
            }
        }
    }

    /// The same paths under the same numbers, on chains that go on below each path to the one that
    /// begins the most. Each change of chain then leads to half as many paths at most, so that no
    /// path has more changes above it than the number of paths has binary digits.
    pub fn copy(&self, alloc: Global) -> Result<Paths, AllocError>
        ensures { IfOk result (λ paths. paths_seen paths ≡ paths_seen self.now) }
    {
        let heaviest = self.heaviest_below(alloc)?;
        let mut paths = Paths::new(alloc);
        for step in &self.steps {
            let goes_on = holds(&heaviest, step.parent, paths.len());
            paths.add_below(step.parent, step.segment, goes_on)?;
        }
        Ok(paths)
    }

    /// Lays the chains anew.
    fn lay_anew(&mut self) -> Result<(), AllocError>
        ensures { paths_seen self.new ≡ paths_seen self.old }
    {
        let alloc = *self.steps.allocator();
        *self = self.copy(alloc)?;
        Ok(())
    }

    /// Lays the chains anew where the path with this number has too many changes of chain above it.
    /// A search takes a look-up for each, and whoever chooses the paths could have one at each
    /// level: the first of several below a path goes on its chain, and may be the one that begins
    /// the fewest.
    fn keep_changes_few(&mut self, at: usize) -> Result<(), AllocError>
        requires { at < length (paths_seen self.old) }
        ensures { paths_seen self.new ≡ paths_seen self.old }
    {
        if self.spot(at).changes > CHANGES + self.len() / PATHS_A_CHANGE {
            self.lay_anew()?;
        }
        Ok(())
    }

    /// Whether a path has more changes of chain above it than one has on chains that are laid anew.
    fn has_many_changes(&self) -> bool {
        for step in &self.steps {
            if step.spot.changes > FEW_CHANGES {
                return true;
            }
        }
        false
    }

    /// Makes each search short, once all paths are made.
    pub fn settle_chains(&mut self) -> Result<(), AllocError>
        ensures { paths_seen self.new ≡ paths_seen self.old }
    {
        if self.has_many_changes() {
            self.lay_anew()?;
        }
        Ok(())
    }

    /// Adds the path that is one segment below the path with this number, and answers its number.
    /// Where memory is wanted, the paths stay.
    pub fn add(&mut self, at: usize, segment: NameSeg) -> Result<usize, AllocError>
        requires there { at < length (paths_seen self.old) }
        requires new { number_below (paths_seen self.old) at (segment.bytes ∷ []) ≡ None }
        ensures ok { let path = path_at (paths_seen self.old) at ++ segment.bytes ∷ [] in
            OnOk result (paths_seen self.new ≡ paths_seen self.old ++ path ∷ []) }
        ensures number { IfOk result (λ n. n ≡ length (paths_seen self.old)) }
        ensures err { OnErr result (paths_seen self.new ≡ paths_seen self.old) }
    {
        self.keep_changes_few(at)?;
        self.add_below(at, segment, true)
    }
}
