// The order in which methods stand behind those that they call.

ghost use Rattle.std.specs.Prelude.{◌≡◌, ◌<◌, ℕ, List, true, false, [], ◌∷◌, ◌++◌, take, slice_get, vec_len, Some, IfOk, OnOk};
ghost use Rattle.aml_calls.specs.Chains.{is_among};
ghost use Rattle.aml_calls.specs.Pairs.{calls_in, IsCallOrder, named, numbers, PlacesAre};
ghost use Rattle.aml_calls.specs.Search.{AreLeft, Begins, Ends, GoesOn, IsDone, IsSearch, Searches, SearchesOn, Visits, VisitsAll, all_placed, is_begun, is_new, is_placed, left_of, mark_at};

use crate::calls::{Calls, Pair, places_of, room_for};
use aml_paths::{NoMemory, ObjectId};
use std::alloc::{AllocError, Global};

/// How far a search has come with a method.
#[derive(Clone, Copy)]
enum Mark {
    New,
    /// It is on the search's path, or a chain from it has a cycle.
    Begun,
    /// It stands in the order.
    Placed,
}

/// A search along calls. Its path is a chain; what is begun and no longer on it has a cycle.
#[derive(Drop)]
struct Search {
    marks: Vec<Mark>,
    /// How many callees of each method, from the first, stand in the order already.
    passed: Vec<usize>,
    path: Vec<ObjectId>,
    ordered: Vec<ObjectId>,
}

/// How far the search has come with a method.
fn mark_of(marks: &[Mark], method: ObjectId) -> Mark
    ensures { result ≡ mark_at marks.now method.0 }
{
    marks.get(method.0).copied().unwrap_or(Mark::New)
}

/// Whether a method stands in the order.
fn is_placed(marks: &[Mark], method: ObjectId) -> bool
    ensures { result ≡ is_placed (mark_at marks.now method.0) }
{
    match mark_of(marks, method) {
        Mark::Placed => true,
        Mark::New | Mark::Begun => false,
    }
}

/// Whether the search has not come to a method.
fn is_new(marks: &[Mark], method: ObjectId) -> bool
    ensures { result ≡ is_new (mark_at marks.now method.0) }
{
    match mark_of(marks, method) {
        Mark::New => true,
        Mark::Begun | Mark::Placed => false,
    }
}

/// The callee of a number.
fn callee_at(row: &[ObjectId], number: usize) -> Option<ObjectId>
    ensures { result ≡ slice_get row.now number }
{
    row.get(number).copied()
}

/// How many methods, from the first, stand in the order, where so many are known to.
fn passed_of(row: &[ObjectId], marks: &[Mark], known: usize) -> usize
    ensures passed { all_placed marks.now (take known (numbers row.now)) ≡ true →
        all_placed marks.now (take result (numbers row.now)) ≡ true }
    ensures next { (callee : ℕ) → slice_get (numbers row.now) result ≡ Some callee →
        is_placed (mark_at marks.now callee) ≡ false }
{
    let mut at = known;
    'row: while at < row.len() {
        if !is_placed(marks, row[at]) {
            return at;
        }
        at += 1;
    }
    at
}

impl Search {
    /// A search that has begun nothing, with room for so many numbers.
    fn new(alloc: Global, room: usize) -> Result<Search, AllocError>
        ensures begun { IfOk result (λ s. (calls : ℕ → List ℕ) (all : List ℕ) →
            ((k : ℕ) → is_among k all ≡ true → k < room) → Searches calls all s) }
        ensures ended { IfOk result (λ s. s.path.items ≡ []) }
    {
        let marks = vec![in alloc; Mark::New; room]?;
        let passed = vec![in alloc; 0usize; room]?;
        Ok(Search {
            marks,
            passed,
            path: Vec::new(alloc),
            ordered: Vec::new(alloc),
        })
    }

    /// Puts a method from the path's end into the order, behind its callees.
    fn place(&mut self, method: ObjectId) -> Result<(), AllocError>
        requires { method.0 < vec_len self.old.marks }
        ensures { OnOk result ((calls : ℕ → List ℕ) (all : List ℕ) →
            SearchesOn calls all (numbers self.old.path.items ++ method.0 ∷ []) self.old →
            all_placed self.old.marks.items (calls method.0) ≡ true →
            GoesOn calls all self.old self.new) }
    {
        self.ordered.push(method)?;
        self.marks[method.0] = Mark::Placed;
        Ok(())
    }

    /// Goes from a method to the first of its callees that doesn't stand in the order: that is on
    /// the path now, or the path leads into a cycle, and all on it is left.
    fn enter(&mut self, method: ObjectId, passed: usize, callee: ObjectId) -> Result<(), AllocError>
        requires method { method.0 < vec_len self.old.passed }
        requires callee { callee.0 < vec_len self.old.marks }
        ensures { OnOk result ((calls : ℕ → List ℕ) (all : List ℕ) →
            SearchesOn calls all (numbers self.old.path.items ++ method.0 ∷ []) self.old →
            is_among callee.0 (calls method.0) ≡ true → is_among callee.0 all ≡ true →
            is_placed (mark_at self.old.marks.items callee.0) ≡ false →
            all_placed self.old.marks.items (take passed (calls method.0)) ≡ true →
            GoesOn calls all self.old self.new) }
    {
        match mark_of(&self.marks, callee) {
            Mark::New => {
                self.path.push(method)?;
                self.path.push(callee)?;
                self.passed[method.0] = passed;
                self.marks[callee.0] = Mark::Begun;
            }
            Mark::Begun | Mark::Placed => self.path.clear(),
        }
        Ok(())
    }

    /// Goes on from the method that was at the path's end.
    fn advance(&mut self, calls: &Calls<'_>, method: ObjectId) -> Result<(), AllocError>
        requires places { PlacesAre calls.now.pairs.now calls.now.places.now }
        requires searches { SearchesOn (calls_in calls.now.pairs.now) (named calls.now.pairs.now)
            (numbers self.old.path.items ++ method.0 ∷ []) self.old }
        ensures { OnOk result (GoesOn (calls_in calls.now.pairs.now) (named calls.now.pairs.now)
            self.old self.new) }
    {
        let row = calls.of(method);
        let passed = passed_of(row, &self.marks, self.passed[method.0]);
        match callee_at(row, passed) {
            Some(callee) => self.enter(method, passed, callee),
            None => self.place(method),
        }
    }

    /// Begins a path with a method.
    fn begin(&mut self, method: ObjectId) -> Result<(), AllocError>
        requires { method.0 < vec_len self.old.marks }
        ensures { OnOk result ((calls : ℕ → List ℕ) (all : List ℕ) →
            SearchesOn calls all [] self.old → self.old.path.items ≡ [] →
            is_among method.0 all ≡ true → is_new (mark_at self.old.marks.items method.0) ≡ true →
            Begins calls all method.0 self.old self.new) }
    {
        self.path.push(method)?;
        self.marks[method.0] = Mark::Begun;
        Ok(())
    }

    /// Searches on until the path ends.
    fn search(&mut self, calls: &Calls<'_>) -> Result<(), AllocError>
        requires places { PlacesAre calls.now.pairs.now calls.now.places.now }
        requires searches { Searches (calls_in calls.now.pairs.now) (named calls.now.pairs.now)
            self.old }
        ensures { OnOk result (Ends (calls_in calls.now.pairs.now) (named calls.now.pairs.now)
            self.old self.new) }
    {
        'path: while let Some(last) = self.path.pop() {
            self.advance(calls, last)?;
        }
        Ok(())
    }

    /// Begins with a method, and searches on until the path ends.
    fn visit(&mut self, calls: &Calls<'_>, method: ObjectId) -> Result<(), AllocError>
        requires places { PlacesAre calls.now.pairs.now calls.now.places.now }
        requires searches { Searches (calls_in calls.now.pairs.now) (named calls.now.pairs.now)
            self.old }
        requires ended { self.old.path.items ≡ [] }
        requires method { is_among method.0 (named calls.now.pairs.now) ≡ true }
        ensures { OnOk result (Visits (calls_in calls.now.pairs.now) (named calls.now.pairs.now)
            method.0 self.old self.new) }
    {
        if !is_new(&self.marks, method) {
            return Ok(());
        }
        self.begin(method)?;
        self.search(calls)?;
        Ok(())
    }

    /// Searches from each of some methods.
    fn visit_all(&mut self, calls: &Calls<'_>, methods: &[ObjectId]) -> Result<(), AllocError>
        requires places { PlacesAre calls.now.pairs.now calls.now.places.now }
        requires searches { Searches (calls_in calls.now.pairs.now) (named calls.now.pairs.now)
            self.old }
        requires ended { self.old.path.items ≡ [] }
        requires methods { (k : ℕ) → is_among k (numbers methods.now) ≡ true →
            is_among k (named calls.now.pairs.now) ≡ true }
        ensures { OnOk result (VisitsAll (calls_in calls.now.pairs.now)
            (named calls.now.pairs.now) (numbers methods.now) self.old self.new) }
    {
        'methods: for method in methods {
            self.visit(calls, *method)?;
        }
        Ok(())
    }

    /// Searches from each method that pairs name.
    fn of(alloc: Global, calls: &Calls<'_>, room: usize) -> Result<Search, AllocError>
        requires places { PlacesAre calls.now.pairs.now calls.now.places.now }
        requires room { (k : ℕ) → is_among k (named calls.now.pairs.now) ≡ true → k < room }
        ensures { IfOk result (λ s. IsDone (calls_in calls.now.pairs.now)
            (named calls.now.pairs.now) s) }
    {
        let mut search = Search::new(alloc, room)?;
        'pairs: for pair in calls.pairs {
            search.visit(calls, pair.0)?;
            search.visit_all(calls, &pair.1)?;
        }
        Ok(search)
    }
}

/// Whether a search has begun with a method, and not placed it.
fn is_begun(mark: Mark) -> bool
    ensures { result ≡ is_begun mark }
{
    match mark {
        Mark::Begun => true,
        Mark::New | Mark::Placed => false,
    }
}

/// The methods that were begun and don't stand in the order.
fn others(alloc: Global, marks: &[Mark]) -> Result<Vec<ObjectId>, AllocError>
    ensures { IfOk result (λ v. AreLeft marks.now (numbers v.items)) }
{
    let mut others = Vec::new(alloc);
    'marks: for (number, mark) in marks.iter().enumerate() {
        if is_begun(*mark) {
            others.push(ObjectId(number))?;
        }
    }
    Ok(others)
}

/// The order, with room for so many numbers.
fn ordered(
    alloc: Global,
    pairs: &[Pair],
    room: usize,
) -> Result<(Vec<ObjectId>, Vec<ObjectId>), AllocError>
    requires { (k : ℕ) → is_among k (named pairs.now) ≡ true → k < room }
    ensures { IfOk result (λ order.
        IsCallOrder pairs.now (numbers order.0.items) (numbers order.1.items)) }
{
    let places = places_of(alloc, pairs, room)?;
    let search = Search::of(
        alloc,
        &Calls {
            pairs,
            places: &places,
        },
        room,
    )?;
    let others = others(alloc, &search.marks)?;
    Ok((search.ordered, others))
}

/// The methods that pairs of a method and those that it calls name: first those from which no chain
/// of calls has a cycle, each once and behind all that it calls; then the others, each once. Of
/// several pairs of one method the first counts, and a method without a pair calls none. Time and
/// memory go with the number of pairs, the number of callees and the greatest number of a method.
///
/// # Errors
///
/// `NoMemory`, where memory is wanted.
pub fn call_order(
    alloc: Global,
    pairs: &[(ObjectId, Vec<ObjectId>)],
) -> Result<(Vec<ObjectId>, Vec<ObjectId>), NoMemory>
    ensures { IfOk result (λ order.
        IsCallOrder pairs.now (numbers order.0.items) (numbers order.1.items)) }
{
    let Some(room) = room_for(pairs) else {
        return Err(NoMemory);
    };
    match ordered(alloc, pairs, room) {
        Ok(order) => Ok(order),
        Err(_) => Err(NoMemory),
    }
}
