// The search for components of the graph of calls.

ghost use Rattle.std.specs.Prelude.{◌≡◌, ◌<◌, ◌≤◌, ℕ, List, true, [], ◌∷◌, ◌++◌, length, vec_len, IfOk, OnOk, MatchOption};
ghost use Rattle.aml_calls.specs.Chains.{is_among};
ghost use Rattle.aml_calls.specs.Pairs.{calls_in, named, numbers, PlacesAre};
ghost use Rattle.aml_components.specs.Search.{AreBefore, AreClosed, AreFound, Begins, callers, calls_from, Closes, Ends, GoesOn, is_new, IsCut, IsRising, mark_at, Searches, SearchesWith, Visits};

use aml_calls::Calls;
use aml_paths::ObjectId;
use std::alloc::{AllocError, Global};

/// How far a search has come with a method.
#[derive(Clone, Copy)]
pub enum Mark {
    New,
    /// It stands at this place among the open ones, whose components may still grow.
    Open(usize),
    /// It is in the component of this number.
    Closed(usize),
}

/// A call that was not looked at yet: the place of the method that calls, and the method called.
#[derive(Clone, Copy)]
pub struct Call {
    from: usize,
    to: ObjectId,
}

/// A search along calls. Of two open methods the first reaches the second, and the second the first
/// where no root stands behind the first, up to the second.
#[derive(Drop)]
pub struct Search {
    marks: Vec<Mark>,
    /// Methods of components that may still grow, as they were begun.
    opened: Vec<ObjectId>,
    /// The places where such components begin.
    roots: Vec<usize>,
    /// What was not looked at, with those that call in the order of their places.
    waiting: Vec<Call>,
    /// So many components are closed.
    closed: usize,
}

/// How far the search has come with a method.
pub fn mark_of(marks: &[Mark], method: ObjectId) -> Mark
    ensures { result ≡ mark_at marks.now method.0 }
{
    marks.get(method.0).copied().unwrap_or(Mark::New)
}

/// Whether the search has not come to a method.
fn is_new(marks: &[Mark], method: ObjectId) -> bool
    ensures { result ≡ is_new (mark_at marks.now method.0) }
{
    match mark_of(marks, method) {
        Mark::New => true,
        Mark::Open(_) | Mark::Closed(_) => false,
    }
}

/// Takes away the roots behind a place.
fn cut(roots: &mut Vec<usize>, place: usize)
    requires { IsRising roots.old.items }
    ensures { IsCut roots.old.items place roots.new.items }
{
    'roots: while roots.last().copied().unwrap_or(0) > place {
        roots.pop();
    }
}

/// Puts some methods into a component.
fn close_all(marks: &mut Vec<Mark>, methods: &[ObjectId], number: usize)
    requires { (k : ℕ) → is_among k (numbers methods.now) ≡ true → k < vec_len marks.old }
    ensures { AreClosed (numbers methods.now) number marks.old.items marks.new.items }
{
    'methods: for method in methods {
        marks[method.0] = Mark::Closed(number);
    }
}

/// The calls of the method at a place wait from now on.
fn await_calls(waiting: &mut Vec<Call>, from: usize, callees: &[ObjectId]) -> Result<(), AllocError>
    ensures { OnOk result
        (waiting.new.items ≡ waiting.old.items ++ calls_from from callees.now) }
{
    'callees: for callee in callees {
        waiting.push(Call { from, to: *callee })?;
    }
    Ok(())
}

/// The last call that waits, if a method at the last root or behind it calls.
fn next_call(waiting: &mut Vec<Call>, root: usize) -> Option<Call>
    requires { IsRising (callers waiting.old.items) }
    ensures { MatchOption result
        ((waiting.new ≡ waiting.old) × AreBefore root waiting.old.items)
        (λ call. (waiting.old.items ≡ waiting.new.items ++ call ∷ []) × (root ≤ call.from)) }
{
    match waiting.last().copied() {
        Some(call) if call.from >= root => waiting.pop(),
        _ => None,
    }
}

impl Search {
    /// A search that has begun nothing, with room for so many numbers.
    fn new(alloc: Global, room: usize) -> Result<Search, AllocError>
        ensures searches { IfOk result (λ s. (calls : ℕ → List ℕ) →
            ((k j : ℕ) → is_among j (calls k) ≡ true → j < room) → Searches calls s) }
        ensures sized { IfOk result (λ s. vec_len s.marks ≡ room) }
        ensures ended { IfOk result (λ s. s.roots.items ≡ []) }
    {
        let marks = vec![in alloc; Mark::New; room]?;
        Ok(Search {
            marks,
            opened: Vec::new(alloc),
            roots: Vec::new(alloc),
            waiting: Vec::new(alloc),
            closed: 0,
        })
    }

    /// Begins with a method, as a component of its own.
    fn begin(&mut self, calls: &Calls<'_>, method: ObjectId) -> Result<(), AllocError>
        requires places { PlacesAre calls.now.pairs.now calls.now.places.now }
        requires method { method.0 < vec_len self.old.marks }
        ensures { OnOk result
            (Begins (calls_in calls.now.pairs.now) method.0 self.old self.new) }
    {
        let place = self.opened.len();
        self.opened.push(method)?;
        self.roots.push(place)?;
        self.marks[method.0] = Mark::Open(place);
        await_calls(&mut self.waiting, place, calls.of(method))
    }

    /// Looks at a call that waited, of a method at the last root or behind it.
    fn look(&mut self, calls: &Calls<'_>, call: Call) -> Result<(), AllocError>
        requires places { PlacesAre calls.now.pairs.now calls.now.places.now }
        requires searches { SearchesWith (calls_in calls.now.pairs.now) self.old.roots.items
            (self.old.waiting.items ++ call ∷ []) self.old }
        requires last { (r : ℕ) → is_among r self.old.roots.items ≡ true → r ≤ call.from }
        ensures { OnOk result (GoesOn (calls_in calls.now.pairs.now)
            (length (named calls.now.pairs.now)) self.old self.new) }
    {
        match mark_of(&self.marks, call.to) {
            Mark::New => self.begin(calls, call.to)?,
            Mark::Open(place) => cut(&mut self.roots, place),
            Mark::Closed(_) => {}
        }
        Ok(())
    }

    /// Closes the component that begins at a root, which was the last.
    fn close(&mut self, root: usize) -> Result<(), AllocError>
        requires root { root ≤ vec_len self.old.opened }
        requires marks { (k : ℕ) → is_among k (numbers self.old.opened.items) ≡ true →
            k < vec_len self.old.marks }
        ensures { OnOk result (Closes root self.old self.new) }
    {
        // No table has room for so many components.
        let Some(more) = self.closed.checked_add(1) else {
            return Err(AllocError);
        };
        close_all(&mut self.marks, &self.opened[root..], self.closed);
        self.opened.truncate(root);
        self.closed = more;
        Ok(())
    }

    /// Looks at a call of the last component, which begins at a root, or closes it.
    fn step(&mut self, calls: &Calls<'_>, root: usize) -> Result<(), AllocError>
        requires places { PlacesAre calls.now.pairs.now calls.now.places.now }
        requires searches { SearchesWith (calls_in calls.now.pairs.now)
            (self.old.roots.items ++ root ∷ []) self.old.waiting.items self.old }
        ensures { OnOk result (GoesOn (calls_in calls.now.pairs.now)
            (length (named calls.now.pairs.now)) self.old self.new) }
    {
        match next_call(&mut self.waiting, root) {
            Some(call) => {
                self.roots.push(root)?;
                self.look(calls, call)
            }
            None => self.close(root),
        }
    }

    /// Searches on until no component is open.
    fn search(&mut self, calls: &Calls<'_>) -> Result<(), AllocError>
        requires places { PlacesAre calls.now.pairs.now calls.now.places.now }
        requires searches { Searches (calls_in calls.now.pairs.now) self.old }
        ensures { OnOk result (Ends (calls_in calls.now.pairs.now) self.old self.new) }
    {
        'roots: while let Some(root) = self.roots.pop() {
            self.step(calls, root)?;
        }
        Ok(())
    }

    /// Begins with a method, and searches on until no component is open.
    fn visit(&mut self, calls: &Calls<'_>, method: ObjectId) -> Result<(), AllocError>
        requires places { PlacesAre calls.now.pairs.now calls.now.places.now }
        requires searches { Searches (calls_in calls.now.pairs.now) self.old }
        requires ended { self.old.roots.items ≡ [] }
        requires method { method.0 < vec_len self.old.marks }
        ensures { OnOk result (Visits (calls_in calls.now.pairs.now) method.0 self.old self.new) }
    {
        if is_new(&self.marks, method) {
            self.begin(calls, method)?;
            self.search(calls)?;
        }
        Ok(())
    }
}

/// The marks of all methods of numbers below `room`, each in a component.
pub fn marks_of(alloc: Global, calls: &Calls<'_>, room: usize) -> Result<Vec<Mark>, AllocError>
    requires places { PlacesAre calls.now.pairs.now calls.now.places.now }
    requires room { (k : ℕ) → is_among k (named calls.now.pairs.now) ≡ true → k < room }
    ensures { IfOk result (λ marks. AreFound (calls_in calls.now.pairs.now) room marks.items) }
{
    let mut search = Search::new(alloc, room)?;
    'numbers: for number in 0..room {
        search.visit(calls, ObjectId(number))?;
    }
    Ok(search.marks)
}
