// The walk over a body, and what it marks.

ghost use Rattle.std.specs.Prelude.{◌≡◌, ◌&&◌, ◌||◌, slice_set, true};
ghost use Rattle.aml_operators.specs.Tree.{view, views};
ghost use Rattle.aml_meaning.specs.Actions.{action};
ghost use Rattle.aml_bounds.specs.Shapes.{assigns, assigns_in, lettered, outside_targets, targets};
ghost use Rattle.aml_targets.specs.Marks.{Adds, AreTargets, acts_in};

use crate::operands::{is_target, written_parts};
use aml_meaning::{Action, action_of};
use aml_operators::{Letter, Op, Term, row_of};

/// Which locals and which arguments are targets.
#[derive(Clone, Copy, Debug, PartialEq, Eq)]
pub struct Targets {
    pub locals: [bool; 8],
    pub args: [bool; 7],
}

impl Targets {
    /// Marks the place that an operator is, if it is a local or an argument.
    fn mark_place(&mut self, op: Op)
        ensures { Adds (λ is. is (action op)) self.old self.new }
    {
        match action_of(op) {
            Action::Local(k) => mark(&mut self.locals, k),
            Action::Argument(k) => mark(&mut self.args, k),
            _ => {}
        }
    }

    /// Marks it where it is a target.
    fn mark_if(&mut self, is_target: bool, op: Op)
        ensures { Adds (λ is. is_target && is (action op)) self.old self.new }
    {
        if is_target {
            self.mark_place(op);
        }
    }

    /// Marks the places that terms are.
    fn mark_all(&mut self, terms: &[Term])
        ensures { Adds (λ is. acts_in is (views terms.now)) self.old self.new }
    {
        'terms: for term in terms {
            self.mark_place(term.op);
        }
    }

    /// Marks the parts that have a target's letter.
    fn mark_lettered(&mut self, letters: &[Letter], parts: &[Term])
        ensures { Adds (λ is. lettered is letters.now (views parts.now)) self.old self.new }
    {
        'letters: for i in 0..letters.len().min(parts.len()) {
            self.mark_if(is_target(letters[i]), parts[i].op);
        }
    }

    /// Marks the targets of an operator that has no meaning.
    fn mark_outside(&mut self, op: Op, parts: &[Term])
        ensures { Adds (λ is. outside_targets is (action op) op (views parts.now))
            self.old self.new }
    {
        match action_of(op) {
            Action::Unwritten => self.mark_lettered(row_of(op).letters, parts),
            _ => {}
        }
    }

    /// Marks the targets of an operator.
    fn mark_targets(&mut self, op: Op, parts: &[Term])
        ensures { Adds (λ is. targets is (action op) (views parts.now)
            || outside_targets is (action op) op (views parts.now)) self.old self.new }
    {
        self.mark_all(written_parts(op, parts));
        self.mark_outside(op, parts);
    }

    /// Marks the targets in a term.
    #[cycle(walk)]
    #[tactic(auto, using(aml_operators::proofs::Views::view_out))]
    fn walk(&mut self, term: &Term)
        ensures { Adds (λ is. assigns is (view term.now)) self.old self.new }
    {
        let parts = term.parts.as_slice();
        self.mark_targets(term.op, parts);
        self.walk_all(parts);
    }

    /// Marks the targets in terms.
    #[cycle(walk)]
    fn walk_all(&mut self, terms: &[Term])
        ensures { Adds (λ is. assigns_in is (views terms.now)) self.old self.new }
    {
        'terms: for term in terms {
            self.walk(term);
        }
    }
}

/// Sets the mark with a number, if there is one.
fn mark(marks: &mut [bool], number: u8)
    ensures { marks.new ≡ slice_set marks.old number true }
{
    let place = usize::from(number);
    if place < marks.len() {
        marks[place] = true;
    }
}

/// Which locals and which arguments are targets anywhere in a body, in one walk.
pub fn targets_in(body: &[Term]) -> Targets
    ensures { AreTargets (λ is. assigns_in is (views body.now)) result }
{
    let mut targets = Targets {
        locals: [false; 8],
        args: [false; 7],
    };
    targets.walk_all(body);
    targets
}
