// What searches find of what declarations tell (ACPI 6.5, 5.3, 19.6.46, External).

ghost use Rattle.std.specs.Prelude.{◌≡◌, ◌<◌, length, IfOk};
ghost use Rattle.aml_lex.specs.Names.{name_of};
ghost use Rattle.aml_arities.specs.Answered.{AreAnswers};
ghost use Rattle.aml_arities.specs.Counted.{all_paths, told};
ghost use Rattle.aml_paths.specs.Paths.{path_at};
ghost use Rattle.aml_paths.specs.Resolve.{resolve, upward_search};

use crate::counted::Counted;
use aml_lex::{NameRef, NameSeg};
use aml_paths::ROOT;
use std::alloc::{AllocError, Global};
use std::collections::BTreeMap;

/// What declarations tell of paths, and answers of searches for it. Declarations spell paths of
/// which nothing is told, and whoever writes them can have one that ends in the same segment at
/// each level of a deep scope. So that a search need not pass all of them, the first that it meets
/// knows the answer.
#[derive(Drop)]
pub struct Answered {
    counted: Counted,
    /// By the number of a path of which nothing is told, what a search finds that comes to it.
    answers: BTreeMap<usize, Option<u8>>,
    ghost right: { AreAnswers counted answers },
}

impl Answered {
    /// What declarations tell, with the answer at each path to which a search may come and of which
    /// they tell nothing.
    pub fn of(alloc: Global, counted: Counted) -> Result<Answered, AllocError>
        ensures { IfOk result (λ a. a.counted ≡ counted) }
    {
        let numbers = counted.searched(alloc)?;
        let mut answered = Answered {
            counted,
            answers: BTreeMap::new(alloc),
        };
        for (_, number) in &numbers {
            answered.keep(*number)?;
        }
        Ok(answered)
    }

    /// Keeps the answer at the path with this number, if nothing is told of it. The search for it
    /// ends at the next path that ends in the same segment, if that path's answer is kept before.
    fn keep(&mut self, number: usize) -> Result<(), AllocError>
        ensures { self.new.counted ≡ self.old.counted }
    {
        if number == ROOT || number >= self.counted.paths.len() {
            return Ok(());
        }
        if self.counted.count_at(number).is_some() {
            return Ok(());
        }
        let step = self.counted.paths.last_step(number);
        let answer = self.nearest_count(step.parent, step.segment);
        self.answers.insert(number, answer)?;
        Ok(())
    }

    /// What is told of the path of this segment below the longest prefix of the path with this
    /// number, the path itself among them, of which something is told.
    fn nearest_count(&self, at: usize, segment: NameSeg) -> Option<u8>
        requires { at < length (all_paths self.now.counted) }
        ensures { let path = path_at (all_paths self.now.counted) at in
            result ≡ upward_search (told self.now.counted) path segment.bytes }
    {
        let mut number = at;
        'up: loop {
            let found = self.counted.paths.nearest(number, segment)?;
            if let Some(count) = self.counted.count_at(found) {
                return Some(count);
            }
            if let Some(answer) = self.answers.get(&found) {
                return *answer;
            }
            let parent = self.counted.paths.last_step(found).parent;
            if parent == ROOT {
                return None;
            }
            number = self.counted.paths.last_step(parent).parent;
        }
    }

    /// What is told of what a name names in the scope whose path has this number.
    pub fn count(&self, scope: usize, name: &NameRef<'_>) -> Option<u8>
        requires { scope < length (all_paths self.now.counted) }
        ensures { let path = path_at (all_paths self.now.counted) scope in
            result ≡ resolve (told self.now.counted) path (name_of name.now) }
    {
        match name.lone_segment() {
            Some(segment) => self.nearest_count(scope, segment),
            None => self.counted.spelled_count(scope, name),
        }
    }
}
