// What is said of all methods of a namespace.

ghost use Rattle.std.specs.Prelude.{◌≡◌, ◌↔◌, ℕ, IfSome, IsNone, IsSome, IsTrue, None, Some, map};
ghost use Rattle.std.specs.Option.{option_and_then, option_map};
ghost use Rattle.aml_bodies.specs.Kept.{kept_at};
ghost use Rattle.aml_bodies.specs.Links.{AreLinks, IsLinked};
ghost use Rattle.aml_contents.specs.Belongs.{Belong};
ghost use Rattle.aml_contents.specs.Held.{content_kinds};
ghost use Rattle.aml_integers.specs.Known.{marked};
ghost use Rattle.aml_methods.specs.Judgings.{Told};
ghost use Rattle.aml_namespace.specs.Shows.{shown};
ghost use Rattle.aml_shapes.specs.Numbers.{numbered};
ghost use Rattle.aml_values.specs.Views.{view};
ghost use Rattle.aml_verify.specs.Accepts.{accepts_by, misfit, takes};
ghost use Rattle.aml_verify.specs.Keeping.{Means, body_of};
ghost use Rattle.aml_verify.specs.Said.{accepted_by, verdict_at};
ghost use Rattle.aml_verify.specs.Verdicts.{IsChecked};

use crate::accepts::{Misfit, are_of, misfit_from};
use crate::verdict::{Verdict, accepted_at};
use aml_bodies::Kept;
use aml_contents::Names;
use aml_namespace::{Link, Namespace};
use aml_paths::ObjectId;
use aml_shapes::ShapeTable;
use aml_values::Value;

/// The verdicts on the methods of a namespace.
#[derive(Drop)]
pub struct Checked<'a> {
    pub(crate) namespace: &'a Namespace<'a>,
    pub(crate) shapes: ShapeTable,
    /// By the numbers of the methods' objects.
    pub(crate) verdicts: Vec<Option<Verdict>>,
    /// What is kept of the methods' bodies that were read, by the same numbers.
    pub(crate) kept: Vec<Option<Kept>>,
    /// Which methods evaluate integers alone, by the same numbers.
    pub(crate) integers: Vec<bool>,
}

/// What the name at a place means, by what is kept of its body.
fn linked(kept: &Kept, at: usize) -> Option<Link>
    ensures means { (means : ℕ → Link) → AreLinks means kept.now.links →
        IfSome result (λ l. l ≡ means at) }
    ensures all { (stop : ℕ) → IsLinked kept.now.links at stop → IsSome result }
{
    match kept.links.find(at) {
        Some(name) => Some(name.link),
        None => None,
    }
}

impl<'a> Checked<'a> {
    /// The namespace whose methods were judged.
    #[must_use]
    pub fn namespace(&self) -> &'a Namespace<'a>
        ensures { result ≡ self.now.namespace }
    {
        self.namespace
    }

    /// What is said of the method with a number; None where no method has it.
    #[must_use]
    pub fn verdict(&self, method: ObjectId) -> Option<&Verdict>
        ensures { option_map (λ v. v.now) result ≡ verdict_at self.now.verdicts.items method.0 }
    {
        match self.verdicts.get(method.0) {
            Some(Some(verdict)) => Some(verdict),
            _ => None,
        }
    }

    /// What is kept of the body of the method with a number, to evaluate it from its bytes; None
    /// where no method has it, or its body cannot be read.
    #[must_use]
    pub fn kept(&self, method: ObjectId) -> Option<&Kept>
        ensures { option_map (λ k. k.now) result ≡ kept_at self.now.kept.items method.0 }
    {
        match self.kept.get(method.0) {
            Some(Some(kept)) => Some(kept),
            _ => None,
        }
    }

    /// What is kept of the bodies of all methods, by their numbers, as an evaluation from the bytes
    /// takes it.
    #[must_use]
    pub fn kept_bodies(&self) -> &[Option<Kept>]
        ensures { result.now ≡ self.now.kept.items }
    {
        &self.kept
    }

    /// What the name at a place means in the body of the method with a number, by the place of its
    /// first byte; None where no name is kept there. It takes no memory.
    #[must_use]
    pub fn link(&self, method: ObjectId, at: usize) -> Option<Link>
        ensures means { (told : Told) → IsChecked told self.now →
            IfSome result (Means (shown self.now.namespace.now) method.0 at) }
        ensures all { (one : Kept) → kept_at self.now.kept.items method.0 ≡ Some one →
            (stop : ℕ) → IsLinked one.links at stop → IsSome result }
        ensures kept { (one : Kept) → kept_at self.now.kept.items method.0 ≡ Some one →
            (means : ℕ → Link) → AreLinks means one.links → IfSome result (λ l. l ≡ means at) }
        ensures none { kept_at self.now.kept.items method.0 ≡ None → IsNone result }
    {
        match self.kept(method) {
            Some(kept) => linked(kept, at),
            None => None,
        }
    }

    /// Where the body of an accepted method stands: its table, the place there of its first byte,
    /// and the table's bytes up to its end.
    #[must_use]
    pub fn body(&self, method: ObjectId) -> Option<(usize, usize, &'a [u8])>
        ensures { option_map (λ b. (b.0, b.1, b.2.now)) result
            ≡ body_of (shown self.now.namespace.now) method.0
            (accepted_by (numbered self.now.shapes) (verdict_at self.now.verdicts.items method.0)) }
    {
        accepted_at(&self.verdicts, method.0)?;
        let found = self.namespace.method(method)?;
        let bytes = self.namespace.body_bytes(method);
        Some((found.table, found.body.at, bytes))
    }

    /// Whether the method with a number is accepted and takes these values: as many as it has
    /// arguments, each of its kind.
    #[must_use]
    pub fn accepts(&self, method: ObjectId, values: &[Value]) -> bool
        ensures takes { result
            ≡ takes (verdict_at self.now.verdicts.items method.0) (map view values.now) }
        ensures fits { (told : Told) → IsChecked told self.now → result ≡ accepts_by
            (accepted_by (numbered self.now.shapes) (verdict_at self.now.verdicts.items method.0))
            (map view values.now) }
    {
        self.takes(method, values)
    }

    /// The same by the kinds that its verdict has.
    fn takes(&self, method: ObjectId, values: &[Value]) -> bool
        ensures { result ≡
            takes (verdict_at self.now.verdicts.items method.0) (map view values.now) }
    {
        match self.verdict(method) {
            Some(Verdict::Accepted(accepted)) => are_of(&accepted.args, values),
            Some(Verdict::Refused(_, _)) => false,
            Some(Verdict::Unreadable { .. }) => false,
            None => false,
        }
    }

    /// The first of some values that is not of the kind of the argument at its place, where the
    /// method with a number is accepted.
    #[must_use]
    pub fn misfit(&self, method: ObjectId, values: &[Value]) -> Option<Misfit>
        ensures { result
            ≡ misfit (verdict_at self.now.verdicts.items method.0) (map view values.now) }
    {
        match self.verdict(method) {
            Some(Verdict::Accepted(accepted)) => misfit_from(0, &accepted.args, values),
            Some(Verdict::Refused(_, _) | Verdict::Unreadable { .. }) | None => None,
        }
    }

    /// Whether the method with a number is accepted and evaluates integers alone.
    #[must_use]
    pub fn integer_only(&self, method: ObjectId) -> bool
        ensures { result ≡ marked self.now.integers.items method.0 }
    {
        match self.integers.get(method.0) {
            Some(mark) => *mark,
            None => false,
        }
    }

    /// Whether names hold what the namespace's data names may hold, and no other names.
    #[must_use]
    pub fn names_fit(&self, names: &Names) -> bool
        ensures { IsTrue result
            ↔ Belong (shown self.now.namespace.now) (content_kinds names.now) }
    {
        names.belong(self.namespace)
    }

    /// The least level of a mutex that an accepted method takes, or one that it calls, if they take
    /// any.
    #[must_use]
    pub fn least_level(&self, method: ObjectId) -> Option<u8>
        ensures { result ≡ option_and_then (λ a. a.least)
            (accepted_by (numbered self.now.shapes) (verdict_at self.now.verdicts.items method.0)) }
    {
        accepted_at(&self.verdicts, method.0)?.least
    }
}
