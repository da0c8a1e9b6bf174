// How many terms names take in a method's body (ACPI 6.5, 20.2.5).

ghost use Rattle.std.specs.Prelude.{◌≡◌, []};
ghost use Rattle.std.specs.Option.{ForNone, ForSome};
ghost use Rattle.aml_lex.specs.Names.{name_of};
ghost use Rattle.aml_namespace.specs.Names.{args_of};
ghost use Rattle.aml_namespace.specs.Shows.{IsTold, shown};

use crate::namespace::Namespace;
use aml_arities::Answered;
use aml_lex::NameRef;
use aml_objects::Object;
use aml_paths::{ObjectId, Scope};
use aml_tree::Arity;

/// The body of a method, in which names take arguments.
#[derive(Drop)]
pub(crate) struct Inside<'a> {
    pub(crate) namespace: &'a Namespace<'a>,
    /// What declarations tell of the namespace's paths; None where there is none.
    pub(crate) answered: &'a Option<Answered>,
    /// The method's number.
    pub(crate) method: usize,
    ghost untold: { ForNone answered.now ((shown namespace.now).externals ≡ []) },
    ghost told: { ForSome answered.now (IsTold (shown namespace.now)) },
}

impl Inside<'_> {
    ghost use Rattle.std.specs.Prelude.{Option};
    ghost use Rattle.aml_namespace.specs.Names.{told_within};

    /// How many arguments tables declare of the other's method that a name names in the body.
    fn told(&self, name: &NameRef<'_>) -> Option<u8>
        ensures { result
            ≡ told_within (shown self.now.namespace.now) self.now.method (name_of name.now) }
    {
        if self.method >= self.namespace.objects.len() {
            return None;
        }
        match self.answered {
            Some(answered) => answered.count(self.method + 1, name),
            None => None,
        }
    }
}

impl Arity for Inside<'_> {
    ghost use Rattle.aml_namespace.specs.Names.{counts};

    ghost counts = { λ inside. counts (shown inside.namespace.now) inside.method };

    fn arity(&self, name: &NameRef<'_>, _at: usize) -> u8 {
        let scope = Scope::At(ObjectId(self.method));
        match self.namespace.objects.look_up(scope, name) {
            Some(number) => args_of(self.namespace.objects.object(number)),
            None => self.told(name).unwrap_or(0),
        }
    }
}

/// How many arguments what is named takes.
fn args_of(object: Option<Object>) -> u8
    ensures { result ≡ args_of object }
{
    match object {
        Some(Object::Method(method)) => method.args,
        Some(Object::OsInterfaces) => 1,
        _ => 0,
    }
}
