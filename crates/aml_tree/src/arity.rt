// How many arguments a name takes.

ghost use Rattle.std.specs.Prelude.{◌≡◌, ℕ};
ghost use Rattle.aml_lex.specs.Names.{name_of};
ghost use Rattle.aml_lex.specs.NameStrings.{NameString};

use aml_lex::NameRef;

/// How many arguments each name takes, by its place in the table.
pub trait Arity {
    ghost counts: { Self → NameString → ℕ → ℕ };

    /// The number of terms that follow a name as its arguments.
    fn arity(&self, name: &NameRef<'_>, at: usize) -> u8
        ensures { result ≡ counts self.now (name_of name.now) at };
}

/// In a module no name takes arguments.
#[derive(Clone, Copy, Debug)]
pub struct NoArguments;

impl Arity for NoArguments {
    ghost counts = { λ _ _ _. 0 };

    fn arity(&self, _name: &NameRef<'_>, _at: usize) -> u8 {
        0
    }
}
