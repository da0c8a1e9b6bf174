// What causes mean, in words.

ghost use Rattle.std.specs.Prelude.{◌≡◌};
ghost use Rattle.acpi_verdicts.specs.Words as spec;

use aml_causes::Cause;

/// What it means that a method is refused for a cause; `docs/CAUSES.md` has more of each, with what
/// can be done.
#[must_use]
pub(crate) fn cause_words(cause: Cause) -> &'static str
    ensures { result.now ≡ spec.cause_words cause }
{
    match cause {
        Cause::Unresolved => {
            "a name names nothing: no loaded table defines it, or not where the name is looked up"
        }
        Cause::OutsideProfile =>
            "an operator or a form that this program does not evaluate, and nothing need be wrong with the table",
        Cause::WrongKind => "a value or an object of the wrong kind",
        Cause::Unset => {
            "a local, an argument or an element of a package may be unset where it is read"
        }
        Cause::Cycle => {
            "the method that is called calls, itself or through others, the one that calls it"
        }
        Cause::LoopShape => "nothing tells how often a While turns at most",
        Cause::Index => "an index need not be below the length of what it is an index of",
        Cause::Divisor => {
            "the second operand of Divide or Mod is no integer literal, or is zero"
        }
        Cause::Region => "a field that cannot be read and written here",
        Cause::NoResult => {
            "a value is wanted of a call, and the method that is called need not give one"
        }
        Cause::BoundTooLarge => "the method may take 2^63 steps or more",
        Cause::CalleeRefused => "the method that is called is refused itself",
        Cause::LocalName => {
            "a Name or a CreateField form that does not stand at the top of the method's body, or whose name is not one segment without prefix, or comes twice"
        }
        Cause::Depth => "a chain of more than 64 methods, each of which calls the next",
        Cause::Level => {
            "a mutex is taken whose sync level is below that of one that the method holds, or a method is called that takes such a one"
        }
        Cause::NotHeld => {
            "a mutex is released that is not the one which the method took last of those that it holds"
        }
        Cause::StillHeld => "the method ends while it holds a mutex",
        Cause::HeldDiffers => "ways meet on which the method holds different mutexes",
    }
}
