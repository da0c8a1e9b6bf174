// Items that are printed one after the other.

ghost use Rattle.std.specs.Prelude.{ℕ, List};
ghost use Rattle.std.specs.Iterator.{IsFinite};
ghost use Rattle.acpi_text.specs.Lists.{Lists};
ghost use Rattle.acpi_text.specs.Items.{BeginsWithNext};

use crate::writing::RunFault;
use std::alloc::Global;
use std::io::Write;

/// What gives items that each have a text.
pub trait Listing: Iterator {
    // The text of an item.
    ghost text: { Self.Item → List ℕ };

    // The texts of the items that are left, one after the other.
    ghost left: { Self → List ℕ };

    /// Prints an item. At Err the writer holds a beginning of its text.
    fn list<W: Write>(alloc: Global, out: &mut W, item: Self::Item) -> Result<(), RunFault>
        ensures { Lists result (W.contents out.old) (W.contents out.new) (text item) };

    // What is left begins with the text of the next item.
    ghost begins: { BeginsWithNext Self.next_gives text left };
}

/// Prints the items one after the other. At Err the writer holds a beginning of their texts.
pub fn list_items<I: Listing + Drop, W: Write>(
    alloc: Global,
    out: &mut W,
    items: I,
) -> Result<(), RunFault>
    requires can { I.can_next items }
    requires ends { IsFinite (I.remaining items) }
    ensures { Lists result (W.contents out.old) (W.contents out.new) (I.left items) }
{
    for item in items {
        I::list(alloc, out, item)?;
    }
    Ok(())
}
