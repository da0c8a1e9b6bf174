// Which descriptor a tag names, and how long it may be (ACPI 6.5, 6.4.2 and 6.4.3).

ghost use Rattle.std.specs.Prelude.{◌≡◌, ◌<◌};
ghost use Rattle.acpi_resources.specs.Forms.{small_form, large_form, may_have};

use crate::item::AddressWidth;

/// Which descriptor a tag names.
#[derive(Clone, Copy, Debug, PartialEq, Eq)]
pub(crate) enum Form {
    Irq,
    Io,
    FixedIo,
    End,
    Memory,
    FixedMemory,
    AddressSpace(AddressWidth),
    Interrupt,
    /// Any other, by the tag's byte.
    Other(u8),
}

/// What the tag of a small descriptor names, whose lowest three bits are a length.
pub(crate) fn small_form(tag: u8) -> Form
    ensures { result ≡ small_form tag }
{
    match tag / 8 {
        4 => Form::Irq,
        8 => Form::Io,
        9 => Form::FixedIo,
        15 => Form::End,
        _ => Form::Other(tag),
    }
}

/// What the tag of a large descriptor names.
pub(crate) fn large_form(tag: u8) -> Form
    ensures { result ≡ large_form tag }
{
    match tag {
        0x85 => Form::Memory,
        0x86 => Form::FixedMemory,
        0x87 => Form::AddressSpace(AddressWidth::Dword),
        0x88 => Form::AddressSpace(AddressWidth::Word),
        0x89 => Form::Interrupt,
        0x8A => Form::AddressSpace(AddressWidth::Qword),
        _ => Form::Other(tag),
    }
}

/// Whether a descriptor may have so many bytes behind tag and length.
pub(crate) fn may_have(form: Form, size: usize) -> bool
    ensures { result ≡ may_have form size }
{
    match form {
        Form::Irq => size == 2 || size == 3,
        Form::Io => size == 7,
        Form::FixedIo => size == 3,
        Form::End => size == 1,
        Form::Memory => 17 <= size,
        Form::FixedMemory => 9 <= size,
        Form::AddressSpace(width) => 3 + 5 * width.bytes() <= size,
        Form::Interrupt => 2 <= size,
        Form::Other(_) => true,
    }
}
