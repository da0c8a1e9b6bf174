// What the bytes of a resource descriptor behind its tag and length say (ACPI 6.5, 6.4.2 and
// 6.4.3).

ghost use Rattle.std.specs.Prelude.{◌≡◌, ◌⊎◌, ◌<◌, ◌≤◌, ◌+◌, ◌*◌, IfOk, Some, length, true};
ghost use Rattle.acpi_tables.specs.Bytes.{number_at};
ghost use Rattle.acpi_resources.specs.Fault.{ReadsAs};
ghost use Rattle.acpi_resources.specs.Forms.{bytes_of, may_have};
ghost use Rattle.acpi_resources.specs.Items.{address_space, interrupts, range_number, said, said_or_bad};
ghost use Rattle.acpi_resources.specs.declared.form.Form.TheVariants as form;

use crate::fault::{ResourceCause, ResourceFault, refuse};
use crate::form::Form;
use crate::head::Head;
use crate::item::{AddressWidth, Item};
use crate::numbers::Numbers;
use crate::signal::{ISA_SIGNAL, interrupt_signal, irq_signal};
use byteorder::{ByteOrder, LittleEndian};
use std::alloc::{AllocError, Global};

/// What the bytes of such a descriptor at a place say.
pub(crate) fn body(
    alloc: Global,
    head: Head,
    bytes: &[u8],
    at: usize,
) -> Result<Item, ResourceFault>
    requires sized { length bytes.now ≡ head.size }
    requires allowed { may_have head.form head.size ≡ true }
    ensures { ReadsAs (λ item. item) result (said_or_bad at (said head.form bytes.now)) }
{
    match head.form {
        Form::Irq => Ok(irq(bytes)),
        Form::Io => Ok(Item::Io {
            minimum: LittleEndian::read_u16(&bytes[1..]),
            maximum: LittleEndian::read_u16(&bytes[3..]),
            alignment: bytes[5],
            length: bytes[6],
        }),
        Form::FixedIo => Ok(Item::FixedIo {
            base: LittleEndian::read_u16(bytes),
            length: bytes[2],
        }),
        Form::End => Ok(Item::End),
        Form::Memory => Ok(Item::Memory {
            minimum: LittleEndian::read_u32(&bytes[1..]),
            maximum: LittleEndian::read_u32(&bytes[5..]),
            alignment: LittleEndian::read_u32(&bytes[9..]),
            length: LittleEndian::read_u32(&bytes[13..]),
        }),
        Form::FixedMemory => Ok(Item::FixedMemory {
            base: LittleEndian::read_u32(&bytes[1..]),
            length: LittleEndian::read_u32(&bytes[5..]),
        }),
        Form::AddressSpace(width) => Ok(range(width, bytes)),
        Form::Interrupt => interrupt(alloc, bytes, at),
        Form::Other(tag) => Ok(Item::Other {
            tag,
            length: head.size,
        }),
    }
}

// Interrupts of the ISA bus; without a third byte they are signalled as the bus does it.
fn irq(bytes: &[u8]) -> Item
    requires { (length bytes.now ≡ 2) ⊎ (length bytes.now ≡ 3) }
    ensures { Some result ≡ said form.Irq bytes.now }
{
    let signal = match bytes.get(2) {
        Some(information) => irq_signal(*information),
        None => ISA_SIGNAL,
    };
    Item::Irq {
        mask: LittleEndian::read_u16(bytes),
        signal,
    }
}

// A range of an address space, by numbers of that width.
fn range(width: AddressWidth, bytes: &[u8]) -> Item
    requires { 3 + 5 * bytes_of width ≤ length bytes.now }
    ensures { result ≡ address_space width bytes.now }
{
    Item::AddressSpace {
        width,
        kind: bytes[0],
        granularity: range_number(width, 0, bytes),
        minimum: range_number(width, 1, bytes),
        maximum: range_number(width, 2, bytes),
        translation: range_number(width, 3, bytes),
        length: range_number(width, 4, bytes),
    }
}

// The i-th of the five numbers, from 0.
fn range_number(width: AddressWidth, i: usize, bytes: &[u8]) -> u64
    requires listed { i < 5 }
    requires within { 3 + 5 * bytes_of width ≤ length bytes.now }
    ensures { result ≡ range_number width i bytes.now }
{
    match width {
        AddressWidth::Word => u64::from(LittleEndian::read_u16(&bytes[3 + i * 2..])),
        AddressWidth::Dword => u64::from(LittleEndian::read_u32(&bytes[3 + i * 4..])),
        AddressWidth::Qword => LittleEndian::read_u64(&bytes[3 + i * 8..]),
    }
}

// Global interrupts by their numbers, which its bytes must hold.
fn interrupt(alloc: Global, bytes: &[u8], at: usize) -> Result<Item, ResourceFault>
    requires { 2 ≤ length bytes.now }
    ensures { ReadsAs (λ item. item) result (said_or_bad at (said form.Interrupt bytes.now)) }
{
    let count = bytes[1] as usize;
    if bytes.len() < 2 + 4 * count {
        return Err(refuse(ResourceCause::BadItem, at));
    }
    let numbers = numbers(alloc, &bytes[2..], count)?;
    Ok(Item::Interrupt {
        signal: interrupt_signal(bytes[0]),
        numbers,
    })
}

// So many numbers of four bytes, one behind the other.
fn numbers(alloc: Global, bytes: &[u8], count: usize) -> Result<Numbers, AllocError>
    requires { 4 * count ≤ length bytes.now }
    ensures { IfOk result (λ numbers. numbers ≡ interrupts count bytes.now) }
{
    let mut numbers = Vec::with_capacity(alloc, count)?;
    while numbers.len() < count {
        let number = number_at(bytes, 4 * numbers.len());
        numbers.push(number)?;
    }
    Ok(Numbers::new(numbers))
}

// The number of four bytes at a place.
fn number_at(bytes: &[u8], at: usize) -> u32
    requires { at + 4 ≤ length bytes.now }
    ensures { result ≡ number_at at 4 bytes.now }
{
    LittleEndian::read_u32(&bytes[at..])
}
