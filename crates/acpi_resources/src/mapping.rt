// What the elements of a `_PRT` say (ACPI 6.5, 6.2.13, table 6.15).

ghost use Rattle.std.specs.Prelude.{◌≡◌};
ghost use Rattle.acpi_resources.specs.Mappings.{fault_of, integer_of, mapping_of, mapping_of_four, mapping_of_parts, named, numbered, pin_of_part, source_of};
ghost use Rattle.aml_values.specs.Views.{element, elements_of};

use crate::route::{Pin, pin_of};
use aml_paths::ObjectId;
use aml_values::{Element, Value};

/// From where a pin's interrupt comes.
#[derive(Clone, Copy, Debug, PartialEq, Eq)]
pub(crate) enum Source {
    /// The link device that a name names, if there is one.
    Link(Option<ObjectId>),
    /// The global interrupt of a number, which no device can change.
    Global(u32),
}

/// What an element says.
#[derive(Clone, Copy, Debug, PartialEq, Eq)]
pub(crate) struct Mapping {
    pub(crate) address: u64,
    pub(crate) pin: Pin,
    pub(crate) source: Source,
}

/// What keeps an element of a `_PRT` from saying where an interrupt comes from; of several the
/// first (ACPI 6.5, 6.2.13, table 6.15).
#[derive(Clone, Copy, Debug, PartialEq, Eq)]
pub enum EntryFault {
    /// It is no package of four parts.
    Parts,
    /// The address, its first part, is no integer.
    Address,
    /// The pin, its second part, is no integer from 0 to 3.
    Pin,
    /// The source, its third part, is neither a name nor 0.
    Source,
    /// The index, its fourth part, is no integer.
    Index,
    /// The index is 2^32 or more, where the source is 0.
    GreatIndex,
}

/// What keeps an element of a `_PRT` from saying where an interrupt comes from; None where it says
/// so.
pub fn entry_fault(each: &Element) -> Option<EntryFault>
    ensures { result ≡ fault_of (mapping_of (element each.now)) }
{
    mapping_of(each).err()
}

/// What an element says, or what keeps it from that: it is a package of four, an address, a pin, a
/// source and an index.
pub(crate) fn mapping_of(each: &Element) -> Result<Mapping, EntryFault>
    ensures { result ≡ mapping_of (element each.now) }
{
    match each {
        Element::Value(Value::Pkg(package)) => mapping_of_parts(package.elements()),
        _ => Err(EntryFault::Parts),
    }
}

// What the parts of an element say.
#[tactic(auto, using(crate::proofs::Parts::no_four))]
fn mapping_of_parts(parts: &[Element]) -> Result<Mapping, EntryFault>
    ensures { result ≡ mapping_of_parts (elements_of parts.now) }
{
    match parts {
        [address, pin, source, index] => mapping_of_four(address, pin, source, index),
        _ => Err(EntryFault::Parts),
    }
}

fn mapping_of_four(
    address: &Element,
    pin: &Element,
    source: &Element,
    index: &Element,
) -> Result<Mapping, EntryFault>
    ensures { result ≡ mapping_of_four (element address.now) (element pin.now)
        (element source.now) (element index.now) }
{
    let address = integer_of(address).ok_or(EntryFault::Address)?;
    let pin = pin_of_part(pin).ok_or(EntryFault::Pin)?;
    let source = source_of(source, index)?;
    Ok(Mapping {
        address,
        pin,
        source,
    })
}

// The pin that an element is.
fn pin_of_part(each: &Element) -> Option<Pin>
    ensures { result ≡ pin_of_part (element each.now) }
{
    pin_of(integer_of(each)?)
}

// The integer that an element is.
fn integer_of(each: &Element) -> Option<u64>
    ensures { result ≡ integer_of (element each.now) }
{
    match each {
        Element::Value(Value::Int(number)) => Some(*number),
        _ => None,
    }
}

// The source of a source and an index.
fn source_of(source: &Element, index: &Element) -> Result<Source, EntryFault>
    ensures { result ≡ source_of (element source.now) (element index.now) }
{
    match source {
        Element::Name(object) => named(*object, index),
        Element::Value(Value::Int(0)) => numbered(index),
        _ => Err(EntryFault::Source),
    }
}

// The source that a name is, beside an index, which says nothing.
fn named(object: Option<ObjectId>, index: &Element) -> Result<Source, EntryFault>
    ensures { result ≡ named object (integer_of (element index.now)) }
{
    match integer_of(index) {
        Some(_) => Ok(Source::Link(object)),
        None => Err(EntryFault::Index),
    }
}

// The source that an index is, where no link is named.
fn numbered(index: &Element) -> Result<Source, EntryFault>
    ensures { result ≡ numbered (integer_of (element index.now)) }
{
    let index = integer_of(index).ok_or(EntryFault::Index)?;
    if index <= u64::from(u32::MAX) {
        Ok(Source::Global(index as u32))
    } else {
        Err(EntryFault::GreatIndex)
    }
}
