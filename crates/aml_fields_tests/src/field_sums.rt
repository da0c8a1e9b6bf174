// Reads and writes of fields at every place: sums over the events and values of many fields, which
// `bench/fields.py sums` works out bit by bit.

ghost use Rattle.std.specs.Prelude.{◌<◌, ◌^◌};
ghost use Rattle.aml_regions.specs.EventViews.{event_of, events_of};
ghost use Rattle.aml_regions.specs.Worlds.{CountsRefusal, IsUnit, MakesEvent};

use OtherBits::{Ones, Preserve, Zeros};
use UnitWidth::{Byte, DWord, QWord, Word};
use aml_contents::Names;
use aml_fields::{
    BitBytes, read_count, read_integer_field, read_wide_field, sound, write_count, write_field,
};
use aml_paths::{NoMemory, ObjectId};
use aml_regions::{Access, AnyField, Event, FieldLayout, OtherBits, RegionField, UnitWidth, World};
use std::alloc::Global;
use std::test::Fail;

/// The integer that fields are given.
const VALUE: u64 = 0xfedc_ba98_7654_3211;

/// Spreads a number over 64 bits.
const SPREAD: u64 = 0x9e37_79b9_7f4a_7c15;

/// A world whose answers hang on the address alone.
#[derive(Drop)]
struct Spread {
    events: Vec<Event>,
    refused: u64,
}

/// The highest bits of the address, spread.
fn answer(access: Access) -> u64
    requires { IsUnit access }
    ensures { result < 2 ^ access.width }
{
    let spread = access.address.wrapping_mul(SPREAD);
    match access.width {
        8 => spread / 0x100_0000_0000_0000,
        16 => spread / 0x1_0000_0000_0000,
        32 => spread / 0x1_0000_0000,
        _ => spread,
    }
}

impl Spread {
    /// Makes an event, or counts a refusal.
    #[tactic(auto, using(aml_regions::proofs::EventViews::one_more))]
    fn make(&mut self, event: Event) -> Result<(), NoMemory>
        ensures event { MakesEvent result (λ _. event_of event)
            (events_of self.old.events.items) (events_of self.new.events.items) }
        ensures refusal { CountsRefusal result self.old.refused self.new.refused }
    {
        if let Ok(()) = self.events.push(event) {
            return Ok(());
        }
        self.refused = self.refused.saturating_add(1);
        Err(NoMemory)
    }
}

impl World for Spread {
    ghost log = { λ it. record {
      events = events_of it.events.items;
      refusals = it.refused;
    } };

    fn read(&mut self, access: Access) -> Result<u64, NoMemory> {
        let value = answer(access);
        self.make(Event::Read(access, value))?;
        Ok(value)
    }

    fn write(&mut self, access: Access, value: u64) -> Result<(), NoMemory> {
        self.make(Event::Written(access, value))
    }

    fn notify(&mut self, object: ObjectId, value: u64) -> Result<(), NoMemory> {
        self.make(Event::Notified(object, value))
    }

    fn sleep(&mut self, milliseconds: u64, names: &mut Names) -> Result<(), NoMemory> {
        let _ = names;
        self.make(Event::Slept(milliseconds, None))
    }

    fn stall(&mut self, microseconds: u64) -> Result<(), NoMemory> {
        self.make(Event::Stalled(microseconds))
    }
}

/// A sum that hangs on the order of its parts.
fn mixed(sum: u64, part: u64) -> u64 {
    sum.wrapping_mul(0x100_0000_01b3).wrapping_add(part)
}

/// An event's kind, address, width and value, put into a sum.
fn event_sum(sum: u64, event: &Event) -> u64 {
    let (kind, access, value) = match event {
        Event::Read(access, value) => (1, *access, *value),
        Event::Written(access, value) => (2, *access, *value),
        _ => return mixed(sum, 3),
    };
    let sum = mixed(mixed(sum, kind), access.address);
    mixed(mixed(sum, u64::from(access.width)), value)
}

fn events_sum(events: &[Event]) -> u64 {
    let mut sum = 0;
    for event in events.iter() {
        sum = event_sum(sum, event);
    }
    sum
}

fn bytes_sum(bytes: &[u8]) -> u64 {
    let mut sum = 0;
    for byte in bytes.iter() {
        sum = mixed(sum, u64::from(*byte));
    }
    sum
}

/// A field in system memory.
fn field(layout: FieldLayout) -> AnyField {
    AnyField::Plain(RegionField {
        space: 0,
        place: 0x10,
        length: 64,
        layout,
    })
}

/// Reads and writes a field as an integer, where it has no more bits than one.
fn integer_sum(world: &mut Spread, layout: FieldLayout) -> Result<u64, Fail> {
    let field = field(layout);
    if !sound(&field) || field.layout().bits > 64 {
        return Ok(0);
    }
    let found = read_integer_field(world, &field, 1000)?.unwrap_or(0);
    write_field(world, &field, &VALUE, 1000)?;
    Ok(found)
}

/// Bytes to write.
fn given(bytes: &mut [u8]) {
    let mut next = 11u8;
    for byte in bytes.iter_mut() {
        *byte = next;
        next = next.wrapping_add(37);
    }
}

/// Reads and writes a field as bytes.
fn wide_sum(alloc: Global, world: &mut Spread, layout: FieldLayout) -> Result<u64, Fail> {
    let field = field(layout);
    let bits = field.layout().bits;
    if !sound(&field) || bits > 2048 {
        return Ok(0);
    }
    let size = (bits + 7) / 8;
    let mut bytes = vec![in alloc; 0u8; size as usize]?;
    read_wide_field(world, &field, &mut bytes, 1000)?;
    let found = bytes_sum(&bytes);
    given(&mut bytes);
    write_field(world, &field, &BitBytes { bytes: &bytes }, 1000)?;
    Ok(mixed(mixed(found, read_count(&field)), write_count(&field)))
}

/// The sum of one field's values and events.
fn field_sum(alloc: Global, layout: FieldLayout) -> Result<u64, Fail> {
    let mut world = Spread {
        events: Vec::new(alloc),
        refused: 0,
    };
    let integer = integer_sum(&mut world, layout)?;
    let wide = wide_sum(alloc, &mut world, layout)?;
    Ok(mixed(mixed(integer, wide), events_sum(&world.events)))
}

/// The sum of the fields at a first bit, of 1 to 130 bits.
fn place_sum(alloc: Global, width: UnitWidth, others: OtherBits, at: u64) -> Result<u64, Fail> {
    let mut sum = 0;
    for bits in 1..131u64 {
        let layout = FieldLayout {
            at,
            bits,
            width,
            others,
        };
        sum = mixed(sum, field_sum(alloc, layout)?);
    }
    Ok(sum)
}

/// Every so many-th of the first bits from 0 to 130 is tried: these stand at each place of a byte.
/// A run over all of them takes minutes.
const STEP: u64 = 13;

/// Units' width, the other bits, and the sum of all fields of 1 to 130 bits at these first bits.
const SUMS: [(UnitWidth, OtherBits, u64); 12] = [
    (Byte, Preserve, 0x0c7b_f482_f4b4_3027),
    (Byte, Ones, 0xc673_ad76_296e_049d),
    (Byte, Zeros, 0x7596_2723_1aba_0d27),
    (Word, Preserve, 0x2b3c_6edd_8463_3340),
    (Word, Ones, 0xff12_1c57_1383_e4b8),
    (Word, Zeros, 0x97e5_de53_ccd5_1146),
    (DWord, Preserve, 0xba83_4b16_67d5_146e),
    (DWord, Ones, 0x8a8f_1f58_54a9_ab53),
    (DWord, Zeros, 0x07d5_2a57_7c9d_d19d),
    (QWord, Preserve, 0xffd7_314a_1354_0ace),
    (QWord, Ones, 0xded7_d2fa_32bd_a84e),
    (QWord, Zeros, 0xfe59_7a23_c146_ce66),
];

#[test]
fn fields_of_every_place_are_written_and_read(rt: HostRuntime) -> Result<(), Fail> {
    for (width, others, wanted) in SUMS {
        let mut sum = 0;
        for turn in 0..11u64 {
            sum = mixed(sum, place_sum(rt.alloc(), width, others, turn * STEP)?);
        }
        assert_eq!(rt; sum, wanted);
    }
    Ok(())
}
