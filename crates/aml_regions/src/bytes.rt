// Bytes by space and address.

ghost use Rattle.std.specs.Prelude.{◌≡◌, ◌<◌, ◌≤◌, ◌+◌, ◌/◌, ◌^◌, ℕ, OnOk, OnErr, IsOk, length, slice_index};
ghost use Rattle.aml_regions.specs.Bytes.{byte_of, unit_of, with_run, with_unit, AreSet, IsSet, SameBytes};
ghost use Rattle.aml_regions.specs.Worlds.{IsUnit};

use crate::access::Access;
use aml_paths::NoMemory;
use std::collections::BTreeMap;

// The byte at a place, 0 where none is kept.
pub(crate) fn byte(bytes: &BTreeMap<(u8, u64), u8>, space: u8, address: u64) -> u8
    ensures { result ≡ byte_of bytes.now space address }
{
    bytes.get(&(space, address)).copied().unwrap_or(0)
}

// Keeps a byte. A byte that is kept already takes no memory.
pub(crate) fn put(
    bytes: &mut BTreeMap<(u8, u64), u8>,
    space: u8,
    address: u64,
    byte: u8,
) -> Result<(), NoMemory>
    ensures put { OnOk result
        (SameBytes (with_run (byte_of bytes.old) space address 1 (λ _. byte)) (byte_of bytes.new)) }
    ensures set { OnOk result (IsSet bytes.new space address) }
    ensures stay { OnOk result ((a : ℕ) → IsSet bytes.old space a → IsSet bytes.new space a) }
    ensures kept { OnErr result (SameBytes (byte_of bytes.old) (byte_of bytes.new)) }
    ensures room { IsSet bytes.old space address → IsOk result }
{
    match bytes.insert((space, address), byte) {
        Ok(_) => Ok(()),
        Err(_) => Err(NoMemory),
    }
}

// Keeps bytes from an address on, in which no address passes the last one.
pub(crate) fn put_run(
    bytes: &mut BTreeMap<(u8, u64), u8>,
    space: u8,
    address: u64,
    run: &[u8],
) -> Result<(), NoMemory>
    requires { address + length run.now ≤ 2 ^ 64 }
    ensures put { OnOk result (SameBytes
        (with_run (byte_of bytes.old) space address (length run.now) (slice_index run.now))
        (byte_of bytes.new)) }
    ensures room { AreSet bytes.old space address (length run.now) → IsOk result }
{
    for i in 0..run.len() {
        put(bytes, space, address + i as u64, run[i])?;
    }
    Ok(())
}

// Gives a unit a value, the lowest byte first.
pub(crate) fn put_unit(
    bytes: &mut BTreeMap<(u8, u64), u8>,
    access: Access,
    value: u64,
) -> Result<(), NoMemory>
    requires { IsUnit access }
    ensures put { OnOk result
        (SameBytes (with_unit (byte_of bytes.old) access value) (byte_of bytes.new)) }
    ensures room { AreSet bytes.old access.space access.address (access.width / 8) → IsOk result }
{
    let run = value.to_le_bytes();
    let count = (access.width / 8) as usize;
    put_run(bytes, access.space, access.address, &run[..count])
}

// Keeps what stands at a unit's places, so that bytes put there take no memory.
pub(crate) fn make_room(bytes: &mut BTreeMap<(u8, u64), u8>, access: Access) -> Result<(), NoMemory>
    requires { IsUnit access }
    ensures kept { SameBytes (byte_of bytes.old) (byte_of bytes.new) }
    ensures room { OnOk result
        (AreSet bytes.new access.space access.address (access.width / 8)) }
{
    for i in 0..access.width / 8 {
        let address = access.address + i as u64;
        let stands = byte(bytes, access.space, address);
        put(bytes, access.space, address, stands)?;
    }
    Ok(())
}

// A unit's value, the lowest byte first.
pub(crate) fn unit(bytes: &BTreeMap<(u8, u64), u8>, access: Access) -> u64
    requires { IsUnit access }
    ensures value { result ≡ unit_of (byte_of bytes.now) access }
    ensures fits { result < 2 ^ access.width }
{
    let mut value = 0;
    let mut left = access.width / 8;
    while left > 0 {
        left -= 1;
        let next = byte(bytes, access.space, access.address + left as u64);
        value = value * 256 + next as u64;
    }
    value
}
