//! Tables and methods that tests of several crates read, and a writer that fails.
#![tactic(auto)]

ghost use Rattle.std.specs.Prelude.{◌≡◌, IfOk, drop, length};

mod narrow;

use aml_namespace::Host;
pub use narrow::Narrow;
use std::alloc::{AllocError, Global};

/// An operating system, and what `_OSI` knows of it.
pub const HOST: Host<'static> = Host {
    os: b"Other",
    osi: &[b"Other"],
};

/// A DSDT of revision 2 with one method M000 of one argument: Return (Add (Arg0, One)).
pub const DSDT: [u8; 48] = [
    0x44, 0x53, 0x44, 0x54, 0x30, 0x00, 0x00, 0x00, 0x02, 0x1f, 0x41, 0x43, 0x50, 0x49, 0x43, 0x4b,
    0x52, 0x4f, 0x57, 0x53, 0x30, 0x30, 0x30, 0x31, 0x01, 0x00, 0x00, 0x00, 0x52, 0x4f, 0x57, 0x53,
    0x01, 0x00, 0x00, 0x00, 0x14, 0x0b, 0x4d, 0x30, 0x30, 0x30, 0x01, 0xa4, 0x72, 0x68, 0x01, 0x00,
];

/// The sum of the bytes modulo 256.
fn byte_sum(bytes: &[u8]) -> u8 {
    let mut sum = 0u8;
    for byte in bytes {
        sum = sum.wrapping_add(*byte);
    }
    sum
}

/// A table of a signature and a revision (ACPI 6.5, 5.2.6), and of at most 64,999 bytes behind its
/// header; the length and the checksum fit, what else the header has is 0.
pub fn table_of(
    alloc: Global,
    signature: [u8; 4],
    revision: u8,
    behind: &[u8],
) -> Result<Vec<u8>, AllocError>
    ensures { IfOk result (λ table. drop 36 table.items ≡ behind.now) }
{
    let length = behind.len() % 65_000 + 36;
    let [first, second, third, fourth] = signature;
    let [low, high] = [(length % 256) as u8, (length / 256) as u8];
    let front = [first, second, third, fourth, low, high, 0, 0, revision];
    let sum = byte_sum(&front).wrapping_add(byte_sum(behind));
    let mut table = front.to_vec(alloc)?;
    table.push(0u8.wrapping_sub(sum))?;
    table.extend_from_slice(&[0; 26])?;
    table.extend_from_slice(behind)?;
    Ok(table)
}

/// A table in which some bytes are others, by their places; those of no place are left out.
pub fn changed(alloc: Global, table: &[u8], changes: &[(usize, u8)]) -> Result<Vec<u8>, AllocError>
    ensures { IfOk result (λ made. length made.items ≡ length table.now) }
{
    let mut changed = table.to_vec(alloc)?;
    for (place, byte) in changes {
        if let Some(old) = changed.get_mut(*place) {
            *old = *byte;
        }
    }
    Ok(changed)
}

/// A method MAIN of so many arguments, whose body has at most 57 bytes and begins 43 bytes behind
/// the start of its table, where it is the first there.
pub fn method_of(alloc: Global, arguments: u8, body: &[u8]) -> Result<Vec<u8>, AllocError>
    ensures { IfOk result (λ method. drop 7 method.items ≡ body.now) }
{
    let mut method = [0x14, (body.len() % 58 + 6) as u8].to_vec(alloc)?;
    method.extend_from_slice(b"MAIN")?;
    method.push(arguments)?;
    method.extend_from_slice(body)?;
    Ok(method)
}
