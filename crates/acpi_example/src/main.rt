//! What an author of boot code or of a test bench writes to evaluate a method, as the README shows
//! it: `\_SB_.PCI0.SENS._TMP` of the board of examples/, over registers of its own.
#![tactic(auto)]

mod value;

use aml_regions::RegisterFile;
use aml_values::Value;
use std::{fs, io};
use value::value_of;

const PATH: &[u8] = b"\\_SB_.PCI0.SENS._TMP";

fn main(rt: HostRuntime) -> io::Result<()> {
    let dsdt = fs::read(&rt, "board.dat")?;
    let Ok(mut registers) = RegisterFile::read_text(rt.alloc(), b"io 60 001b0000") else {
        return println!(rt; "no registers");
    };
    match value_of(rt.alloc(), dsdt.as_slice(), PATH, &mut registers) {
        Some(Value::Int(number)) => println!(rt; "{number:#x}"),
        _ => println!(rt; "no integer"),
    }
}
