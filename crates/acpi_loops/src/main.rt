//! Loops over single calls of the libraries, which `bench/loops.py` times.
//!
//! The words are a loop's name, a number of turns and, of the loop over verdicts, the file of a
//! DSDT; what is printed is a sum over what the calls gave.
#![tactic(auto)]

mod contents;
mod fields;
mod one_field;
mod verdicts;

use contents::{get_again, set_again};
use fields::{read_again, write_again};
use std::alloc::Global;
use std::{env, fs, io};
use verdicts::verify_again;

const USAGE: &str = "acpi_loops LOOP TURNS [DSDT]";

/// What a loop of so many turns gives; None where no loop has the name, and where memory is wanted.
fn sum_of(alloc: Global, name: &str, turns: u64) -> Option<u64> {
    match name {
        "get" => get_again(alloc, turns),
        "set" => set_again(alloc, turns),
        "read" => read_again(turns),
        "write" => write_again(turns),
        _ => None,
    }
}

fn main(rt: HostRuntime) -> io::Result<()> {
    let mut words = env::args(&rt)?.skip(1);
    let (Some(name), Some(turns)) = (words.next(), words.next()) else {
        return println!(rt; "{USAGE}");
    };
    let Ok(turns) = turns.as_str().parse::<u64>() else {
        return println!(rt; "{USAGE}");
    };
    let sum = if name.as_str() == "verify" {
        let Some(file) = words.next() else {
            return println!(rt; "{USAGE}");
        };
        let dsdt = fs::read(&rt, file.as_str())?;
        verify_again(rt.alloc(), dsdt.as_slice(), turns)
    } else {
        sum_of(rt.alloc(), name.as_str(), turns)
    };
    match sum {
        Some(sum) => println!(rt; "{sum}"),
        None => println!(rt; "none"),
    }
}
