// What the built program cannot show: writers that fail, files that memory cannot hold, and single
// calls. What it prints and answers is told by the rows of crates/acpicheck/rows.

mod calls;
mod faults;
mod names;
mod values;
mod whole;

use acpi_listing::run;
use acpi_samples::Narrow;
use acpi_sources::Status;
use acpi_text::RunFault;
use hex;
use std::alloc::{AllocError, Global};
use std::test::Fail;

// A field of 8 bits at bit 4 of a region, which a method writes; registers before it.
const FIELD: &str =
    "445344544c00000002a741435049434b524f57533030303101000000524f5753010000005b804750494f010a600a045b810d4750494f010004464c443008140d4d30303100700aab464c4430";

const REGISTERS: &str = "696f20363020313532370a";

// Two methods that call each other, and one that calls the first.
const CYCLE: &str =
    "4453445448000000021241435049434b524f57533030303101000000524f575301000000140b4141414100a442424242140b4242424200a441414141140b4343434300a441414141";

// A link device with a _CRS, and a _PRT that names it; a MADT that sends its interrupt elsewhere.
const LINK: &str =
    "445344547d000000026e41435049434b524f57533030303101000000524f5753010000001048055c5f53425f5b82324c4e4b41142c5f43525300084255463011090a062300001879008b425546300149525157700b000249525157a4425546305b821b50434930085f505254121001120d040cffff0100004c4e4b4100";

const MADT: &str =
    "4150494336000000017041435049434b524f57533030303101000000524f5753010000000000000000000000020a0009140000000f00";

const TABLE_1: &str =
    "4453445430000000021f41435049434b524f57533030303101000000524f575301000000140b4d30303001a472680100";

// What the program writes, and how it ends.
#[derive(Drop)]
struct Answer {
    text: Vec<u8>,
    ended: Result<Status, RunFault>,
}

// What the program answers to an input, by a writer of that width and room.
fn told(alloc: Global, input: &str, width: usize, room: usize) -> Result<Answer, AllocError> {
    let mut out = Narrow::new(alloc, width, room)?;
    let ended = run(alloc, &mut input.as_bytes(), &mut out);
    Ok(Answer {
        text: out.text,
        ended,
    })
}

// A DSDT with that revision and body, its length and checksum to fit, in hex.
fn dsdt(alloc: Global, revision: u8, body: &str) -> Option<String> {
    let header = "445344540000000000004143\
         5049434b524f57533030303101000000524f575301000000";
    let mut bytes = hex::decode(alloc, header).ok()?;
    bytes
        .extend_from_slice(&hex::decode(alloc, body).ok()?)
        .ok()?;
    *bytes.get_mut(8)? = revision;
    seal(&mut bytes)?;
    hex::encode(alloc, bytes.as_slice()).ok()
}

// Writes a table's length and checksum.
fn seal(table: &mut [u8]) -> Option<()> {
    let length = u32::try_from(table.len()).ok()?;
    table.get_mut(4..8)?.copy_from_slice(&length.to_le_bytes());
    *table.get_mut(9)? = 0;
    let sum = table.iter().fold(0u8, |sum, b| sum.wrapping_add(*b));
    *table.get_mut(9)? = 0u8.wrapping_sub(sum);
    Some(())
}

// Whether a writer that fails at that byte has the text up to there.
fn is_cut_off(alloc: Global, input: &str, whole: &[u8], room: usize) -> Result<bool, AllocError> {
    let front = told(alloc, input, 7, room)?;
    Ok(front.ended == Err(RunFault::Write) && whole.get(..room) == Some(front.text.as_slice()))
}

// Whether it is so at each byte of the text.
fn is_cut_off_everywhere(alloc: Global, input: &str, whole: &[u8]) -> Result<bool, AllocError> {
    for room in 0..whole.len() {
        if !is_cut_off(alloc, input, whole, room)? {
            return Ok(false);
        }
    }
    Ok(true)
}

// Whether the program writes a text and ends so, and writes the same into a writer
// that takes a byte at a time and, up to where it fails, into one that fails.
fn is_written(alloc: Global, input: &str, status: Status) -> Result<bool, AllocError> {
    let whole = told(alloc, input, 4096, 4096)?;
    let slow = told(alloc, input, 1, 4096)?;
    let is_same = slow.ended == whole.ended && slow.text.as_slice() == whole.text.as_slice();
    if whole.ended != Ok(status) || whole.text.is_empty() || !is_same {
        return Ok(false);
    }
    is_cut_off_everywhere(alloc, input, &whole.text)
}

// Words, two lines of tables or registers, and how the command ends.
type Row<'a> = (&'a str, &'a str, &'a str, Status);

// Whether a command is written so.
fn is_answered(alloc: Global, row: Row<'_>) -> Result<bool, Fail> {
    let (words, first, second, status) = row;
    let input = format!(in alloc; "{words}\n{first}\n{second}\n")?;
    Ok(is_written(alloc, input.as_str(), status)?)
}

const LINK_OBJECT: &str = "resources --object \\_SB_.LNKA._CRS @";

const ROUTING: &str = "routing --object \\_SB_.PCI0._PRT --madt @ @";

const ROUTING_ALONE: &str = "routing --object \\_SB_.PCI0._PRT @";

const ROWS: &[Row<'static>] = &[
    ("verify @", TABLE_1, "", Status::Done),
    ("tables @ @", TABLE_1, TABLE_1, Status::Done),
    (
        "eval --plain 9 --method \\M000 --args 41 @",
        TABLE_1,
        "",
        Status::Done,
    ),
    (
        "eval --plain 9 --method \\M001 @",
        TABLE_1,
        "",
        Status::Fault,
    ),
    ("names @", TABLE_1, "", Status::Done),
    ("tables @ @", FIELD, CYCLE, Status::Done),
    ("names @", FIELD, "", Status::Done),
    ("verify @", FIELD, "", Status::Done),
    (
        "eval --method \\M001 --regs @ @",
        REGISTERS,
        FIELD,
        Status::Done,
    ),
    ("names @", CYCLE, "", Status::Done),
    ("verify @", CYCLE, "", Status::Refused),
    (
        "eval --plain 128 --method \\AAAA @",
        CYCLE,
        "",
        Status::Refused,
    ),
    ("tables @ @", MADT, LINK, Status::Done),
    ("names @", LINK, "", Status::Done),
    ("verify @", LINK, "", Status::Done),
    (LINK_OBJECT, LINK, "", Status::Done),
    (ROUTING, MADT, LINK, Status::Done),
    (ROUTING_ALONE, LINK, "", Status::Done),
    ("routing --object \\AAAA @", CYCLE, "", Status::Refused),
    ("resources --object \\AAAA @", CYCLE, "", Status::Refused),
    (
        "resources --object \\_SB_.PCI0._PRT @",
        LINK,
        "",
        Status::Fault,
    ),
    (
        "routing --object \\_SB_.LNKA._CRS @",
        LINK,
        "",
        Status::Fault,
    ),
];

// What a command prints, into a writer that takes a byte at a time, and into one that fails at each
// byte: each listing, a verdict, an outcome and a fault's line.
#[test]
fn writers(rt: HostRuntime) -> Result<(), Fail> {
    let alloc = rt.alloc();
    for row in ROWS {
        assert!(rt; is_answered(alloc, *row)?, "at {}", row.0);
    }
    Ok(())
}

// The same of the lines of a body that cannot be read.
#[test]
fn writers_of_a_torn_body(rt: HostRuntime) -> Result<(), Fail> {
    let alloc = rt.alloc();
    let torn = dsdt(alloc, 2, "14084d30303000a45c").ok_or("a table")?;
    for words in ["verify @", "eval --plain 9 --method \\M000 @"] {
        let row = (words, torn.as_str(), "", Status::Refused);
        assert!(rt; is_answered(alloc, row)?, "at {words}");
    }
    Ok(())
}
