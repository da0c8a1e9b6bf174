// What each command and option is, with an example each.

ghost use Rattle.std.specs.Prelude.{◌≡◌, map};
ghost use Rattle.acpi_notes.specs.Help.{ask_for_help, asks_for_help, help_for, help_of, help_text};

use std::convert::AsStr;

/// What the words ask to be told.
#[derive(Clone, Copy, Debug, PartialEq, Eq)]
pub enum Help {
    /// What the program is, and which version.
    Version,
    /// Its commands.
    Commands,
    /// The options of a command.
    Tables,
    Names,
    Verify,
    Eval,
    Resources,
    Routing,
}

const COMMANDS: &str = "\
acpicheck reads ACPI tables, lists what they define, judges their methods and evaluates them.

Usage: acpicheck COMMAND [OPTIONS] FILES

  tables FILES    each file's header and contents
                    acpicheck tables apic.dat
  names FILES     each path of a DSDT and the SSDTs behind it, and what stands there
                    acpicheck names dsdt.dat ssdt1.dat
  verify FILES    of each method whether it can go wrong, and its steps or the first cause
                    acpicheck verify dsdt.dat ssdt1.dat
  eval FILES      the events of a method's evaluation, and how it ended
                    acpicheck eval --method '\\_SB_.PCI0._STA' dsdt.dat
  resources FILES what a _CRS gives: interrupts, addresses, ranges
                    acpicheck resources --object '\\_SB_.LNKA._CRS' dsdt.dat
  routing FILES   where the interrupts go that a _PRT lists
                    acpicheck routing --object '\\_SB_.PCI0._PRT' --madt apic.dat dsdt.dat

A folder among FILES stands for the tables in it: all for tables, the DSDT and SSDTs for the others.
acpicheck COMMAND --help tells the options of a command. Without words the program takes them
from the first line of standard input; there a file is @, the hex text of the next line.
Status 0: done; 1: a fault; 2: the words; 3: a method is refused, or AML stopped.
";

const TABLES: &str = "\
Usage: acpicheck tables FILES

Prints each file's header; of an RSDP, XSDT, FADT or MADT its contents too.
  acpicheck tables dsdt.dat facp.dat apic.dat
";

const NAMES: &str = "\
Usage: acpicheck names [OPTIONS] FILES

Loads a DSDT and the SSDTs behind it, and prints each path with what stands there.
  acpicheck names dsdt.dat ssdt1.dat

  --dead-externals    reads Externals that stand in an If (Zero), as iasl writes them
                        acpicheck names --dead-externals dsdt.dat
";

const VERIFY: &str = "\
Usage: acpicheck verify [OPTIONS] FILES

Loads a DSDT and the SSDTs behind it, and prints of each method that it is accepted, with the most
steps that it takes, or why it is refused, with the table and the byte. An accepted method meets no
AML error, whatever its arguments of these kinds, the names and the registers hold.
  acpicheck verify dsdt.dat ssdt1.dat

  --kinds FILE        lines PATH KINDS that tell the kinds of a method's arguments, as
                      \\_SB_.EC0_.WRIT int:15 buf:32 of int, int:MAX, buf:N, str:N and pkg:
                      --kinds board.kinds
  --explain           standard error says in words why each method is refused, and where a
                      method that it calls is: acpicheck verify --explain dsdt.dat
  --dead-externals    reads Externals that stand in an If (Zero), as iasl writes them:
                      acpicheck verify --dead-externals dsdt.dat
";

const EVAL: &str = "\
Usage: acpicheck eval --method PATH [OPTIONS] FILES

Loads a DSDT and the SSDTs behind it, evaluates a method, and prints its accesses and its value.
The method is judged first, as verify does: a refused one is not evaluated, and has its line.
  acpicheck eval --method '\\_SB_.PCI0._STA' dsdt.dat ssdt1.dat

  --method PATH       the method, as names prints it: --method '\\_SB_.PCI0._STA'
  --plain N           without a verdict, and with at most so many steps: --plain 10000
  --args TEXT         its arguments, by commas: --args 41,0x29,buf:00a5,str:ACPI,pkg
  --regs FILE         lines SPACE ADDRESS BYTES that set registers, as io 60 1527: --regs board.regs
  --kinds FILE        kinds of arguments, as verify takes them, without effect beside --plain:
                      --kinds board.kinds
  --osi TEXT          the one text that _OSI knows: --osi 'Windows 2015'
  --dead-externals    reads Externals that stand in an If (Zero), as iasl writes them
";

const RESOURCES: &str = "\
Usage: acpicheck resources --object PATH [OPTIONS] FILES

Loads a DSDT and the SSDTs behind it, and prints a line for each resource descriptor of the buffer
that an object gives: a data name what it holds, a method without arguments what its evaluation
gives. A method is judged first, as verify does: a refused one is not evaluated, and has its line.
  acpicheck resources --object '\\_SB_.PCI0._CRS' dsdt.dat ssdt1.dat

  --object PATH       the object, as names prints it: --object '\\_SB_.LNKA._CRS'
  --regs FILE         lines SPACE ADDRESS BYTES that set registers, as io 60 1527: --regs board.regs
  --kinds FILE        kinds of arguments, as verify takes them: --kinds board.kinds
  --dead-externals    reads Externals that stand in an If (Zero), as iasl writes them:
                      acpicheck resources --dead-externals --object '\\_SB_.PCI0._CRS' dsdt.dat
";

const ROUTING: &str = "\
Usage: acpicheck routing --object PATH [OPTIONS] FILES

Loads a DSDT and the SSDTs behind it, and prints a line for each element of the _PRT that an object
gives: a data name what it holds, a method without arguments what its evaluation gives. The _CRS of
each link device that it names is asked once, in their order. Methods are judged first, as verify
does: a refused one is not evaluated, and has its line; a link whose _CRS is refused has no interrupt.
  acpicheck routing --object '\\_SB_.PCI0._PRT' --madt apic.dat dsdt.dat ssdt1.dat

  --object PATH       the object, as names prints it: --object '\\_SB_.PCI0._PRT'
  --madt FILE         the MADT, which says where interrupts of the ISA bus go; without one each
                      keeps its number: --madt apic.dat
  --regs FILE         lines SPACE ADDRESS BYTES that set registers, as io 60 1527: --regs board.regs
  --kinds FILE        kinds of arguments, as verify takes them: --kinds board.kinds
  --dead-externals    reads Externals that stand in an If (Zero), as iasl writes them:
                      acpicheck routing --dead-externals --object '\\_SB_.PCI0._PRT' dsdt.dat
";

const VERSION: &str = "acpicheck 0.1, ACPI 6.5\n";

impl Help {
    /// The text.
    pub fn text(self) -> &'static str
        ensures { result.now ≡ help_text self }
    {
        match self {
            Help::Version => VERSION,
            Help::Commands => COMMANDS,
            Help::Tables => TABLES,
            Help::Names => NAMES,
            Help::Verify => VERIFY,
            Help::Eval => EVAL,
            Help::Resources => RESOURCES,
            Help::Routing => ROUTING,
        }
    }
}

/// Which help the words ask for: `--version` or `-V` in front; or `--help` or `-h` anywhere, of the
/// command that is the first word; or `help` in front, of the command that is the last.
pub fn help_of<S: AsStr>(words: &[S]) -> Option<Help>
    ensures { result ≡ help_of (map S.text words.now) }
{
    let (Some(first), Some(last)) = (words.first(), words.last()) else {
        return None;
    };
    if first.as_str() == "help" {
        return help_for(last.as_str(), true);
    }
    help_for(first.as_str(), ask_for_help(words))
}

// Whether one of the words asks for help.
fn ask_for_help<S: AsStr>(words: &[S]) -> bool
    ensures { result ≡ ask_for_help (map S.text words.now) }
{
    for word in words {
        if asks_for_help(word.as_str()) {
            return true;
        }
    }
    false
}

fn help_for(first: &str, asks: bool) -> Option<Help>
    ensures { result ≡ help_for first.now asks }
{
    if first == "--version" || first == "-V" {
        return Some(Help::Version);
    }
    if !asks {
        return None;
    }
    Some(match first {
        "tables" => Help::Tables,
        "names" => Help::Names,
        "verify" => Help::Verify,
        "eval" => Help::Eval,
        "resources" => Help::Resources,
        "routing" => Help::Routing,
        _ => Help::Commands,
    })
}

fn asks_for_help(word: &str) -> bool
    ensures { result ≡ asks_for_help word.now }
{
    word == "--help" || word == "-h"
}
