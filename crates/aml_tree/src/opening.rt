// How a term begins.

ghost use Rattle.std.specs.Prelude.{◌≡◌, ◌<◌, ◌+◌, ◌==◌, ◌&&◌, length, IfOk};
ghost use Rattle.aml_operators.specs.Table.{op_of};
ghost use Rattle.aml_operators.specs.Places.{naming};
ghost use Rattle.aml_tree.specs.Fault.{ReadsAs, TakesNone, refusal};
ghost use Rattle.aml_tree.specs.Opening.{is_name_lead, may_be_none, asking, name_opening, row_opening, opening_at};
ghost use Rattle.aml_tree.specs.Openings.{opening_of, IsNext, IsWithin};

use crate::fault::{Refusal, TreeCause, TreeFault};
use crate::leaf::byte;
use aml_lex::leads_segment;
use aml_operators::{Code, Naming, Op, Ruling, Spot, naming_of, op_of_code, row_of, ruling_of};

/// What the first bytes of a term and its place decide.
#[derive(Clone, Copy, Debug, PartialEq, Eq)]
pub(crate) enum Opening {
    /// A target that is none.
    NoTarget,
    /// A name that stands alone.
    PlainName,
    /// A name with as many terms as it takes.
    InvokedName,
    /// An operator, and the place behind its opcode.
    Operator(Op, usize),
}

/// A refusal at a place.
pub(crate) fn refuse(cause: TreeCause, at: usize) -> TreeFault
    ensures { result ≡ TreeFault.Refused (refusal cause at) }
{
    TreeFault::Refused(Refusal { cause, at })
}

/// Whether a name string begins with the byte.
fn leads_name(byte: u8) -> bool
    ensures { result ≡ is_name_lead byte }
{
    leads_segment(byte) || matches!(byte, 0x5C | 0x5E | 0x2E | 0x2F)
}

/// Whether a term in such a place may be none, and the byte says so.
pub(crate) fn is_none(spot: Spot, byte: u8) -> bool
    ensures { result ≡ (may_be_none spot && (byte == 0)) }
{
    matches!(spot, Spot::Target) && byte == 0
}

/// Where a fault that only a module has is told.
fn asking_place(spot: Spot, asker: usize, at: usize) -> usize
    ensures { result ≡ asking spot asker at }
{
    match spot {
        Spot::Statement => at,
        _ => asker,
    }
}

fn open_name(naming: Naming, told: usize, at: usize) -> Result<Opening, TreeFault>
    ensures gives { ReadsAs opening_of result (name_opening naming told at) }
    ensures spare { TakesNone result }
    ensures next { (next : _) → IfOk result (IsNext next) }
{
    match naming {
        Naming::Invoked => Ok(Opening::InvokedName),
        Naming::Plain => Ok(Opening::PlainName),
        Naming::Unknown => Err(refuse(TreeCause::UnknownOpcode, at)),
        Naming::Outside => Err(refuse(TreeCause::ModuleCode, told)),
    }
}

fn open_operator(
    code: Code,
    spot: Spot,
    opcode: u16,
    told: usize,
    at: usize,
    next: usize,
) -> Result<Opening, TreeFault>
    ensures gives { ReadsAs opening_of result (row_opening code spot (op_of opcode) told at next) }
    ensures spare { TakesNone result }
    ensures next { IfOk result (IsNext next) }
{
    match op_of_code(opcode) {
        None => Err(refuse(TreeCause::UnknownOpcode, at)),
        Some(op) => match ruling_of(code, spot, row_of(op).class) {
            Ruling::Fine => Ok(Opening::Operator(op, next)),
            Ruling::Unknown => Err(refuse(TreeCause::UnknownOpcode, at)),
            Ruling::Outside => Err(refuse(TreeCause::ModuleCode, told)),
        },
    }
}

/// The beginning of a term that stands in such a place beside the operator that asks for it.
#[tactic(auto, unfolding(crate::specs::Opening::opening_at))]
pub(crate) fn open_term(
    code: Code,
    asker: usize,
    spot: Spot,
    bytes: &[u8],
    at: usize,
) -> Result<Opening, TreeFault>
    ensures gives { ReadsAs opening_of result (opening_at code asker spot bytes.now at) }
    ensures spare { TakesNone result }
    ensures within { IfOk result (λ o. at < length bytes.now) }
    ensures next { IfOk result (IsWithin at (length bytes.now)) }
{
    let first = byte(bytes, at)?;
    let told = asking_place(spot, asker, at);
    if is_none(spot, first) {
        Ok(Opening::NoTarget)
    } else if leads_name(first) {
        open_name(naming_of(code, spot), told, at)
    } else if first == 0x5B {
        let second = byte(bytes, at + 1)?;
        open_operator(code, spot, 0x5B00 + second as u16, told, at, at + 2)
    } else {
        open_operator(code, spot, first as u16, told, at, at + 1)
    }
}
