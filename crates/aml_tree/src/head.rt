// How data in a module begins (ACPI 6.5, 20.2.5.1), read without memory.

ghost use Rattle.std.specs.Prelude.{◌≤◌, ◌<◌, IfOk, IfSome, length};
ghost use Rattle.aml_operators.specs.declared.row.Spot.TheVariants as spot;
ghost use Rattle.aml_tree.specs.Body.{greatest_depth};
ghost use Rattle.aml_tree.specs.Fault.{ReadsAs, TakesNone, same};
ghost use Rattle.aml_tree.specs.Heads.{IsElements, ReadsHead, buffer_at, head_at, literal_at, opened_head, operator_head, package_at, size_at, sized_package_at, string_at};
ghost use Rattle.aml_tree.specs.Openings.{IsWithin, opening_of};

use crate::fault::{TreeCause, TreeFault};
use crate::leaf::{byte, end, name, number, text};
use crate::limit::is_too_large;
use crate::module::GREATEST_DEPTH;
use crate::opening::{Opening, open_term, refuse};
use aml_operators::{Code, Limit, NumberSize, Op, Spot};

/// How data in a module begins, up to the terms that stand in it.
#[derive(Clone, Copy, Debug, PartialEq, Eq)]
pub enum Head {
    /// A name, as an element.
    Name,
    /// An integer literal.
    Integer(u64),
    /// A buffer of so many bytes: the greater of its size and its initialiser's length.
    Buffer(u64),
    /// A string of so many characters.
    String(u64),
    /// A package that tells this number of elements. They stand from a place on up to its end.
    Package { count: u64, start: usize },
}

/// The number of an integer literal behind its opcode, and the place behind it.
fn literal(op: Op, bytes: &[u8], at: usize) -> Result<(u64, usize), TreeFault>
    requires { at ≤ length bytes.now }
    ensures gives { ReadsAs same result (literal_at op bytes.now at) }
    ensures spare { TakesNone result }
    ensures ahead { IfOk result (λ r. at ≤ r.1) }
    ensures within { IfOk result (λ r. r.1 ≤ length bytes.now) }
{
    match op {
        Op::Zero => Ok((0, at)),
        Op::One => Ok((1, at)),
        Op::Ones => Ok((u64::MAX, at)),
        Op::ByteConst => number(NumberSize::Byte, bytes, at),
        Op::WordConst => number(NumberSize::Word, bytes, at),
        Op::DWordConst => number(NumberSize::DWord, bytes, at),
        _ => number(NumberSize::QWord, bytes, at),
    }
}

/// A size, which is an integer literal in a module, and the place behind it.
#[tactic(auto, unfolding(crate::specs::Heads::size_at))]
fn size(own: usize, bytes: &[u8], at: usize, depth: u8) -> Result<(u64, usize), TreeFault>
    requires { at ≤ length bytes.now }
    ensures gives { ReadsAs same result (size_at depth own bytes.now at) }
    ensures spare { TakesNone result }
    ensures ahead { IfOk result (λ r. at < r.1) }
    ensures within { IfOk result (λ r. r.1 ≤ length bytes.now) }
{
    if depth == 0 {
        byte(bytes, at)?;
        return Err(refuse(TreeCause::TooDeep, at));
    }
    match open_term(Code::Module, own, Spot::Size, bytes, at)? {
        Opening::Operator(op, next) => literal(op, bytes, next),
        _ => Err(refuse(TreeCause::UnknownOpcode, at)),
    }
}

/// A string behind its opcode, and the place behind it.
#[tactic(auto, unfolding(crate::specs::Heads::string_at))]
fn string(bytes: &[u8], at: usize) -> Result<(Head, usize), TreeFault>
    requires { at ≤ length bytes.now }
    ensures gives { ReadsAs same result (string_at bytes.now at) }
    ensures spare { TakesNone result }
    ensures ahead { IfOk result (λ r. at ≤ r.1) }
    ensures elements { IfOk result (λ r. IsElements at r.1 r.0) }
    ensures within { IfOk result (λ r. r.1 ≤ length bytes.now) }
{
    let (_, next) = text(bytes, at)?;
    Ok((Head::String((next - at).saturating_sub(1) as u64), next))
}

/// A buffer behind its opcode, and the place behind it.
#[tactic(auto, unfolding(crate::specs::Heads::buffer_at))]
fn buffer(own: usize, bytes: &[u8], at: usize, depth: u8) -> Result<(Head, usize), TreeFault>
    requires { at ≤ length bytes.now }
    ensures gives { ReadsAs same result (buffer_at depth own bytes.now at) }
    ensures spare { TakesNone result }
    ensures ahead { IfOk result (λ r. at ≤ r.1) }
    ensures elements { IfOk result (λ r. IsElements at r.1 r.0) }
    ensures within { IfOk result (λ r. r.1 ≤ length bytes.now) }
{
    let (stop, next) = end(bytes, at)?;
    let inside = &bytes[..stop];
    let (size, behind) = size(own, inside, next, depth)?;
    let left = inside.len() - behind;
    if is_too_large(Limit::Buffer, Some(size), left) {
        return Err(refuse(TreeCause::TooLarge, own));
    }
    Ok((Head::Buffer(size.max(left as u64)), inside.len()))
}

/// A package behind its opcode, and its end.
#[tactic(auto, unfolding(crate::specs::Heads::package_at))]
fn package(bytes: &[u8], at: usize) -> Result<(Head, usize), TreeFault>
    requires { at ≤ length bytes.now }
    ensures gives { ReadsAs same result (package_at bytes.now at) }
    ensures spare { TakesNone result }
    ensures ahead { IfOk result (λ r. at ≤ r.1) }
    ensures elements { IfOk result (λ r. IsElements at r.1 r.0) }
    ensures within { IfOk result (λ r. r.1 ≤ length bytes.now) }
{
    let (stop, next) = end(bytes, at)?;
    let (count, start) = number(NumberSize::Byte, &bytes[..stop], next)?;
    Ok((Head::Package { count, start }, stop))
}

/// The same, where the number of its elements is a term.
#[tactic(auto, unfolding(crate::specs::Heads::sized_package_at))]
fn sized_package(own: usize, bytes: &[u8], at: usize, depth: u8) -> Result<(Head, usize), TreeFault>
    requires { at ≤ length bytes.now }
    ensures gives { ReadsAs same result (sized_package_at depth own bytes.now at) }
    ensures spare { TakesNone result }
    ensures ahead { IfOk result (λ r. at ≤ r.1) }
    ensures elements { IfOk result (λ r. IsElements at r.1 r.0) }
    ensures within { IfOk result (λ r. r.1 ≤ length bytes.now) }
{
    let (stop, next) = end(bytes, at)?;
    let inside = &bytes[..stop];
    let (count, start) = size(own, inside, next, depth)?;
    if is_too_large(Limit::Package, Some(count), inside.len() - start) {
        return Err(refuse(TreeCause::TooLarge, own));
    }
    Ok((Head::Package { count, start }, stop))
}

/// Data behind its opcode.
#[tactic(auto, unfolding(crate::specs::Heads::operator_head))]
fn operator_head(
    op: Op,
    own: usize,
    bytes: &[u8],
    at: usize,
    depth: u8,
) -> Result<(Head, usize), TreeFault>
    requires { at ≤ length bytes.now }
    ensures gives { ReadsAs same result (operator_head depth op own bytes.now at) }
    ensures spare { TakesNone result }
    ensures ahead { IfOk result (λ r. at ≤ r.1) }
    ensures elements { IfOk result (λ r. IsElements at r.1 r.0) }
    ensures within { IfOk result (λ r. r.1 ≤ length bytes.now) }
{
    match op {
        Op::String => string(bytes, at),
        Op::Buffer => buffer(own, bytes, at, depth),
        Op::Package => package(bytes, at),
        Op::VarPackage => sized_package(own, bytes, at, depth),
        _ => {
            let (number, next) = literal(op, bytes, at)?;
            Ok((Head::Integer(number), next))
        }
    }
}

/// What follows the beginning of data.
#[tactic(auto, unfolding(crate::specs::Heads::opened_head))]
fn opened_head(
    opening: Opening,
    bytes: &[u8],
    at: usize,
    depth: u8,
) -> Result<(Head, usize), TreeFault>
    requires within { at < length bytes.now }
    requires next { IsWithin at (length bytes.now) opening }
    ensures gives { ReadsAs same result (opened_head depth (opening_of opening) bytes.now at) }
    ensures spare { TakesNone result }
    ensures ahead { IfOk result (λ r. at < r.1) }
    ensures elements { IfOk result (λ r. IsElements at r.1 r.0) }
    ensures within { IfOk result (λ r. r.1 ≤ length bytes.now) }
{
    match opening {
        Opening::PlainName => {
            let (_, next) = name(bytes, at)?;
            Ok((Head::Name, next))
        }
        Opening::Operator(op, next) => operator_head(op, at, bytes, next, depth),
        _ => Err(refuse(TreeCause::UnknownOpcode, at)),
    }
}

/// Data or an element, with so many levels at most, and its end.
#[tactic(auto, unfolding(crate::specs::Heads::head_at))]
fn read_head(
    asker: usize,
    spot: Spot,
    bytes: &[u8],
    at: usize,
    depth: u8,
) -> Result<(Head, usize), TreeFault>
    ensures gives { ReadsAs same result (head_at depth asker spot bytes.now at) }
    ensures spare { TakesNone result }
    ensures ahead { IfOk result (λ r. at < r.1) }
    ensures elements { IfOk result (λ r. IsElements at r.1 r.0) }
    ensures within { IfOk result (λ r. r.1 ≤ length bytes.now) }
{
    if depth == 0 {
        byte(bytes, at)?;
        return Err(refuse(TreeCause::TooDeep, at));
    }
    let opening = open_term(Code::Module, asker, spot, bytes, at)?;
    opened_head(opening, bytes, at, depth - 1)
}

/// How the data of a module's Name begins, and where it ends. None where reading it meets a fault
/// in what is looked at here.
pub fn data_head(bytes: &[u8], at: usize) -> Option<(Head, usize)>
    ensures is { ReadsHead greatest_depth at spot.Data bytes.now at result }
    ensures ahead { IfSome result (λ r. at < r.1) }
    ensures elements { IfSome result (λ r. IsElements at r.1 r.0) }
    ensures within { IfSome result (λ r. r.1 ≤ length bytes.now) }
{
    match read_head(at, Spot::Data, bytes, at, GREATEST_DEPTH) {
        Ok(read) => Some(read),
        Err(_) => None,
    }
}

/// The same of an element of the package at `own`, where no more than so many terms may stand one
/// in another.
pub fn element_head(own: usize, bytes: &[u8], at: usize, depth: u8) -> Option<(Head, usize)>
    ensures is { ReadsHead depth own spot.Element bytes.now at result }
    ensures ahead { IfSome result (λ r. at < r.1) }
    ensures elements { IfSome result (λ r. IsElements at r.1 r.0) }
    ensures within { IfSome result (λ r. r.1 ≤ length bytes.now) }
{
    match read_head(own, Spot::Element, bytes, at, depth) {
        Ok(read) => Some(read),
        Err(_) => None,
    }
}
