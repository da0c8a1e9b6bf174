// The arguments of a method, as the text of `--args` lists them.

ghost use Rattle.std.specs.Prelude.{◌≡◌, ◌↔◌, ◌∷◌, ◌≤◌, ◌<◌, ◌^◌, IsTrue};
ghost use Rattle.std.specs.Prelude.{ℕ, All, List, IfOk, MatchBool, MatchOption, map, vec_items};
ghost use Rattle.std.specs.Str.Parse.{IsNumeral, digits_value};
ghost use Rattle.aml_values.specs.Values.{Int, none};
ghost use Rattle.aml_values.specs.Views.{view};
ghost use Rattle.acpi_words.specs.Arguments.{AreBytes, AreCharacters, IsAnyArgument, IsArgument, IsFirstBad, IsInteger, IsNoArgument, ListsNoValues, ListsValues, elements};
ghost use Rattle.acpi_sources.specs.Faults.{nowhere, Tries};
ghost use Rattle.acpi_sources.specs.declared.fault.FaultCause.TheVariants as cause;

use acpi_sources::{Fault, FaultCause};
use aml_values::{Bytes, MOST_BYTES, Package, Value};
use hex::FromHexError;
use std::alloc::{AllocError, Global};

/// The values that a text lists by commas: integers below 2^64, decimal or hex behind `0x`; `buf:`
/// and at most 65,536 bytes in hex; `str:` and ASCII characters but the zero; and `pkg`, the empty
/// package.
///
/// Fault: E521 where an element has any other form.
pub fn read_arguments(alloc: Global, text: &str) -> Result<Vec<Value>, Fault>
    ensures { Tries (λ vs. ListsValues text.now (map view (vec_items vs)))
        (λ f. (f ≡ nowhere cause.BadArgs) × ListsNoValues text.now) result }
{
    let mut arguments = Vec::new(alloc);
    let mut rest = text;
    while let Some((element, more)) = rest.split_once(',') {
        arguments.push(read_argument(alloc, element)?)?;
        rest = more;
    }
    arguments.push(read_argument(alloc, rest)?)?;
    Ok(arguments)
}

/// The first element that is no value, with its number, from 0; None where each is a value.
///
/// # Errors
///
/// `AllocError`, where memory is wanted for an element.
pub fn bad_argument(alloc: Global, text: &str) -> Result<Option<(usize, &str)>, AllocError>
    ensures { IfOk result (λ found. MatchOption found (All IsAnyArgument (elements text.now))
        (λ bad. IsFirstBad text.now bad.0 bad.1.now)) }
{
    let mut number = 0;
    let mut rest = text;
    while let Some((element, behind)) = rest.split_once(',') {
        if !is_argument(alloc, element)? {
            return Ok(Some((number, element)));
        }
        number += 1;
        rest = behind;
    }
    if is_argument(alloc, rest)? {
        return Ok(None);
    }
    Ok(Some((number, rest)))
}

// Whether an element is a value.
fn is_argument(alloc: Global, element: &str) -> Result<bool, AllocError>
    ensures { IfOk result
        (λ told. MatchBool told (IsAnyArgument element.now) (IsNoArgument element.now)) }
{
    match read_argument(alloc, element) {
        Ok(_) => Ok(true),
        Err(fault) => {
            match fault.cause {
                FaultCause::NoMemory => Err(AllocError),
                _ => Ok(false),
            }
        }
    }
}

// The value of one element.
fn read_argument(alloc: Global, element: &str) -> Result<Value, Fault>
    ensures { Tries (λ v. IsArgument element.now (view v))
        (λ f. (f ≡ nowhere cause.BadArgs) × IsNoArgument element.now) result }
{
    if element == "pkg" {
        return Ok(Value::Pkg(empty_package(alloc)));
    }
    let text = element.as_bytes();
    if let Some(digits) = text.strip_prefix(b"buf:") {
        return Ok(Value::Buf(Bytes::new(read_bytes(alloc, digits)?)));
    }
    if let Some(characters) = text.strip_prefix(b"str:") {
        return Ok(Value::Str(Bytes::new(read_characters(alloc, characters)?)));
    }
    match read_integer(element) {
        Some(number) => Ok(Value::Int(number)),
        None => Err(Fault::nowhere(FaultCause::BadArgs)),
    }
}

fn empty_package(alloc: Global) -> Package
    ensures { result ≡ none }
{
    Package::new(Vec::new(alloc)).ok().unwrap()
}

// The bytes of a buffer.
fn read_bytes(alloc: Global, digits: &[u8]) -> Result<Vec<u8>, Fault>
    ensures { Tries (λ bytes. AreBytes digits.now (vec_items bytes))
        (λ f. (f ≡ nowhere cause.BadArgs) × ((bytes : List ℕ) → AreBytes digits.now bytes → ⊥))
        result }
{
    match hex::decode(alloc, digits) {
        Ok(bytes) if bytes.len() <= MOST_BYTES => Ok(bytes),
        Err(FromHexError::OutOfMemory) => Err(Fault::nowhere(FaultCause::NoMemory)),
        _ => Err(Fault::nowhere(FaultCause::BadArgs)),
    }
}

// The characters of a string.
fn read_characters(alloc: Global, text: &[u8]) -> Result<Vec<u8>, Fault>
    ensures { Tries (λ characters. (vec_items characters ≡ text.now) × AreCharacters text.now)
        (λ f. (f ≡ nowhere cause.BadArgs) × (AreCharacters text.now → ⊥)) result }
{
    if !are_characters(text) {
        return Err(Fault::nowhere(FaultCause::BadArgs));
    }
    Ok(Vec::from_slice(alloc, text)?)
}

fn are_characters(text: &[u8]) -> bool
    ensures { IsTrue result ↔ AreCharacters text.now }
{
    text.iter().all(|b| *b > 0 && *b < 128)
}

// The integer of one element.
fn read_integer(element: &str) -> Option<u64>
    ensures { MatchOption result ((n : ℕ) → IsInteger element.now n → ⊥)
        (λ n. IsInteger element.now n) }
{
    match hex_digits(element) {
        Some(digits) => read_digits(digits, 16),
        None => read_digits(element, 10),
    }
}

fn hex_digits(element: &str) -> Option<&str>
    ensures { MatchOption result ((digits : List ℕ) → element.now ≡ 48 ∷ 120 ∷ digits → ⊥)
        (λ digits. element.now ≡ 48 ∷ 120 ∷ digits.now) }
{
    match element.strip_prefix('0') {
        Some(rest) => rest.strip_prefix('x'),
        None => None,
    }
}

// `from_str_radix` takes a sign too, which no element has.
pub(crate) fn read_digits(digits: &str, radix: u32) -> Option<u64>
    requires least { 2 ≤ radix }
    requires most { radix ≤ 36 }
    ensures { MatchOption result
        ((digits_value radix digits.now < 2 ^ 64) → IsNumeral radix digits.now → ⊥)
        (λ n. (n < 2 ^ 64) × IsNumeral radix digits.now × (n ≡ digits_value radix digits.now)) }
{
    if digits.starts_with('+') {
        return None;
    }
    u64::from_str_radix(digits, radix).ok()
}
