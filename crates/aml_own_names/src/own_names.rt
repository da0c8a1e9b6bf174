// The own names of a method's body (ACPI 6.5, 5.3 and 5.5.2).

ghost use Rattle.std.specs.Prelude.{◌≡◌, ◌++◌, ◌∷◌, [], List, length, map, IfOk, OnOk};
ghost use Rattle.aml_operators.specs.Tree.{view};
ghost use Rattle.aml_tree.specs.Body.{made_place};
ghost use Rattle.aml_own_names.specs.OwnNames.{HasFirsts, own_at, own_made, own_names, own_number};

use aml_lex::{NameSeg, name_there};
use aml_operators::Term;
use aml_paths::NoMemory;
use aml_tree::made_place;
use std::alloc::Global;
use std::collections::BTreeMap;

/// A name that a Name or a CreateField form at the top of a method's body makes, for one call.
#[derive(Clone, Copy, Debug, PartialEq, Eq)]
pub struct OwnName {
    /// The name is this one segment, without prefix.
    pub segment: NameSeg,
    /// The place behind its definition. From there it stands, to the body's end.
    pub from: usize,
}

/// The own names of a method's body, in order of definition. A segment that is defined twice stands
/// in it twice, and means the first.
#[derive(Drop)]
pub struct OwnNames {
    names: Vec<OwnName>,
    /// The number of the first name of a segment: an ordered map, so that whoever chooses the
    /// segments cannot make a look-up slow.
    firsts: BTreeMap<NameSeg, usize>,
    ghost numbered: { HasFirsts firsts names.items },
}

impl OwnNames {
    ghost use Rattle.aml_own_names.specs.OwnNamesSeen.{owns_seen};

    /// The own names that the statements of a body make; `bytes` are the table's, up to the body's
    /// end.
    pub fn of(alloc: Global, bytes: &[u8], body: &[Term]) -> Result<OwnNames, NoMemory>
        ensures { IfOk result (λ owns. owns_seen owns ≡ own_names bytes.now (map view body.now)) }
    {
        let names = own_names(alloc, bytes, body)?;
        let firsts = firsts_of(alloc, &names)?;
        Ok(OwnNames { names, firsts })
    }

    /// The names in order of definition: a name's number is its place here.
    pub fn names(&self) -> &[OwnName]
        ensures { result.now ≡ owns_seen self.now }
    {
        &self.names
    }

    /// The number of the own name that a segment means at a place.
    fn number(&self, at: usize, segment: NameSeg) -> Option<usize>
        ensures { result ≡ own_number (owns_seen self.now) at segment.bytes }
    {
        let number = *self.firsts.get(&segment)?;
        if self.names.get(number)?.from <= at {
            Some(number)
        } else {
            None
        }
    }

    /// The number of the own name that the name at a place of these bytes means.
    pub fn own_at(&self, bytes: &[u8], at: usize) -> Option<usize>
        ensures { result ≡ own_at bytes.now (owns_seen self.now) at }
    {
        // Few bodies make names, and of the others no name need be read here.
        if self.names.is_empty() {
            return None;
        }
        self.number(at, name_there(bytes, at)?.lone_segment()?)
    }
}

/// The own name that a statement at the top of a body makes.
#[tactic(auto, using(aml_operators::proofs::Views::view_out))]
fn own_made(bytes: &[u8], term: &Term) -> Option<OwnName>
    ensures { result ≡ own_made bytes.now (view term.now) }
{
    let segment = name_there(bytes, made_place(term)?)?.lone_segment()?;
    Some(OwnName {
        segment,
        from: term.end,
    })
}

/// The own names that the statements at the top of a body make, in order of definition.
fn own_names(alloc: Global, bytes: &[u8], body: &[Term]) -> Result<Vec<OwnName>, NoMemory>
    ensures { IfOk result (λ owns. owns.items ≡ own_names bytes.now (map view body.now)) }
{
    let mut owns = Vec::new(alloc);
    for term in body {
        if let Some(own) = own_made(bytes, term) {
            owns.push(own)?;
        }
    }
    Ok(owns)
}

/// Keeps the number of an own name behind others, where it is the first of its segment.
fn keep_first(
    firsts: &mut BTreeMap<NameSeg, usize>,
    number: usize,
    own: OwnName,
) -> Result<(), NoMemory>
    ensures { OnOk result ((owns : List OwnName) → number ≡ length owns →
        HasFirsts firsts.old owns → HasFirsts firsts.new (owns ++ own ∷ [])) }
{
    if firsts.contains_key(&own.segment) {
        return Ok(());
    }
    firsts.insert(own.segment, number)?;
    Ok(())
}

/// The number of the first own name of each segment.
fn firsts_of(alloc: Global, owns: &[OwnName]) -> Result<BTreeMap<NameSeg, usize>, NoMemory>
    ensures { IfOk result (λ firsts. HasFirsts firsts owns.now) }
{
    let mut firsts = BTreeMap::new(alloc);
    for (number, own) in owns.iter().enumerate() {
        keep_first(&mut firsts, number, *own)?;
    }
    Ok(firsts)
}
