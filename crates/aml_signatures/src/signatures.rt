// What a text tells of the arguments of methods, by their paths.

ghost use Rattle.std.specs.Prelude.{◌≡◌, ℕ, List, None, OnOk, IfOk, IfErr, map, vec_items, vec_len};
ghost use Rattle.aml_signatures.specs.ArgumentKinds.{argument_kinds, cut_to, filled, kinds_named};
ghost use Rattle.aml_signatures.specs.Signed.{kinds_told, paths_told};
ghost use Rattle.aml_signatures.specs.Text.{FailsToSign, LineFails, LineSigns, TextSigns};

use crate::argument_kind::ArgumentKind;
use crate::fault::SignatureFault;
use crate::words::signature_in;
use aml_namespace::Width;
use aml_paths::NoMemory;
use std::alloc::{AllocError, Global};
use std::collections::BTreeMap;
use std::collections::btree_map::Keys;

/// The kinds of the arguments of a `_DSM` (ACPI 6.5, 9.1.1): an identifier of 16 bytes, the
/// revision and the number of a function, and the function's own arguments.
const DSM_KINDS: [ArgumentKind; 4] = [
    ArgumentKind::Buf(16),
    ArgumentKind::Int,
    ArgumentKind::Int,
    ArgumentKind::Pkg,
];

/// The kinds that a text tells of arguments, by the printed paths of their methods.
#[derive(Drop)]
pub struct Signatures {
    pub(crate) kinds: BTreeMap<Vec<u8>, Vec<ArgumentKind>>,
}

impl Signatures {
    /// Nothing is told of any method.
    pub fn new(alloc: Global) -> Signatures
        ensures { (path : List ℕ) → kinds_told result path ≡ None }
    {
        Signatures {
            kinds: BTreeMap::new(alloc),
        }
    }

    /// What a text tells. A line has the path of a method, as it is printed, and the kinds of its
    /// arguments from the first on, with single spaces between: `int`, `int:MAX`, `buf:N`, `str:N`
    /// or `pkg`, numbers in decimal. Empty lines and lines from `#` on count for nothing.
    ///
    /// Faults: E501 at the first line that has another form, a number of 2^64 or more, or the path
    /// of a line before it; want of memory.
    pub fn read(alloc: Global, text: &[u8]) -> Result<Signatures, SignatureFault>
        ensures signs { IfOk result (λ signatures. TextSigns text.now (kinds_told signatures)) }
        ensures fault { IfErr result (FailsToSign text.now) }
    {
        let mut signatures = Signatures::new(alloc);
        let mut number = 0;
        for line in text.split(|b| *b == b'\n') {
            number += 1;
            signatures.read_line(alloc, line, number)?;
        }
        Ok(signatures)
    }

    /// The paths of which lines tell kinds, in the order of their bytes.
    #[must_use]
    pub fn paths(&self) -> Keys<'_, Vec<u8>, Vec<ArgumentKind>>
        ensures { map vec_items result ≡ paths_told self.now }
    {
        self.kinds.keys()
    }

    // Keeps what a line tells, if it counts.
    fn read_line(&mut self, alloc: Global, line: &[u8], number: usize) -> Result<(), SignatureFault>
        ensures told { OnOk result
            (LineSigns line.now (kinds_told self.old) (kinds_told self.new)) }
        ensures fault { IfErr result (LineFails line.now (kinds_told self.old) number) }
    {
        if line.is_empty() || line.starts_with(b"#") {
            return Ok(());
        }
        match signature_in(alloc, line)? {
            Some((path, kinds)) if !self.kinds.contains_key(path) => {
                self.kinds.insert(Vec::from_slice(alloc, path)?, kinds)?;
                Ok(())
            }
            _ => Err(SignatureFault::BadKinds { line: number }),
        }
    }

    /// The kinds of the arguments of the method with this printed path, which has `count` of them,
    /// where integers have this width. They are those that its line tells; further ones have no
    /// effect, and missing ones are of every integer. Without a line, a `_DSM` of four arguments
    /// has `buf:16 int int pkg`.
    pub fn kinds(
        &self,
        alloc: Global,
        path: &[u8],
        count: u8,
        width: Width,
    ) -> Result<Vec<ArgumentKind>, NoMemory>
        ensures kinds { IfOk result (λ kinds.
            vec_items kinds ≡ argument_kinds (kinds_told self.now) path.now count width) }
        ensures count { IfOk result (λ kinds. vec_len kinds ≡ count) }
    {
        Ok(completed(alloc, self.named(path, count), count, width)?)
    }

    // The kinds that are told of a method, or those of a `_DSM`.
    fn named(&self, path: &[u8], count: u8) -> &[ArgumentKind]
        ensures { result.now ≡ kinds_named (kinds_told self.now) path.now count }
    {
        match self.kinds.get(path) {
            Some(kinds) => kinds,
            None if count == 4 && path.ends_with(b"_DSM") => &DSM_KINDS,
            None => &[],
        }
    }
}

// So many kinds, cut to the width, of which the first are named.
fn completed(
    alloc: Global,
    named: &[ArgumentKind],
    count: u8,
    width: Width,
) -> Result<Vec<ArgumentKind>, AllocError>
    ensures kinds { IfOk result (λ kinds.
        vec_items kinds ≡ map (cut_to width) (filled count named.now)) }
    ensures count { IfOk result (λ kinds. vec_len kinds ≡ count) }
{
    let mut kinds = Vec::new(alloc);
    for i in 0..usize::from(count) {
        let kind = named.get(i).copied().unwrap_or(ArgumentKind::Int);
        kinds.push(kind.cut_to(width))?;
    }
    Ok(kinds)
}
