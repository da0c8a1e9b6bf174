// The kinds of a method's arguments.

ghost use Rattle.std.specs.Prelude.{◌≡◌, ◌++◌, [], ℕ, IfOk, map};
ghost use Rattle.aml_kinds.specs.Kinds.{Shape};
ghost use Rattle.aml_known.specs.Views.{kind_of, kinds_of};
ghost use Rattle.aml_objects.specs.declared.object.Method.{Method};
ghost use Rattle.aml_namespace.specs.Shows.{shown};
ghost use Rattle.aml_signatures.specs.ArgumentKinds.{kind_of_argument};
ghost use Rattle.aml_signatures.specs.Signed.{kinds_told};
ghost use Rattle.aml_methods.specs.Judgings.{arguments_of};

use aml_known::Known;
use aml_namespace::{Namespace, Width};
use aml_path_text::push_path;
use aml_paths::{NoMemory, ObjectId};
use aml_signatures::{ArgumentKind, Signatures};
use std::alloc::{AllocError, Global};

/// What is known of an argument of a kind.
fn known(kind: ArgumentKind, width: Width) -> Known
    ensures { (shapes : ℕ → Shape) → kind_of shapes result ≡ kind_of_argument width kind }
{
    match kind {
        ArgumentKind::Int => Known::Int(width.greatest()),
        ArgumentKind::IntUpTo(greatest) => Known::Int(greatest),
        ArgumentKind::Buf(size) => Known::Buf(size),
        ArgumentKind::Str(size) => Known::Str(size),
        ArgumentKind::Pkg => Known::AnyPkg,
    }
}

/// The same of some arguments.
fn all_known(alloc: Global, kinds: &[ArgumentKind], width: Width) -> Result<Vec<Known>, AllocError>
    ensures { IfOk result (λ args. (shapes : ℕ → Shape) →
        kinds_of shapes args.items ≡ map (kind_of_argument width) kinds.now) }
{
    let mut args = Vec::new(alloc);
    for kind in kinds {
        args.push(known(*kind, width))?;
    }
    Ok(args)
}

/// What is known of the arguments of the method with a number, which has so many, by what
/// signatures tell of its printed path.
///
/// # Errors
///
/// `NoMemory`, where memory is wanted.
pub fn arguments(
    alloc: Global,
    namespace: &Namespace<'_>,
    signatures: &Signatures,
    id: ObjectId,
    count: u8,
) -> Result<Vec<Known>, NoMemory>
    ensures { IfOk result (λ args. (shapes : ℕ → Shape) (m : Method) → m.args ≡ count →
        kinds_of shapes args.items
        ≡ arguments_of (shown namespace.now) (kinds_told signatures.now) id.0 m) }
{
    if count == 0 {
        return Ok(Vec::new(alloc));
    }
    let mut path = Vec::new(alloc);
    push_path(alloc, &mut path, namespace, id)?;
    let width = namespace.width();
    let kinds = signatures.kinds(alloc, &path, count, width)?;
    match all_known(alloc, &kinds, width) {
        Ok(args) => Ok(args),
        Err(_) => Err(NoMemory),
    }
}
