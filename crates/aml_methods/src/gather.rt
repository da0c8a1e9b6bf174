// What bodies call, the shapes of their literals, and what is kept of them.

ghost use Rattle.std.specs.Prelude.{◌≡◌, ◌++◌, ◌∷◌, [], IfOk, OnOk, map};
ghost use Rattle.aml_bodies.specs.Kept.{AreAllKept, AreKept};
ghost use Rattle.aml_calls.specs.Calls.{called_by, calls_in_term, calls_of};
ghost use Rattle.aml_calls.specs.Pairs.{numbers};
ghost use Rattle.aml_namespace.specs.Shows.{shown};
ghost use Rattle.aml_objects.specs.LookUp.{methods_in};
ghost use Rattle.aml_operators.specs.Tree.{view, views};
ghost use Rattle.aml_meaning.specs.Actions as actions;
ghost use Rattle.aml_methods.specs.Gathered.{AreCalls, if_any, IsCalledFrom, IsFoundOf, links_of};
ghost use Rattle.aml_methods.specs.HandedOn.{AreTrees};

use crate::by_number::{nothing_yet, put};
use crate::named::Named;
use crate::trees::Trees;
use aml_bodies::{Kept, keep_body};
use aml_meaning::{Action, action_of};
use aml_namespace::{Link, Namespace};
use aml_operators::Term;
use aml_paths::{NoMemory, ObjectId};
use aml_shapes::ShapeTable;
use aml_tree::TreeFault;
use std::alloc::Global;

impl Named<'_, '_> {
    /// The method that an operator calls, if it calls one.
    fn callee(&self, action: Action, parts: &[Term]) -> Option<ObjectId>
        ensures { if_any result ≡ called_by (links_of self.now) action (views parts.now) }
    {
        match (action, parts) {
            (Action::Invoke, [name, ..]) => match self.link(name.at) {
                Link::Method(id) => Some(id),
                _ => None,
            },
            _ => None,
        }
    }
}

/// Adds the methods that terms call, in order of their names' places, and the shapes of literals of
/// data that stand in no other.
#[cycle(gather)]
fn gather_all(
    alloc: Global,
    names: Named<'_, '_>,
    inside: bool,
    terms: &[Term],
    shapes: &mut ShapeTable,
    callees: &mut Vec<ObjectId>,
) -> Result<(), NoMemory>
    ensures { OnOk result (numbers callees.new.items
        ≡ numbers callees.old.items ++ calls_of (links_of names.entry) (views terms.now)) }
{
    for term in terms {
        gather(alloc, names, inside, term, shapes, callees)?;
    }
    Ok(())
}

/// The same of one term.
#[cycle(gather)]
fn gather(
    alloc: Global,
    names: Named<'_, '_>,
    inside: bool,
    term: &Term,
    shapes: &mut ShapeTable,
    callees: &mut Vec<ObjectId>,
) -> Result<(), NoMemory>
    ensures { OnOk result (numbers callees.new.items
        ≡ numbers callees.old.items ++ calls_in_term (links_of names.entry) (view term.now)) }
{
    let parts = term.parts.as_slice();
    // What has no parts calls nothing, and is no literal of data.
    if parts.is_empty() {
        return Ok(());
    }
    let action = action_of(term.op);
    push(callees, names.callee(action, parts))?;
    let literal = matches!(action, Action::Data(_));
    if literal && !inside {
        shapes.intern(alloc, names.namespace.width(), term.op, parts)?;
    }
    gather_all(alloc, names, inside || literal, parts, shapes, callees)
}

/// Adds the method that is called behind some, if one is.
fn push(callees: &mut Vec<ObjectId>, callee: Option<ObjectId>) -> Result<(), NoMemory>
    ensures { OnOk result (numbers callees.new.items
        ≡ numbers callees.old.items ++ if_any callee) }
{
    let Some(id) = callee else {
        return Ok(());
    };
    callees.push(id)?;
    Ok(())
}

/// What is found of a method's body, which is read: the methods that it calls, and what is kept of
/// it. It calls none, and nothing is kept, where it cannot be read. The shapes of its literals of
/// data are added where the table does not have them, and its statements are handed on where there
/// is room.
fn read_once(
    alloc: Global,
    namespace: &Namespace<'_>,
    id: ObjectId,
    shapes: &mut ShapeTable,
    trees: &mut Trees,
) -> Result<(Vec<ObjectId>, Option<Kept>), NoMemory>
    ensures called { IfOk result (λ f.
        IsCalledFrom (shown namespace.now) id.0 (numbers f.0.items)) }
    ensures kept { IfOk result (λ f. IsFoundOf (shown namespace.now) id.0 f.1) }
    ensures trees { AreTrees (shown namespace.now) trees.old.bodies.items →
        AreTrees (shown namespace.now) trees.new.bodies.items }
{
    let mut callees = Vec::new(alloc);
    if namespace.method(id).is_none() {
        return Ok((callees, None));
    }
    let body = match namespace.tree(alloc, id) {
        Ok(body) => body,
        Err(TreeFault::Refused(_)) => return Ok((callees, None)),
        Err(TreeFault::NoMemory) => return Err(NoMemory),
    };
    let kept = keep_body(alloc, namespace, id, &body)?;
    let names = Named {
        namespace,
        method: id,
        bytes: namespace.body_bytes(id),
        owns: &kept.owns,
        links: &kept.links,
    };
    gather_all(alloc, names, false, &body, shapes, &mut callees)?;
    trees.keep(id, body);
    Ok((callees, Some(kept)))
}

/// What is gathered of the methods of a namespace.
#[derive(Drop)]
pub struct Gathering {
    /// Each method with those that it calls, in order of definition.
    pub calls: Vec<(ObjectId, Vec<ObjectId>)>,
    /// What is kept of the methods' bodies, by the numbers of their objects.
    pub kept: Vec<Option<Kept>>,
}

/// Each method with those that it calls, in order of definition, and what is kept of its body; it
/// calls none, and nothing is kept, where its body cannot be read. The shapes of their literals of
/// data are added where the table does not have them. Each body is read, its names are looked up,
/// and its statements are handed on where there is room for them.
///
/// # Errors
///
/// `NoMemory`, where memory is wanted.
pub fn gathered(
    alloc: Global,
    namespace: &Namespace<'_>,
    shapes: &mut ShapeTable,
    trees: &mut Trees,
) -> Result<Gathering, NoMemory>
    ensures calls { IfOk result (λ g. AreCalls (shown namespace.now) g.calls.items) }
    ensures order { IfOk result (λ g.
        map (λ p. p.0) g.calls.items ≡ methods_in (shown namespace.now).entries) }
    ensures kept { IfOk result (λ g. AreKept (shown namespace.now) g.kept.items) }
    ensures all_kept { IfOk result (λ g. AreAllKept (shown namespace.now) g.kept.items) }
    ensures trees { AreTrees (shown namespace.now) trees.old.bodies.items →
        AreTrees (shown namespace.now) trees.new.bodies.items }
{
    let methods = namespace.methods();
    let Ok(mut calls) = Vec::with_capacity(alloc, methods.len()) else {
        return Err(NoMemory);
    };
    let mut kept = nothing_yet(alloc, namespace.len())?;
    for id in methods {
        let (callees, one) = read_once(alloc, namespace, *id, shapes, trees)?;
        keep(&mut calls, *id, callees)?;
        put(&mut kept, *id, one);
    }
    Ok(Gathering { calls, kept })
}

/// Adds a method with those that it calls.
fn keep(
    pairs: &mut Vec<(ObjectId, Vec<ObjectId>)>,
    id: ObjectId,
    callees: Vec<ObjectId>,
) -> Result<(), NoMemory>
    ensures { OnOk result (pairs.new.items ≡ pairs.old.items ++ (id, callees) ∷ []) }
{
    pairs.push((id, callees))?;
    Ok(())
}
