// One walk over the bytes by the operator table.

ghost use Rattle.std.specs.Prelude.{◌≡◌, ◌≤◌, ◌<◌, ◌+◌, ◌-◌, length, map, [], IfOk};
ghost use Rattle.aml_operators.specs.Fields.{pieces_of};
ghost use Rattle.aml_operators.specs.Tree.{Node, none, view};
ghost use Rattle.aml_operators.specs.declared.term.Term.{out-Term};
ghost use Rattle.aml_tree.specs.Fault.{ReadsAs};
ghost use Rattle.aml_tree.specs.Openings.{opening_of, IsWithin};
ghost use Rattle.aml_tree.specs.Reading.{Adds, item_next, deepest_at, term_at, form_at, piece_at, pieces_at, item_at, items_until, parts_at, else_at, terms_until, terms_counted};

use crate::arity::Arity;
use crate::fault::{TreeCause, TreeFault};
use crate::leaf::{bits, byte, end, name, number, text};
use crate::limit::is_too_large;
use crate::opening::{Opening, is_none, open_term, refuse};
use aml_lex::{LexCause, has_byte};
use aml_operators::{
    Code, Letter, Op, Piece, Spot, Term, item_of_byte, item_pieces, literal_of, row_of,
};
use std::alloc::Global;

/// The opcode of a Buffer.
const BUFFER: u8 = 0x11;

/// The opcode of an Else.
const ELSE: u8 = 0xA1;

/// What stays the same while one term is read.
#[derive(Clone, Copy, Debug)]
pub(crate) struct Reader<'a, A> {
    pub(crate) alloc: Global,
    pub(crate) code: Code,
    pub(crate) arity: &'a A,
}

/// A part without parts.
#[tactic(auto, using(aml_operators::proofs::Views::view_roll))]
fn leaf(alloc: Global, op: Op, at: usize, end: usize) -> Term
    ensures tree { view result ≡ Node op at end none }
    ensures end { (out-Term result).end ≡ end }
{
    Term {
        op,
        at,
        end,
        parts: Vec::new(alloc),
    }
}

/// Where no term may stand any deeper, a target may still be none.
#[tactic(auto, unfolding(crate::specs::Reading::deepest_at))]
fn read_deepest(alloc: Global, spot: Spot, bytes: &[u8], at: usize) -> Result<Term, TreeFault>
    ensures gives { ReadsAs view result (deepest_at spot bytes.now at) }
    ensures ahead { IfOk result (λ t. at < (out-Term t).end) }
    ensures within { IfOk result (λ t. (out-Term t).end ≤ length bytes.now) }
{
    let first = byte(bytes, at)?;
    if is_none(spot, first) {
        Ok(leaf(alloc, Op::NullName, at, at + 1))
    } else {
        Err(refuse(TreeCause::TooDeep, at))
    }
}

/// The place of an item's first part: a field's segment begins at the item.
fn item_start(op: Op, at: usize) -> usize
    requires { at < usize.MAX }
    ensures value { result ≡ item_next op at }
    ensures low { at ≤ result }
    ensures high { result ≤ at + 1 }
    ensures ahead { at < result + length (pieces_of op) }
{
    match op {
        Op::NamedField => at,
        _ => at + 1,
    }
}

impl<'a, A: Arity> Reader<'a, A> {
    /// The term that an operator asks for in such a place.
    #[cycle(read)]
    #[tactic(auto, unfolding(crate::specs::Reading::term_at))]
    pub(crate) fn term(
        &self,
        asker: usize,
        spot: Spot,
        bytes: &[u8],
        at: usize,
        depth: u8,
    ) -> Result<Term, TreeFault>
        ensures gives { ReadsAs view result
            (term_at self.now.code (A.counts self.now.arity.now) depth asker spot bytes.now at) }
        ensures ahead { IfOk result (λ t. at < (out-Term t).end) }
        ensures within { IfOk result (λ t. (out-Term t).end ≤ length bytes.now) }
    {
        if depth == 0 {
            return read_deepest(self.alloc, spot, bytes, at);
        }
        let opening = open_term(self.code, asker, spot, bytes, at)?;
        self.form(opening, bytes, at, depth - 1)
    }

    /// What follows the beginning of a term.
    #[cycle(read)]
    #[tactic(auto, unfolding(crate::specs::Reading::form_at), using(aml_operators::proofs::Views::view_roll))]
    fn form(&self, opening: Opening, bytes: &[u8], at: usize, depth: u8) -> Result<Term, TreeFault>
        requires within { at < length bytes.now }
        requires next { IsWithin at (length bytes.now) opening }
        ensures gives { ReadsAs view result (form_at (A.counts self.now.arity.now)
            (term_at self.now.code (A.counts self.now.arity.now) depth)
            (opening_of opening) bytes.now at) }
        ensures ahead { IfOk result (λ t. at < (out-Term t).end) }
        ensures within { IfOk result (λ t. (out-Term t).end ≤ length bytes.now) }
    {
        match opening {
            Opening::NoTarget => Ok(leaf(self.alloc, Op::NullName, at, at + 1)),
            Opening::PlainName => {
                let (_, next) = name(bytes, at)?;
                Ok(leaf(self.alloc, Op::NameString, at, next))
            }
            Opening::InvokedName => {
                let (named, next) = name(bytes, at)?;
                let count = self.arity.arity(&named, at);
                let mut parts = Vec::with_capacity(self.alloc, count as usize + 1)?;
                parts.push(leaf(self.alloc, Op::NameString, at, next))?;
                let end = self.counted(&mut parts, at, bytes, next, count, depth)?;
                Ok(Term {
                    op: Op::Invocation,
                    at,
                    end,
                    parts,
                })
            }
            Opening::Operator(op, next) => {
                let letters = row_of(op).letters;
                if letters.is_empty() {
                    return Ok(leaf(self.alloc, op, at, next));
                }
                let mut parts = Vec::with_capacity(self.alloc, letters.len())?;
                let end = self.parts(&mut parts, letters, at, bytes, next, depth)?;
                parts.shrink_to_fit();
                Ok(Term { op, at, end, parts })
            }
        }
    }

    /// One part of the operator at `own`.
    #[cycle(read)]
    #[tactic(auto, unfolding(crate::specs::Reading::piece_at, crate::specs::Reading::connection_at))]
    fn piece(
        &self,
        piece: Piece,
        own: usize,
        bytes: &[u8],
        at: usize,
        depth: u8,
    ) -> Result<Term, TreeFault>
        requires { at ≤ length bytes.now }
        ensures gives { ReadsAs view result (piece_at (A.counts self.now.arity.now)
            (term_at self.now.code (A.counts self.now.arity.now) depth)
            piece own bytes.now at) }
        ensures ahead { IfOk result (λ t. at < (out-Term t).end) }
        ensures within { IfOk result (λ t. (out-Term t).end ≤ length bytes.now) }
    {
        match piece {
            Piece::Term(spot) => self.term(own, spot, bytes, at, depth),
            Piece::NameString => {
                let (_, next) = name(bytes, at)?;
                Ok(leaf(self.alloc, Op::NameString, at, next))
            }
            Piece::Number(size) => {
                let (n, next) = number(size, bytes, at)?;
                Ok(leaf(self.alloc, Op::Number(n), at, next))
            }
            Piece::Bits => {
                let (n, next) = bits(bytes, at)?;
                Ok(leaf(self.alloc, Op::Number(n as u64), at, next))
            }
            Piece::Text => {
                let (_, next) = text(bytes, at)?;
                Ok(leaf(self.alloc, Op::AsciiCharList, at, next))
            }
            Piece::Connection => {
                if has_byte(BUFFER, bytes, at) {
                    return self.term(own, Spot::Connection, bytes, at, depth);
                }
                let (_, next) = name(bytes, at)?;
                Ok(leaf(self.alloc, Op::NameString, at, next))
            }
        }
    }

    /// The parts that letters name, behind those that are there; the place behind them.
    #[cycle(read)]
    #[tactic(auto, unfolding(crate::specs::Reading::parts_at), using(aml_operators::proofs::Views::pushed))]
    fn parts(
        &self,
        parts: &mut Vec<Term>,
        letters: &[Letter],
        own: usize,
        bytes: &[u8],
        at: usize,
        depth: u8,
    ) -> Result<usize, TreeFault>
        requires within { at ≤ length bytes.now }
        requires short { length letters.now ≤ 8 }
        ensures gives { Adds result (map view parts.new.items)
            (parts_at (A.counts self.now.arity.now)
            (term_at self.now.code (A.counts self.now.arity.now) depth)
            letters.now own bytes.now (map view parts.old.items) at) }
        ensures ahead { IfOk result (λ next. at ≤ next) }
        ensures within { IfOk result (λ next. next ≤ length bytes.now) }
    {
        match letters {
            [] => Ok(at),
            [Letter::One(piece), rest @ ..] => {
                let term = self.piece(*piece, own, bytes, at, depth)?;
                let next = term.end;
                parts.push(term)?;
                self.parts(parts, rest, own, bytes, next, depth)
            }
            [Letter::Sized(limit), rest @ ..] => {
                let size = self.term(own, Spot::Size, bytes, at, depth)?;
                let next = size.end;
                if is_too_large(*limit, literal_of(&size), bytes.len() - next) {
                    return Err(refuse(TreeCause::TooLarge, own));
                }
                parts.push(size)?;
                self.parts(parts, rest, own, bytes, next, depth)
            }
            [Letter::Package, rest @ ..] => {
                let (stop, next) = end(bytes, at)?;
                self.parts(parts, rest, own, &bytes[..stop], next, depth)
            }
            [Letter::Branch, rest @ ..] => {
                let (stop, next) = end(bytes, at)?;
                let behind = self.parts(parts, rest, own, &bytes[..stop], next, depth)?;
                self.else_block(parts, own, bytes, behind, depth)
            }
            [Letter::Terms(spot), ..] => self.terms(parts, own, *spot, bytes, at, depth),
            [Letter::Fields, ..] => self.items(parts, own, bytes, at, depth),
            [Letter::Bytes, ..] => {
                let end = bytes.len();
                parts.push(leaf(self.alloc, Op::ByteList, at, end))?;
                Ok(end)
            }
        }
    }

    /// The other block of an If, where one stands behind it.
    #[cycle(read)]
    #[tactic(auto, unfolding(crate::specs::Reading::else_at), using(aml_operators::proofs::Views::view_roll, aml_operators::proofs::Views::pushed))]
    fn else_block(
        &self,
        parts: &mut Vec<Term>,
        own: usize,
        bytes: &[u8],
        at: usize,
        depth: u8,
    ) -> Result<usize, TreeFault>
        requires { at ≤ length bytes.now }
        ensures gives { Adds result (map view parts.new.items)
            (else_at (A.counts self.now.arity.now)
            (term_at self.now.code (A.counts self.now.arity.now) depth)
            own (map view parts.old.items) bytes.now at) }
        ensures ahead { IfOk result (λ next. at ≤ next) }
        ensures within { IfOk result (λ next. next ≤ length bytes.now) }
    {
        if !has_byte(ELSE, bytes, at) {
            return Ok(at);
        }
        let (stop, next) = end(bytes, at + 1)?;
        let mut inside = Vec::new(self.alloc);
        self.terms(
            &mut inside,
            own,
            Spot::Statement,
            &bytes[..stop],
            next,
            depth,
        )?;
        inside.shrink_to_fit();
        parts.push(Term {
            op: Op::Else,
            at,
            end: stop,
            parts: inside,
        })?;
        Ok(stop)
    }

    /// Terms in such places up to the end of the bytes.
    #[cycle(read)]
    pub(crate) fn terms(
        &self,
        parts: &mut Vec<Term>,
        own: usize,
        spot: Spot,
        bytes: &[u8],
        start: usize,
        depth: u8,
    ) -> Result<usize, TreeFault>
        requires { start ≤ length bytes.now }
        ensures gives { Adds result (map view parts.new.items)
            (terms_until (A.counts self.now.arity.now)
            (term_at self.now.code (A.counts self.now.arity.now) depth)
            own spot bytes.now (length bytes.now) (map view parts.old.items) start) }
        ensures ahead { IfOk result (λ next. start ≤ next) }
        ensures within { IfOk result (λ next. next ≤ length bytes.now) }
    {
        let mut at = start;
        while at < bytes.len() {
            let term = self.term(own, spot, bytes, at, depth)?;
            at = term.end;
            parts.push(term)?;
        }
        Ok(at)
    }

    /// So many arguments.
    #[cycle(read)]
    fn counted(
        &self,
        parts: &mut Vec<Term>,
        own: usize,
        bytes: &[u8],
        start: usize,
        count: u8,
        depth: u8,
    ) -> Result<usize, TreeFault>
        requires { start ≤ length bytes.now }
        ensures gives { Adds result (map view parts.new.items)
            (terms_counted (A.counts self.now.arity.now)
            (term_at self.now.code (A.counts self.now.arity.now) depth)
            own bytes.now count (map view parts.old.items) start) }
        ensures ahead { IfOk result (λ next. start ≤ next) }
        ensures within { IfOk result (λ next. next ≤ length bytes.now) }
    {
        let mut at = start;
        let mut left = count;
        while left > 0 {
            let term = self.term(own, Spot::Term, bytes, at, depth)?;
            at = term.end;
            parts.push(term)?;
            left -= 1;
        }
        Ok(at)
    }

    /// Items of a field list up to the end of the bytes.
    #[cycle(read)]
    fn items(
        &self,
        parts: &mut Vec<Term>,
        own: usize,
        bytes: &[u8],
        start: usize,
        depth: u8,
    ) -> Result<usize, TreeFault>
        requires { start ≤ length bytes.now }
        ensures gives { Adds result (map view parts.new.items)
            (items_until (A.counts self.now.arity.now)
            (term_at self.now.code (A.counts self.now.arity.now) depth)
            own bytes.now (length bytes.now) (map view parts.old.items) start) }
        ensures ahead { IfOk result (λ next. start ≤ next) }
        ensures within { IfOk result (λ next. next ≤ length bytes.now) }
    {
        let mut at = start;
        while at < bytes.len() {
            let item = self.item(own, bytes, at, depth)?;
            at = item.end;
            parts.push(item)?;
        }
        Ok(at)
    }

    /// An item of a field list.
    #[cycle(read)]
    #[tactic(auto, unfolding(crate::specs::Reading::item_at, crate::specs::Reading::item_of_kind), using(aml_operators::proofs::Views::view_roll))]
    fn item(&self, own: usize, bytes: &[u8], at: usize, depth: u8) -> Result<Term, TreeFault>
        ensures gives { ReadsAs view result (item_at (A.counts self.now.arity.now)
            (term_at self.now.code (A.counts self.now.arity.now) depth)
            own bytes.now at) }
        ensures ahead { IfOk result (λ t. at < (out-Term t).end) }
        ensures within { IfOk result (λ t. (out-Term t).end ≤ length bytes.now) }
    {
        let first = byte(bytes, at)?;
        match item_of_byte(first) {
            None => Err(refuse(TreeCause::Lexical(LexCause::BadName), at)),
            Some(op) => {
                let pieces = item_pieces(op);
                let mut parts = Vec::with_capacity(self.alloc, pieces.len())?;
                let end = self.pieces(&mut parts, pieces, own, bytes, item_start(op, at), depth)?;
                Ok(Term { op, at, end, parts })
            }
        }
    }

    /// The parts of an item, behind those that are there; the place behind them.
    #[cycle(read)]
    #[tactic(auto, unfolding(crate::specs::Reading::pieces_at), using(aml_operators::proofs::Views::pushed))]
    fn pieces(
        &self,
        parts: &mut Vec<Term>,
        pieces: &[Piece],
        own: usize,
        bytes: &[u8],
        at: usize,
        depth: u8,
    ) -> Result<usize, TreeFault>
        requires within { at ≤ length bytes.now }
        requires short { length pieces.now ≤ 4 }
        ensures gives { Adds result (map view parts.new.items)
            (pieces_at (A.counts self.now.arity.now)
            (term_at self.now.code (A.counts self.now.arity.now) depth)
            pieces.now own bytes.now (map view parts.old.items) at) }
        ensures ahead { IfOk result (λ next. at + length pieces.now ≤ next) }
        ensures within { IfOk result (λ next. next ≤ length bytes.now) }
    {
        match pieces {
            [] => Ok(at),
            [piece, rest @ ..] => {
                let term = self.piece(*piece, own, bytes, at, depth)?;
                let next = term.end;
                parts.push(term)?;
                self.pieces(parts, rest, own, bytes, next, depth)
            }
        }
    }
}
