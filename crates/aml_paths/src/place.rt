// Places of segments below paths, and their order.

ghost use Rattle.std.specs.Prelude.{◌≡◌};
ghost use Rattle.aml_lex.specs.Order.{segment_order};

use aml_lex::NameSeg;
use std::cmp::Ordering;
use std::marker::Model;

/// A segment as one number, whose highest byte is the first character. So two are compared at once,
/// in the order of their characters: a look-up compares many.
#[derive(Drop)]
pub(crate) struct Characters {
    number: u32,
}

impl Model for Characters {
    ghost use Rattle.std.specs.Prelude.{◌<◌, ◌^◌};
    ghost use Rattle.std.specs.Int.{to_be_bytes, w32};
    ghost use Rattle.aml_lex.specs.declared.names.NameSeg.{NameSeg};

    ghost Value = { NameSeg };

    ghost view = { λ a. record { bytes = to_be_bytes w32 a.number } };

    ghost invariant = { λ a. a.number < 2 ^ 32 };
}

impl Characters {
    pub(crate) fn of(segment: NameSeg) -> Characters
        ensures { result ≡ segment }
    {
        Characters {
            number: u32::from_be_bytes(segment.bytes),
        }
    }
}

impl PartialEq for Characters {
    ghost use Rattle.std.specs.Prelude.{nat_eq};
    ghost use Rattle.std.specs.Cmp.{on_equiv, partial_equiv_from_equiv};
    ghost use Rattle.std.specs.Cmp.Lexicographic.{nat_list_eq_equiv, pointwise};

    ghost eq = { λ a b. pointwise nat_eq a.bytes b.bytes };

    ghost laws = { partial_equiv_from_equiv (on_equiv (λ a. a.bytes) nat_list_eq_equiv) };

    fn eq(&self, other: &Characters) -> bool {
        self.number == other.number
    }
}

impl Eq for Characters {
    ghost use Rattle.std.specs.Cmp.{on_equiv};
    ghost use Rattle.std.specs.Cmp.Lexicographic.{nat_list_eq_equiv};

    ghost laws = { on_equiv (λ a. a.bytes) nat_list_eq_equiv };
}

impl PartialOrd for Characters {
    ghost use Rattle.std.specs.Cmp.{on_po};
    ghost use Rattle.std.specs.Cmp.Lexicographic.{texts_po};
    ghost use Rattle.std.specs.Ordering.{as_partial_cmp};
    ghost use Rattle.aml_lex.specs.Order.{segment_order};

    ghost partial_cmp = { as_partial_cmp segment_order };

    ghost laws = { on_po (λ a. a.bytes) texts_po };

    fn partial_cmp(&self, other: &Characters) -> Option<Ordering> {
        Some(self.cmp(other))
    }
}

impl Ord for Characters {
    ghost use Rattle.std.specs.Prelude.{refl};
    ghost use Rattle.std.specs.Cmp.{on_total};
    ghost use Rattle.std.specs.Cmp.Lexicographic.{nat_list_cmp_total, texts_ties};
    ghost use Rattle.aml_lex.specs.Order.{segment_order};

    ghost cmp = { segment_order };

    ghost total = { on_total (λ a. a.bytes) nat_list_cmp_total };

    ghost matches_partial_cmp = { λ a b. refl };

    ghost matches_eq = { λ a b. texts_ties a.bytes b.bytes };

    fn cmp(&self, other: &Characters) -> Ordering {
        self.number.cmp(&other.number)
    }
}

/// A segment below a path. In the order of places, those of one segment below the paths of one
/// chain stand together by depth, so that one look-up searches a chain.
#[derive(PartialEq, Eq, PartialOrd, Ord, Drop)]
pub(crate) struct Place {
    /// The number of the first path on the chain.
    pub top: usize,
    pub segment: Characters,
    /// How many segments the path on the chain has.
    pub depth: usize,
}
