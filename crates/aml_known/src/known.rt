// Kinds, with packages' shapes by their numbers.

ghost use Rattle.std.specs.Prelude.{◌≡◌, ℕ};
ghost use Rattle.aml_kinds.specs.Kinds.{Shape};
ghost use Rattle.aml_kinds.specs.Joins as spec;
ghost use Rattle.aml_judged.specs.Known as judged;
ghost use Rattle.aml_known.specs.Views.{AreApart, element_kind_of, kind_of};

/// The number of a package's shape. Two numbers never stand for one shape, so that shapes are
/// compared by them.
#[derive(Clone, Copy, Debug, PartialEq, Eq, PartialOrd, Ord)]
pub struct ShapeNumber(pub usize);

/// What is known of a value: its kind.
#[derive(Clone, Copy, Debug, PartialEq, Eq)]
pub enum Known {
    /// Integers up to this one.
    Int(u64),
    /// Buffers of just so many bytes.
    Buf(u64),
    /// Strings of just so many characters.
    Str(u64),
    /// Packages of this shape.
    Pkg(ShapeNumber),
    /// Packages of any shape.
    AnyPkg,
    /// Every value.
    Mixed,
}

/// What is known of an element of a package.
#[derive(Clone, Copy, Debug, PartialEq, Eq)]
pub enum ElementKnown {
    /// It holds a value of this kind.
    Value(Known),
    /// It is a name.
    Name,
    /// It may be anything, and may be unset.
    Unset,
}

/// A kind where two are the same, else another.
fn if_same(same: bool, kind: Known, other: Known) -> Known
    ensures { (shapes : ℕ → Shape) → kind_of shapes result
        ≡ spec.if_same same (kind_of shapes kind) (kind_of shapes other) }
{
    if same { kind } else { other }
}

impl Known {
    /// What is known of a value that is of the one kind or of the other.
    pub fn join(self, other: Known) -> Known
        ensures { (shapes : ℕ → Shape) → AreApart shapes →
            kind_of shapes result ≡ spec.join (kind_of shapes self) (kind_of shapes other) }
    {
        match (self, other) {
            (Known::Int(m), Known::Int(n)) => Known::Int(if m < n { n } else { m }),
            (Known::Buf(m), Known::Buf(n)) => if_same(m == n, Known::Buf(m), Known::Mixed),
            (Known::Str(m), Known::Str(n)) => if_same(m == n, Known::Str(m), Known::Mixed),
            (Known::Pkg(s), Known::Pkg(t)) => { if_same(s.0 == t.0, Known::Pkg(s), Known::AnyPkg) }
            (Known::Pkg(_) | Known::AnyPkg, Known::Pkg(_) | Known::AnyPkg) => Known::AnyPkg,
            _ => Known::Mixed,
        }
    }

    /// Whether it adds nothing to another kind.
    pub fn is_within(self, other: Known) -> bool
        ensures { (shapes : ℕ → Shape) → AreApart shapes →
            result ≡ judged.within (kind_of shapes self) (kind_of shapes other) }
    {
        match (self, other) {
            (_, Known::Mixed) => true,
            (Known::Int(m), Known::Int(n)) => m <= n,
            (Known::Buf(m), Known::Buf(n)) => m == n,
            (Known::Str(m), Known::Str(n)) => m == n,
            (Known::Pkg(s), Known::Pkg(t)) => s.0 == t.0,
            (Known::Pkg(_) | Known::AnyPkg, Known::AnyPkg) => true,
            _ => false,
        }
    }
}

impl ElementKnown {
    /// What is known of an element that is of the one kind or of the other: what may be unset stays
    /// so, else a name stays a name.
    pub fn join(self, other: ElementKnown) -> ElementKnown
        ensures { (shapes : ℕ → Shape) → AreApart shapes → element_kind_of shapes result
            ≡ spec.join_elements (element_kind_of shapes self) (element_kind_of shapes other) }
    {
        match (self, other) {
            (ElementKnown::Unset, _) | (_, ElementKnown::Unset) => ElementKnown::Unset,
            (ElementKnown::Value(j), ElementKnown::Value(k)) => ElementKnown::Value(j.join(k)),
            _ => ElementKnown::Name,
        }
    }
}
