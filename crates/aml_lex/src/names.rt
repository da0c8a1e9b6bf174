// Name strings as they were read (ACPI 6.5, 20.2.2).

ghost use Rattle.std.specs.Prelude.{◌≡◌, ◌<◌, length, slice_get, Some, None, Option};
ghost use Rattle.aml_lex.specs.Names.{name_of, seg_bytes, lone_segment};

use std::fmt;

/// A name segment: four characters, the first of them no digit.
#[derive(Clone, Copy, Debug, PartialEq, Eq, PartialOrd, Ord, Hash)]
pub struct NameSeg {
    pub bytes: [u8; 4],
}

impl fmt::Display for NameSeg {
    fn fmt<W: fmt::Write>(&self, f: &mut fmt::Formatter<W>) -> fmt::Result {
        for byte in &self.bytes {
            write!(f, "{}", *byte as char)?;
        }
        Ok(())
    }
}

/// A name string, lent from the bytes in which it stands: a prefix and name segments.
#[derive(Clone, Copy, Debug)]
pub struct NameRef<'a> {
    pub(crate) is_rooted: bool,
    pub(crate) carets: usize,
    /// Four bytes a segment.
    pub(crate) segments: &'a [u8],
}

impl NameRef<'_> {
    /// Whether the name begins at the root, by `\`.
    pub fn rooted(&self) -> bool
        ensures { result ≡ (name_of self.now).rooted }
    {
        self.is_rooted
    }

    /// The number of `^` before the segments.
    pub fn parents(&self) -> usize
        ensures { result ≡ (name_of self.now).parents }
    {
        self.carets
    }

    /// The number of segments, 0 for the null name.
    #[tactic(auto, using(crate::proofs::SegmentLemmas::segments_length))]
    pub fn segs(&self) -> usize
        ensures { result ≡ length (name_of self.now).segs }
    {
        self.segments.len() / 4
    }

    /// The segment with this number, counted from 0.
    #[tactic(auto, using(crate::proofs::SegmentLemmas::segments_length, crate::proofs::SegmentLemmas::segments_at))]
    pub fn seg(&self, i: usize) -> NameSeg
        requires { i < length (name_of self.now).segs }
        ensures { slice_get (name_of self.now).segs i ≡ Some result.bytes }
    {
        let from = 4 * i;
        let s = self.segments;
        NameSeg {
            bytes: [s[from], s[from + 1], s[from + 2], s[from + 3]],
        }
    }

    /// The segment of a name that is one segment without prefix: the only names that are searched
    /// for upward.
    pub fn lone_segment(&self) -> Option<NameSeg>
        ensures { seg_bytes result ≡ lone_segment (name_of self.now) }
    {
        if self.rooted() || self.parents() != 0 || self.segs() != 1 {
            return None;
        }
        Some(self.seg(0))
    }
}
