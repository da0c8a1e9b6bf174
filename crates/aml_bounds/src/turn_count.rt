// How often a loop turns, as far as its steps go.

/// How often a loop turns, as far as its steps go.
#[derive(Clone, Copy, Debug, PartialEq, Eq)]
pub enum TurnCount {
    /// It ends in its first turn, without asking its test again.
    Once,
    /// So many turns at most, and a test before each and behind the last.
    AtMost(u64),
}
