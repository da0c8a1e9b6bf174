// Where definitions stand.

/// Where definitions stand.
#[derive(Clone, Copy, Debug)]
pub struct Here<'a> {
    /// The number of the table, in the order of loading, from 0.
    pub table: usize,
    /// The table.
    pub bytes: &'a [u8],
    /// The number of the path of the scope.
    pub scope: usize,
}
