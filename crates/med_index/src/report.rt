// What a rebuild answers.

/// How many changes a rebuild made.
#[derive(Clone, Copy, Debug, PartialEq, Eq)]
pub struct IndexReport {
    /// How many entries and latest objects were put.
    pub put: u64,
    /// How many were deleted.
    pub deleted: u64,
}
