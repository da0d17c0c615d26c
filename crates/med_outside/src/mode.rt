// How a backup keeps files that an earlier backup keeps already.

/// Which files a backup copies.
#[derive(Clone, Copy, Debug, PartialEq, Eq)]
pub enum Mode {
    /// Every file is copied under the backup's own path.
    Full,
    /// Files that haven't changed are shared, under the node's shared path.
    Differential,
}
