//! How far a work is.

/// Learns how far a work over many entries is. It learns nothing of a book or of what is written.
pub trait Progress {
    /// So many entries of all are done.
    fn note(&mut self, done: u64, all: u64);
}
