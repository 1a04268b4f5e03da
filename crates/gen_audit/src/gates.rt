//! The gate that is called at the beginning of pieces.

/// A gate that each worker calls before each of its pieces. It may wait.
pub trait JobGate {
    /// Tells the gate that the worker is about to begin this piece, counted from 0.
    fn begin(&self, piece: usize);
}
