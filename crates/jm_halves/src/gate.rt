/// What each piece of the work passes before it begins, so that an observer can see which pieces
/// there are and which of them are under way at one time. No answer depends on it.
pub trait Gate {
    /// Called once with the number of the piece, on the thread that works the piece, before its
    /// work. It returns.
    fn enter(&self, piece: usize);
}

/// The gate that does nothing.
#[derive(Clone, Copy, Debug, PartialEq, Eq)]
pub struct NoGate;

impl Gate for NoGate {
    fn enter(&self, _piece: usize) {}
}
