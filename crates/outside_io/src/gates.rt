//! Where threads may be held, by a test.

/// A place where each thread says who it is before it goes on. It tells nothing and changes
/// nothing that a contract sees, so a test may hold threads there in any order.
pub trait Gate {
    /// Called by the thread `who`; it may be held here for a while.
    fn at(&self, who: u32);
}

/// The gate that holds nobody.
#[derive(Clone, Copy, Debug)]
pub struct OpenGate;

impl Gate for OpenGate {
    fn at(&self, _who: u32) {}
}
