//! What is right about a result.

/// A result that is right by its type. Whoever takes one from a lane has the fact.
pub trait Made: Drop {
    /// A result is right.
    ghost is_right: { Self → Type 0 };

    /// States that this result is right. It does nothing.
    fn show_right(&self)
        ensures { is_right self.now };
}
