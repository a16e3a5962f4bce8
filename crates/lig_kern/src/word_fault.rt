/// The reason why a run wasn't set.
#[derive(Clone, Copy, Debug, PartialEq, Eq)]
pub enum WordFault {
    /// No final list was reached within the steps that were left.
    TooManySteps,
    /// Allocation failed.
    OutOfMemory,
}
