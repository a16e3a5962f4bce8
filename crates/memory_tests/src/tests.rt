//! Each test makes one call over a worked case, and prints the outcome. If no allocation fails, the call has the
//! right result. If one fails, it is either one of those that make the arguments, and the call isn't made, or one
//! of the call itself. The call then returns its error, with everything that its page promises, and succeeds when
//! it is made again; or it succeeds, if its page permits that. The module `single_calls` of `checks/run` makes each
//! allocation of each test fail in turn.
use std::test::Fail;

mod fonts;
mod lines;
mod records;
mod runs;

/// The outcome if the allocation that failed is one of those that make the arguments.
const NO_ARGUMENTS: &str = "no memory for the arguments";

/// Returns the outcome of a call that succeeded at first, or only when it was made again.
fn outcome(at_first: bool) -> &'static str {
    if at_first {
        "done"
    } else {
        "out of memory, then done"
    }
}

fn report<R: Print>(rt: &R, outcome: &str) -> Result<(), Fail> {
    Ok(println!(rt; "{outcome}")?)
}
