use std::fmt::Debug;
use std::process::Abort;

mod damage;
mod lines;
mod long;
mod matches;
mod named;
mod placing;
mod prepared;
mod records;
mod rewriting;
mod slow;
mod values;
mod words;

/// Fails with this case unless what was found is what is wanted. A call of this is proved in less time than an
/// assertion.
fn same<R: Abort, T: PartialEq + Debug, C: Debug>(rt: &R, found: &T, wanted: &T, case: &C) {
    assert_eq!(rt; found, wanted, "{case:?}");
}
