//! The texts and codes of refusals, and what commands and replies hold.
use patch_history::*;
use patch_model::Refuses;
use std::alloc::AllocError;
use std::fmt::{Debug, Display};
use std::process::Abort;
use std::test::Fail;

mod asking;
mod names;

// Asserts of what is named.
fn expect_equal<T: Copy + Debug + PartialEq>(rt: &impl Abort, what: &str, got: T, want: T) {
    assert_eq!(rt; got, want, "{what}");
}
