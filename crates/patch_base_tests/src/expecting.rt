//! An assertion as a call, and lines that aren't plain.
use std::alloc::{AllocError, Global};
use std::fmt::Debug;
use std::process::Abort;

/// Ends the test, telling both, unless what came is what is wanted. A call takes the prover less than `assert_eq!` where it stands.
pub(crate) fn expect_eq<T: PartialEq + Debug>(rt: &impl Abort, got: &T, want: &T) {
    assert_eq!(rt; *got, *want);
}

/// The line of an object with one member more, which isn't plain, so that it is read as a tree of values.
pub(crate) fn in_a_tree(alloc: Global, line: &str) -> Result<Option<String>, AllocError> {
    let Some(front) = line.strip_suffix("}") else {
        return Ok(None);
    };
    let comma = if front == "{" { "" } else { "," };
    Ok(Some(format!(in alloc; "{front}{comma}\"other\":{{}}}}")?))
}
