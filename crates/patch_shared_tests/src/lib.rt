//! Tests of `patch_shared`: the calls of a book.
#![tactic(auto)]

#[cfg(test)]
mod tests;
