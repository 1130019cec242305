//! Tests of `patch_engine`: the calls one by one, groups in order, want of memory, and the names of refusals.
#![tactic(auto)]

#[cfg(test)]
mod tests;
