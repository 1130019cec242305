//! Tests of `patch_view`: walks beside the plain piling, refused allocations, memory given back, and names of refusals.
#![tactic(auto)]

#[cfg(test)]
mod tests;
