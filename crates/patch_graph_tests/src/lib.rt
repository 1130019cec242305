//! Tests of `patch_graph`: walks through its calls, what lies between classes beside a search through all, and each allocation refused
//! in turn.
#![tactic(auto)]

#[cfg(test)]
mod tests;
