//! Tests of `patch_cache`: worked scripts, the calls one by one, writes in waves, want of memory, and the texts of refusals.
#![tactic(auto)]

#[cfg(test)]
mod tests;
