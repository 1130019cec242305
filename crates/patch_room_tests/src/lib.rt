//! Tests of `patch_room`: disks that are overwritten and go on, one that is full, one whose extents are all full of what no slot
//! names, and how many frames move with each put.
#![tactic(auto)]

#[cfg(test)]
mod tests;
