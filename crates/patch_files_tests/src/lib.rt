//! Tests of `patch_files`: scripts on disks in memory and in files, and what fails on the way; and beside them those of `patch_replay` and
//! of `patch_program`.
#![tactic(auto)]

#[cfg(test)]
mod program;
#[cfg(test)]
mod replay;
#[cfg(test)]
mod tests;
