//! The store for programs in C, and in whatever calls C. `include/fstch.h` is the header.
//!
//! Each export takes the store out of its [`Handle`](handle::Handle), makes one call of it, and puts it back: those of `files` make,
//! open and close one, those of `syncing` bring it to its file, those of `values` put and read, those of `deleting` delete and win room
//! back, those of `listing` and `walking` list, by number and in order of keys, those of `counting` count, and those of `groups` order what
//! is changed. Behind a sync `renewing` lets a store begin anew. What they answer are the numbers of an
//! [`Answer`](patch_handles::Answer), with words in `texts`. None of them requires anything: what a call of the store requires is tested, or
//! known of each store that is `opened`.
//!
//! A handle is two words that C may see. What it stands for is a ghost field, and the memory is a box's: `sealed` and
//! [`RawBox`](patch_handles::RawBox) turn the one into the other. `saving` brings a store to its device, which is a `tape`: no file is
//! opened, read or written here. The functions of C that do so call the exports that are named `fstch_core_..`, and `file_blocks` takes
//! the bytes that they have read. What the file holds is `held_blocks`, which proofs alone see.
#![tactic(auto)]

mod answers;
mod counting;
mod deleting;
mod file_blocks;
mod files;
mod groups;
mod handle;
mod held_blocks;
mod laws;
mod listing;
mod opened;
mod opening;
mod renewing;
mod saving;
mod sealed;
mod syncing;
mod tape;
#[cfg(test)]
mod tests;
mod texts;
mod unopened;
mod values;
mod walking;
