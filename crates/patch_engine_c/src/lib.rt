//! The patch cache for programs in C, and in whatever calls C. `include/fstch_cache.h` is the header.
//!
//! Each export takes the cache out of its [`Handle`](handle::Handle), makes one call of it, and puts it back: those of `opening` open it,
//! let it begin anew and close it, those of `paging` make blocks resident and let them go, those of `patching` make patches, and one of
//! two, those of `reading` read blocks, with all patches and without some, those of `counting` say what there is, those of `writing` begin
//! writes and end them, and those of `grouping` order patches by groups. None of them requires anything. What each answers and tells is
//! defined in the specs: behind every execution that the cache represents, the number that is answered says which of two or three things is
//! so, and what the caller's variables then hold.
//!
//! A handle is two words that C may see. What it stands for is a ghost field, and the memory is a box's: `sealed` turns the one into the
//! other. What the caches of all programs keep is in `laws`.
#![tactic(auto)]

mod counting;
mod grouping;
mod handle;
mod laws;
mod numbers;
mod opened;
mod opening;
mod paging;
mod patching;
mod reading;
mod sealed;
#[cfg(test)]
mod tests;
mod writing;
