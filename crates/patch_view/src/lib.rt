//! One block with its live classes, of which any set that holds its dependents can be taken back and put back.
//!
//! `patch_stacks` says exactly what a call does to the block's bytes and records. Here is what that means: which history the records
//! represent before the call and after it, and with which classes taken back.
#![tactic(auto)]

mod changes;
pub mod laws;
mod states;
mod views;

pub use patch_records::swap_span;
pub use patch_stacks::{Joint, PutBackRefusal, TakeRefusal};
pub use states::BlockState;
pub use views::BlockView;
