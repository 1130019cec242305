//! The order of the records in one block. Of each live class of the block's patches there is a record, and it stands above those that
//! the class follows: that its span meets, or that its members name.
//!
//! A record keeps the bytes that the block would have in its span if the class were in the other state: those beneath it
//! while it is applied, and its own while it is taken. So to take it, and to put it back, is to exchange one span
//! (Featherstitch's undo data). Here class B lies over class A:
//!
//!     block BB    A keeps ..    B keeps AA    both are applied
//!     block AA    A keeps ..    B keeps BB    B is taken
//!     block ..    A keeps AA    B keeps BB    A is taken too, which can't be before B is
//!
//! Nothing here names a history: what a call does to the records is told exactly, and `patch_view` says what that means.
#![tactic(auto)]

mod changes;
mod joins;
mod members;
mod names;
mod places;
mod refusals;
mod stacks;
mod turning;

pub use joins::Joint;
pub use refusals::{PutBackRefusal, TakeRefusal};
pub use stacks::Stack;
