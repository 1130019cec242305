//! Rows by number, of which few may stand ([`Rows`]), and how a number is hashed ([`InARow`]).
#![tactic(auto)]

mod hashing;
mod hints;
mod rows;

pub use hashing::InARow;
pub use rows::Rows;
