//! One store for several writers: each has a thread, and two more bring its patches to the disk.
//!
//! A [`Book`] is a store with the history of its calls, in `books`: its entries are in `entries`, who makes a call in `actors`, and
//! copies of what is kept in `copying` and `blocks`. [`serve`] runs the threads over one book under a lock. It is in `serving`; how the threads
//! are started and joined in `crew`, what each of them does in `working` and `completing`, and what stands under the lock in `desks`. Flights go
//! from one thread to another in `parcels`, `bells` wake the one that begins writes, and `gates` hold threads in tests.
//! In the end the device is read back in `reading_back`, and what the threads say they did is compared with the book in `comparing`.
#![tactic(auto)]

mod actors;
mod bells;
mod blocks;
mod books;
mod comparing;
mod completing;
mod copying;
mod crew;
mod desks;
mod entries;
mod faults;
mod gates;
mod parcels;
mod reading_back;
mod serving;
mod working;

pub use actors::{Actor, Counts};
pub use books::Book;
pub use entries::{Entry, Rest};
pub use faults::{Cause, ServeFault};
pub use gates::{Gate, OpenGate};
pub use serving::{Finished, serve};
