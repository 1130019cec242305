//! Numbers of patches and of blocks: short lists ([`NumberList`]), lists that rise, runs, and sets of block numbers ([`BlockSet`]).
#![tactic(auto)]

mod block_sets;
mod number_lists;
mod rising;
mod runs;

pub use block_sets::BlockSet;
pub use number_lists::NumberList;
pub use rising::{
    both_lists, follow_on, greatest_of, have_common, is_interleaved, is_listed, least_of, place_in,
    sort,
};
pub use runs::{have_fewer, is_of_runs, run_around};
