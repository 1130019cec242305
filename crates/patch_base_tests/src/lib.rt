//! Tests of the crates beside the cache: words of the cache, orders, skylines, lists of numbers, rows by number, links, devices, frames,
//! scripts, histories, the index, commands, and what tests share.
#![tactic(auto)]

#[cfg(test)]
mod commands;
#[cfg(test)]
mod device;
#[cfg(test)]
mod expecting;
#[cfg(test)]
mod frame;
#[cfg(test)]
mod history;
#[cfg(test)]
mod index;
#[cfg(test)]
mod links;
#[cfg(test)]
mod model;
#[cfg(test)]
mod number_rows;
#[cfg(test)]
mod numbers;
#[cfg(test)]
mod order;
#[cfg(test)]
mod rows;
#[cfg(test)]
mod script;
#[cfg(test)]
mod skyline;
#[cfg(test)]
mod testing;
