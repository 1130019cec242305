//! Tests of `patch_store`, and of the groups and extents that it stands on.
#![tactic(auto)]

#[cfg(test)]
mod expecting;
#[cfg(test)]
mod extent;
#[cfg(test)]
mod group;
#[cfg(test)]
mod store;
