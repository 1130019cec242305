//! The jobs.
use crate::digests::Digest;
use crate::disks::{run_on_new, small_extents};
use crate::patches::{all_over, behind_another, group_chain, overlapping, replay_on_new};
use crate::puts::{engaged, large_values, mixed, overwrites, small_values, synced};
use crate::random::Random;
use crate::waiting::{Behind, chain, reclaims};
use crate::writers::{of_writers, serve_on_new};
use anyhow::{Result, bail};
use std::alloc::Global;
use std::sync::Wait;
use std::thread::Threads;

/// What the command line asks for.
#[derive(Clone, Copy, Debug, PartialEq, Eq)]
pub struct Request<'a> {
    pub job: &'a str,
    /// How much of it, in the job's own measure.
    pub size: u32,
    pub seed: u32,
}

/// Does what is asked for. The digest of all answers.
pub fn run<T: Threads + Wait + Sync>(rt: &T, alloc: Global, request: Request<'_>) -> Result<u64> {
    let Request { job, size, seed } = request;
    let mut digest = Digest::new();
    let mut random = Random::new(seed, size);
    match job {
        "values" => values(alloc, &mut random, size, &mut digest)?,
        "mixed" => mix(alloc, &mut random, size, &mut digest)?,
        "synced" => sync_all(alloc, &mut random, size, &mut digest)?,
        "engaged" => engage_all(alloc, &mut random, size, &mut digest)?,
        "waiting" => wait_all(alloc, &mut random, size, &mut digest)?,
        "patches" => patch(alloc, &mut random, size, &mut digest)?,
        "writers" => write(rt, alloc, &mut random, size, &mut digest)?,
        "each" => each(rt, alloc, &mut random, size, &mut digest)?,
        _ => bail!("JOB is values, mixed, synced, engaged, waiting, patches, writers or each"),
    }
    Ok(digest.value())
}

/// Stores that are filled: small values, large ones, and such as are written again and again. SIZE is how many stores of each kind.
fn values(alloc: Global, random: &mut Random, size: u32, digest: &mut Digest) -> Result<()> {
    for _ in 0..size {
        fill(alloc, random, 5_000, digest)?;
    }
    Ok(())
}

/// One of each of these, the last with so many puts.
fn fill(alloc: Global, random: &mut Random, puts: u32, digest: &mut Digest) -> Result<()> {
    let script = small_values(alloc, random)?;
    run_on_new(alloc, small_extents(16, 3), &script, digest)?;
    let script = large_values(alloc, random)?;
    run_on_new(alloc, small_extents(1, 65), &script, digest)?;
    let script = overwrites(alloc, random, puts)?;
    run_on_new(alloc, small_extents(2, 16), &script, digest)
}

/// Stores that are read, written and emptied. SIZE is how many there are.
fn mix(alloc: Global, random: &mut Random, size: u32, digest: &mut Digest) -> Result<()> {
    for _ in 0..size {
        mix_each(alloc, random, 8_000, digest)?;
    }
    Ok(())
}

/// One of these, with so many calls.
fn mix_each(alloc: Global, random: &mut Random, calls: u32, digest: &mut Digest) -> Result<()> {
    let script = mixed(alloc, random, calls)?;
    run_on_new(alloc, small_extents(8, 48), &script, digest)
}

/// Large stores with a sync behind each put. SIZE is how many there are.
fn sync_all(alloc: Global, random: &mut Random, size: u32, digest: &mut Digest) -> Result<()> {
    for _ in 0..size {
        sync_each(alloc, random, 9_000, digest)?;
    }
    Ok(())
}

/// One of these, with so many puts.
fn sync_each(alloc: Global, random: &mut Random, puts: u32, digest: &mut Digest) -> Result<()> {
    let script = synced(alloc, random, puts)?;
    run_on_new(alloc, small_extents(16, 250), &script, digest)
}

/// Stores with a sync behind each put, of a group that has all patches. SIZE is how many there are.
fn engage_all(alloc: Global, random: &mut Random, size: u32, digest: &mut Digest) -> Result<()> {
    for _ in 0..size {
        engage_each(alloc, random, 4_000, digest)?;
    }
    Ok(())
}

/// One of these, with so many puts.
fn engage_each(alloc: Global, random: &mut Random, puts: u32, digest: &mut Digest) -> Result<()> {
    let script = engaged(alloc, random, puts)?;
    run_on_new(alloc, small_extents(16, 250), &script, digest)
}

/// Stores in which much waits. SIZE is how many there are of each kind.
fn wait_all(alloc: Global, random: &mut Random, size: u32, digest: &mut Digest) -> Result<()> {
    for _ in 0..size {
        wait(alloc, random, 16, digest)?;
    }
    Ok(())
}

/// One of each of these: a chain of so many groups that are synced at its end, one of twice as many that are synced one by one, and
/// values that a quarter as many reclaims move.
fn wait(alloc: Global, random: &mut Random, groups: u32, digest: &mut Digest) -> Result<()> {
    let script = chain(alloc, random, groups, 20, Behind::Nothing)?;
    run_on_new(alloc, small_extents(8, 16), &script, digest)?;
    let script = chain(alloc, random, groups.saturating_mul(2), 20, Behind::Sync)?;
    run_on_new(alloc, small_extents(8, 16), &script, digest)?;
    let script = reclaims(alloc, random, groups / 4)?;
    run_on_new(alloc, small_extents(16, 8), &script, digest)
}

/// Caches with patches that overlap, wait, stand all over, or belong to groups. SIZE is how many there are of each.
fn patch(alloc: Global, random: &mut Random, size: u32, digest: &mut Digest) -> Result<()> {
    for _ in 0..size {
        patch_each(alloc, random, 60, digest)?;
    }
    Ok(())
}

/// One cache of each of these, with so many thousands of patches.
fn patch_each(alloc: Global, random: &mut Random, many: u32, digest: &mut Digest) -> Result<()> {
    let count = many.saturating_mul(1_000);
    let script = overlapping(alloc, random, count)?;
    replay_on_new(alloc, &script, digest)?;
    let script = behind_another(alloc, random, count / 40, count / 2)?;
    replay_on_new(alloc, &script, digest)?;
    let script = all_over(alloc, random, count)?;
    replay_on_new(alloc, &script, digest)?;
    let script = group_chain(alloc, random, many, 60)?;
    replay_on_new(alloc, &script, digest)
}

/// Stores that four writers change at a time. SIZE is how many there are.
fn write<T: Threads + Wait + Sync>(
    rt: &T,
    alloc: Global,
    random: &mut Random,
    size: u32,
    digest: &mut Digest,
) -> Result<()> {
    for _ in 0..size {
        write_each(rt, alloc, random, 28_000, digest)?;
    }
    Ok(())
}

/// One of these, with so many calls.
fn write_each<T: Threads + Wait + Sync>(
    rt: &T,
    alloc: Global,
    random: &mut Random,
    calls: u32,
    digest: &mut Digest,
) -> Result<()> {
    let script = of_writers(alloc, random, calls)?;
    serve_on_new(rt, alloc, small_extents(16, 64), &script, digest)
}

/// A little of each job: stores with so many hundreds of calls, stores with so many groups, and caches with two thousand patches and
/// with two groups.
fn each<T: Threads + Wait + Sync>(
    rt: &T,
    alloc: Global,
    random: &mut Random,
    size: u32,
    digest: &mut Digest,
) -> Result<()> {
    let calls = size.saturating_mul(100);
    fill(alloc, random, calls, digest)?;
    mix_each(alloc, random, calls, digest)?;
    sync_each(alloc, random, calls, digest)?;
    engage_each(alloc, random, calls, digest)?;
    wait(alloc, random, size, digest)?;
    patch_each(alloc, random, 2, digest)?;
    write_each(rt, alloc, random, calls, digest)
}
