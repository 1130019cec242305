//! Passes over the blocks that are resident, and renewals between them.
ghost use Rattle.std.specs.Prelude.{◌<◌, ◌≤◌};
ghost use Rattle.patch_model.specs.declared.limits.TheConstants.{MAX_CACHED};

use crate::passes;
use anyhow::{Result, bail};
use patch_cache::Cache;
use patch_model::{BlockBytes, BlockNo, MAX_CACHED};
use std::alloc::Global;

/// After so many patches the cache begins anew.
const RENEWED_AFTER: u64 = 1_048_576;

/// How many patches of a block a pass makes.
const OF_A_BLOCK: u64 = 8;

/// How many blocks there are, how many of these are resident at a time, and how many patches are made.
#[derive(Drop)]
pub struct Job {
    blocks: u32,
    resident: u32,
    patches: u64,
    ghost some: { 0 < blocks },
    ghost few: { blocks ≤ MAX_CACHED },
}

/// What was done.
#[derive(Drop)]
pub struct Done {
    pub patches: u64,
    pub writes: u64,
    pub renewals: u64,
}

impl Job {
    /// A job that can be done.
    pub fn of(blocks: u32, resident: u32, patches: u64) -> Option<Job> {
        if blocks == 0 || blocks as usize > MAX_CACHED || resident > blocks {
            return None;
        }
        Some(Job {
            blocks,
            resident,
            patches,
        })
    }

    /// How many passes make all patches.
    fn passes(&self) -> u64 {
        let each = u64::from(self.resident) * OF_A_BLOCK;
        if each == 0 {
            return 0;
        }
        self.patches / each + u64::from(self.patches % each > 0)
    }

    /// The n-th block that is resident after so many renewals.
    fn block(&self, n: u32, renewals: u64) -> BlockNo {
        let apart = u64::from(self.blocks / self.resident.max(1));
        let place = u64::from(n) * apart + renewals % apart.max(1);
        BlockNo((place % u64::from(self.blocks)) as u32)
    }
}

/// Does the job.
pub fn run(alloc: Global, job: &Job) -> Result<Done> {
    let mut cache = Cache::of(alloc, job.blocks as usize);
    let mut done = Done {
        patches: 0,
        writes: 0,
        renewals: 0,
    };
    admit_all(alloc, &mut cache, job, 0)?;
    for _ in 0..job.passes() {
        pass(&mut cache, job, &mut done)?;
        if u64::from(cache.made()) >= RENEWED_AFTER {
            begin_anew(alloc, &mut cache, job, &mut done)?;
        }
    }
    begin_anew(alloc, &mut cache, job, &mut done)?;
    Ok(done)
}

/// Eight patches of each block that is resident, and the write of each.
fn pass(cache: &mut Cache, job: &Job, done: &mut Done) -> Result<()> {
    patch_all(cache, job, done)?;
    for n in 0..job.resident {
        passes::write(cache, job.block(n, done.renewals))?;
        done.writes = done.writes.wrapping_add(1);
    }
    cache.clear_trace();
    Ok(())
}

/// Eight patches of each block that is resident, each behind the one before it.
fn patch_all(cache: &mut Cache, job: &Job, done: &mut Done) -> Result<()> {
    let mut last = None;
    for n in 0..job.resident {
        let made = passes::patch(cache, job.block(n, done.renewals), last)?;
        last = Some(made);
        done.patches = done.patches.wrapping_add(OF_A_BLOCK);
    }
    Ok(())
}

/// Begins anew, with other blocks.
fn begin_anew(alloc: Global, cache: &mut Cache, job: &Job, done: &mut Done) -> Result<()> {
    evict_all(cache, job, done.renewals)?;
    if cache.renew().is_err() {
        bail!("a patch is live");
    }
    done.renewals = done.renewals.wrapping_add(1);
    admit_all(alloc, cache, job, done.renewals)
}

/// Has the blocks come that are resident after so many renewals.
fn admit_all(alloc: Global, cache: &mut Cache, job: &Job, renewals: u64) -> Result<()> {
    for n in 0..job.resident {
        let block = job.block(n, renewals);
        if cache.admit(block, BlockBytes::zeros(alloc)?).is_err() {
            bail!("block {} isn't admitted", block.0);
        }
    }
    Ok(())
}

/// Lets them go.
fn evict_all(cache: &mut Cache, job: &Job, renewals: u64) -> Result<()> {
    for n in 0..job.resident {
        let block = job.block(n, renewals);
        if cache.evict(block).is_err() {
            bail!("block {} isn't let go", block.0);
        }
    }
    Ok(())
}
