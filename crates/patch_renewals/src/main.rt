//! Makes as many patches as are asked for of one cache that stays open, to measure that its memory stays what it was.
//!
//! `patch_renewals BLOCKS RESIDENT PATCHES`: a cache of BLOCKS blocks, of which RESIDENT are resident at a time, far apart. Each pass makes
//! eight patches of each of these, brings them to a disk that isn't there, and lets the steps of the trace go. After 1,048,576 patches
//! each the cache begins anew, and other blocks come in place of those that are resident.
#![tactic(auto)]

mod jobs;
mod passes;

use anyhow::{Context, Result, bail};
use jobs::Job;
use std::env::Env;

/// The words of the command line.
fn words(rt: &(impl Env + AllocGlobal)) -> Result<Vec<String>> {
    let words = std::env::args(rt)?.collect(rt.alloc())?;
    Ok(words)
}

/// What the words ask for.
fn job(words: &[String]) -> Result<Job> {
    let [_, blocks, resident, patches] = words else {
        bail!("patch_renewals BLOCKS RESIDENT PATCHES");
    };
    let blocks = blocks.parse::<u32>().context("BLOCKS")?;
    let resident = resident.parse::<u32>().context("RESIDENT")?;
    let patches = patches.parse::<u64>().context("PATCHES")?;
    match Job::of(blocks, resident, patches) {
        Some(job) => Ok(job),
        None => bail!("there are 1 to 16,777,216 blocks, and as many or fewer are resident"),
    }
}

fn run(rt: &(impl Env + AllocGlobal + Print)) -> Result<()> {
    let words = words(rt)?;
    let job = job(words.as_slice())?;
    let done = jobs::run(rt.alloc(), &job)?;
    println!(rt;
        "patches {}, writes {}, renewals {}",
        done.patches, done.writes, done.renewals
    )?;
    Ok(())
}

fn main(rt: HostRuntime) -> Result<()> {
    run(&rt)
}
