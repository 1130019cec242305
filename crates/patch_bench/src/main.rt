//! Runs jobs that users of the store and of the cache wait for, on inputs that a seed gives, and prints a digest of all answers.
//!
//! `patch_bench JOB SIZE SEED`: the jobs stand in [`jobs`], SIZE says how much of the job is done, and each SEED gives another input
//! of the same kind and size.
#![tactic(auto)]

mod digests;
mod disks;
mod jobs;
mod patches;
mod puts;
mod random;
mod waiting;
mod writers;

use anyhow::{Context, Result, bail};
use jobs::Request;
use std::env::Env;
use std::sync::Wait;
use std::thread::Threads;

/// The words of the command line.
fn words(rt: &(impl Env + AllocGlobal)) -> Result<Vec<String>> {
    let words = std::env::args(rt)?.collect(rt.alloc())?;
    Ok(words)
}

/// What the words ask for.
fn request(words: &[String]) -> Result<Request<'_>> {
    let [_, job, size, seed] = words else {
        bail!("patch_bench JOB SIZE SEED");
    };
    Ok(Request {
        job: job.as_str(),
        size: size.parse::<u32>().context("SIZE")?,
        seed: seed.parse::<u32>().context("SEED")?,
    })
}

fn run(rt: &(impl Env + AllocGlobal + Print + Threads + Wait + Sync)) -> Result<()> {
    let words = words(rt)?;
    let request = request(words.as_slice())?;
    let digest = jobs::run(rt, rt.alloc(), request)?;
    println!(rt; "{} {digest:016x}", request.job)?;
    Ok(())
}

fn main(rt: HostRuntime) -> Result<()> {
    run(&rt)
}
