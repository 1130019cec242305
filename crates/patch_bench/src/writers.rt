//! Scripts of several writers, each on a thread of its own.
use crate::digests::Digest;
use crate::disks::{new_disk, put_entries};
use crate::random::Random;
use anyhow::{Result, bail};
use patch_files::{Served, Status, serve_script};
use patch_frame::Geometry;
use patch_replay::{Sink, Source};
use std::alloc::{AllocError, Global};
use std::sync::Wait;
use std::thread::Threads;

/// How many writers there are.
const WRITERS: u32 = 4;

fn get(script: &mut String, writer: u32, key: u32) -> Result<(), AllocError> {
    writeln!(
        script,
        "{{\"writer\":{writer},\"op\":\"get\",\"key\":\"key{writer}{key:04}\"}}"
    )
}

/// Gets of a hundred keys, by turns those of each writer.
fn get_hundred(script: &mut String) -> Result<(), AllocError> {
    for turn in 0..100u32 {
        get(script, turn % WRITERS, (turn / WRITERS).saturating_mul(10))?;
    }
    Ok(())
}

/// Puts of 96 bytes and gets of each writer, over 250 keys of its own, and a get of each tenth of them at the end.
pub fn of_writers(alloc: Global, random: &mut Random, count: u32) -> Result<String, AllocError> {
    let mut script = String::new(alloc);
    for turn in 0..count {
        let writer = turn % WRITERS;
        let key = random.below(250);
        if random.below(4) == 0 {
            get(&mut script, writer, key)?;
        } else {
            writeln!(
                script,
                "{{\"writer\":{writer},\"op\":\"put\",\"key\":\"key{writer}{key:04}\",\"hex\":\"{:016x}\",\"times\":12}}",
                random.draw()
            )?;
        }
    }
    get_hundred(&mut script)?;
    Ok(script)
}

/// Serves the writers of a script on a new store, and puts their answers and the entries that the store holds then into the digest.
pub fn serve_on_new<T: Threads + Wait + Sync>(
    rt: &T,
    alloc: Global,
    geometry: Geometry,
    script: &String,
    digest: &mut Digest,
) -> Result<()> {
    let device = new_disk(alloc, geometry)?;
    let mut answers = Sink::new(Vec::new(alloc));
    let mut source = Source::new(script.as_bytes());
    let Served { status, device } = serve_script(
        rt,
        alloc,
        &mut source,
        &mut answers,
        device,
        WRITERS,
    );
    if status != Status::Done {
        bail!("writers weren't served: {status:?}");
    }
    digest.put(answers.into_inner().as_slice());
    let Some(mut device) = device else {
        bail!("the writers' disk was lost");
    };
    put_entries(alloc, &mut device, digest)
}
