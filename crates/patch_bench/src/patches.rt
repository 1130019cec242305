//! Scripts of patches, merges, writes and views, for the cache itself.
use crate::digests::Digest;
use crate::random::Random;
use anyhow::{Result, bail};
use patch_replay::{Sink, Source, Status, replay};
use std::alloc::{AllocError, Global};

/// Bytes of a block.
const BLOCK: u32 = 4_096;

/// How many blocks there are.
const BLOCKS: u32 = 1_001;

/// Replays a script, and puts its answers into the digest.
pub fn replay_on_new(alloc: Global, script: &String, digest: &mut Digest) -> Result<()> {
    let mut answers = Sink::new(Vec::new(alloc));
    let status = replay(
        alloc,
        &mut Source::new(script.as_bytes()),
        &mut answers,
        BLOCKS,
    );
    if status != Status::Done {
        bail!("a replay wasn't done: {status:?}");
    }
    digest.put(answers.into_inner().as_slice());
    Ok(())
}

fn patch(script: &mut String, block: u32, start: u32, number: u64) -> Result<(), AllocError> {
    writeln!(
        script,
        "{{\"op\":\"patch\",\"block\":{block},\"start\":{start},\"hex\":\"{number:016x}\"}}"
    )
}

fn patch_behind(
    script: &mut String,
    block: u32,
    start: u32,
    number: u64,
    after: u32,
) -> Result<(), AllocError> {
    writeln!(
        script,
        "{{\"op\":\"patch\",\"block\":{block},\"start\":{start},\"hex\":\"{number:016x}\",\"after\":[{after}]}}"
    )
}

fn write(script: &mut String, block: u32) -> Result<(), AllocError> {
    writeln!(script, "{{\"op\":\"send\",\"block\":{block}}}")?;
    writeln!(script, "{{\"op\":\"complete\",\"block\":{block}}}")
}

/// Patches of eight bytes, each four bytes further than the one before, and a write of their block.
pub fn overlapping(alloc: Global, random: &mut Random, count: u32) -> Result<String, AllocError> {
    let mut script = String::new(alloc);
    let first = random.below(1_000);
    for turn in 0..count {
        let place = (u64::from(first) + u64::from(turn)) * 4 % u64::from(BLOCK - 8);
        patch(&mut script, 0, place as u32, random.draw())?;
    }
    write(&mut script, 0)?;
    Ok(script)
}

/// Patches of one block that wait for one of another block, and rounds of a patch of other bytes and its write.
pub fn behind_another(
    alloc: Global,
    random: &mut Random,
    waiting: u32,
    rounds: u32,
) -> Result<String, AllocError> {
    let mut script = String::new(alloc);
    patch(&mut script, 1, 0, random.draw())?;
    for _ in 0..waiting {
        let place = random.below(BLOCK / 16) * 8;
        patch_behind(&mut script, 0, place, random.draw(), 0)?;
    }
    for _ in 0..rounds {
        let place = BLOCK / 2 + random.below(BLOCK / 16) * 8;
        patch(&mut script, 0, place, random.draw())?;
        write(&mut script, 0)?;
    }
    write(&mut script, 1)?;
    write(&mut script, 0)?;
    Ok(script)
}

/// Patches all over the blocks, looks at some of them, and a write of each block.
pub fn all_over(alloc: Global, random: &mut Random, count: u32) -> Result<String, AllocError> {
    let mut script = String::new(alloc);
    for turn in 0..count {
        let block = random.below(BLOCKS);
        patch(&mut script, block, random.below(BLOCK - 8), random.draw())?;
        if turn % 4 == 3 {
            writeln!(
                script,
                "{{\"op\":\"view\",\"block\":{block},\"take\":[{turn}],\"start\":0,\"len\":16}}"
            )?;
        }
    }
    for block in 0..BLOCKS {
        write(&mut script, block)?;
    }
    Ok(script)
}

/// Groups that depend each on the one before, and so many patches in each, which a sync behind the group writes.
pub fn group_chain(
    alloc: Global,
    random: &mut Random,
    groups: u32,
    patches: u32,
) -> Result<String, AllocError> {
    let mut script = String::new(alloc);
    for group in 0..groups {
        script.push_str("{\"op\":\"group\"}\n")?;
        if group != 0 {
            writeln!(
                script,
                "{{\"op\":\"depend\",\"group\":{group},\"on\":{}}}",
                group - 1
            )?;
        }
        writeln!(script, "{{\"op\":\"engage\",\"group\":{group}}}")?;
        for _ in 0..patches {
            let block = random.below(64);
            patch(
                &mut script,
                block,
                random.below(BLOCK / 8) * 8,
                random.draw(),
            )?;
        }
        writeln!(script, "{{\"op\":\"disengage\",\"group\":{group}}}")?;
        writeln!(script, "{{\"op\":\"sync\",\"group\":{group}}}")?;
    }
    Ok(script)
}
