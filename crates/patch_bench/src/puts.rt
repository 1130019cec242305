//! Scripts of puts, gets and deletes.
ghost use Rattle.std.specs.Prelude.{◌<◌};

use crate::random::Random;
use anyhow::Result;
use std::alloc::{AllocError, Global};

/// The bytes that a put repeats.
pub const PIECE: u32 = 8;

/// A put of so many pieces, which are numbers of eight bytes.
pub fn put(script: &mut String, key: u32, piece: u64, pieces: u32) -> Result<(), AllocError> {
    writeln!(
        script,
        "{{\"op\":\"put\",\"key\":\"key{key:05}\",\"hex\":\"{piece:016x}\",\"times\":{pieces}}}"
    )
}

/// A put of so many numbers of eight bytes, each spelled.
fn put_spelled(
    script: &mut String,
    random: &mut Random,
    key: u32,
    numbers: u32,
) -> Result<(), AllocError> {
    write!(
        script,
        "{{\"op\":\"put\",\"key\":\"key{key:05}\",\"hex\":\""
    )?;
    for _ in 0..numbers {
        write!(script, "{:016x}", random.draw())?;
    }
    writeln!(script, "\"}}")
}

pub fn get(script: &mut String, key: u32) -> Result<(), AllocError> {
    writeln!(script, "{{\"op\":\"get\",\"key\":\"key{key:05}\"}}")
}

fn delete(script: &mut String, key: u32) -> Result<(), AllocError> {
    writeln!(script, "{{\"op\":\"delete\",\"key\":\"key{key:05}\"}}")
}

pub fn sync(script: &mut String) -> Result<(), AllocError> {
    script.push_str("{\"op\":\"sync\",\"group\":0}\n")
}

/// Empties an extent. What is live in it is moved elsewhere first.
pub fn reclaim(script: &mut String, extent: u32) -> Result<(), AllocError> {
    writeln!(script, "{{\"op\":\"reclaim\",\"extent\":{extent}}}")
}

/// Gets of a hundred keys, each so far behind the one before.
pub fn get_hundred(script: &mut String, apart: u32) -> Result<(), AllocError> {
    for turn in 0..100u32 {
        get(script, turn.saturating_mul(apart))?;
    }
    Ok(())
}

/// A script with a group, of which its syncs are.
pub fn new_script(alloc: Global) -> Result<String, AllocError> {
    let mut script = String::new(alloc);
    script.push_str("{\"op\":\"group\"}\n")?;
    Ok(script)
}

/// The numbers below a count, shuffled.
fn shuffled(alloc: Global, random: &mut Random, count: u32) -> Result<Vec<u32>, AllocError> {
    let mut numbers = Vec::new(alloc);
    for number in 0..count {
        numbers.push(number)?;
    }
    let len = numbers.len();
    for place in 1..len {
        let other = random.draw() as usize % (place + 1);
        numbers.swap(place, other);
    }
    Ok(numbers)
}

/// Values of 96 bytes under a thousand keys, a sync, and a get of each.
pub fn small_values(alloc: Global, random: &mut Random) -> Result<String, AllocError> {
    let mut script = new_script(alloc)?;
    let keys = shuffled(alloc, random, 1_000)?;
    for key in keys.as_slice() {
        put_spelled(&mut script, random, *key, 12)?;
    }
    sync(&mut script)?;
    for key in 0..1_000u32 {
        get(&mut script, key)?;
    }
    Ok(script)
}

/// Values of 1,000 bytes under a hundred keys, so many times, and a get of each. After each hundred puts there is a sync, and the two
/// oldest of sixteen extents are emptied.
pub fn overwrites(alloc: Global, random: &mut Random, count: u32) -> Result<String, AllocError> {
    let mut script = new_script(alloc)?;
    for turn in 0..count {
        put(&mut script, random.below(100), random.draw(), 1_000 / PIECE)?;
        if turn % 100 == 99 {
            sync(&mut script)?;
            let oldest = turn / 100 % 8 * 2;
            reclaim(&mut script, oldest)?;
            reclaim(&mut script, oldest + 1)?;
        }
    }
    sync(&mut script)?;
    get_hundred(&mut script, 1)?;
    Ok(script)
}

/// Values of 32 KiB under 60 keys, a sync, and a get of each.
pub fn large_values(alloc: Global, random: &mut Random) -> Result<String, AllocError> {
    let mut script = new_script(alloc)?;
    for key in 0..60u32 {
        put(&mut script, key, random.draw(), 4_096)?;
    }
    sync(&mut script)?;
    for key in 0..60u32 {
        get(&mut script, key)?;
    }
    Ok(script)
}

/// Gets, puts of up to 4,096 bytes and deletes, five, four and one of ten, over 500 keys. After each fifty there is a sync, and the
/// oldest of 48 extents is emptied.
pub fn mixed(alloc: Global, random: &mut Random, count: u32) -> Result<String, AllocError> {
    let mut script = new_script(alloc)?;
    for turn in 0..count {
        let key = random.below(500);
        match random.below(10) {
            0..=4 => get(&mut script, key)?,
            5..=8 => put(&mut script, key, random.draw(), random.below(513))?,
            _ => delete(&mut script, key)?,
        }
        if turn % 50 == 49 {
            sync(&mut script)?;
            reclaim(&mut script, turn / 50 % 48)?;
        }
    }
    sync(&mut script)?;
    Ok(script)
}

/// So many values of 96 bytes under a thousand keys, and a sync after each.
fn put_and_sync(script: &mut String, random: &mut Random, count: u32) -> Result<(), AllocError> {
    for _ in 0..count {
        let key = random.below(1_000);
        put_spelled(script, random, key, 12)?;
        sync(script)?;
    }
    Ok(())
}

/// Values of 96 bytes under a thousand keys, a sync after each, and a get of each tenth key at the end.
pub fn synced(alloc: Global, random: &mut Random, count: u32) -> Result<String, AllocError> {
    let mut script = new_script(alloc)?;
    put_and_sync(&mut script, random, count)?;
    get_hundred(&mut script, 10)?;
    Ok(script)
}

/// The same, where the group that is synced is engaged all the while, so that it has all patches.
pub fn engaged(alloc: Global, random: &mut Random, count: u32) -> Result<String, AllocError> {
    let mut script = new_script(alloc)?;
    script.push_str("{\"op\":\"engage\",\"group\":0}\n")?;
    put_and_sync(&mut script, random, count)?;
    get_hundred(&mut script, 10)?;
    Ok(script)
}
