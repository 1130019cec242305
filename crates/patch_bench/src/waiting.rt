//! Scripts after which much waits for other blocks: groups in a chain, and values that reclaims move.
use crate::puts::{get, get_hundred, new_script, put, reclaim, sync};
use crate::random::Random;
use std::alloc::{AllocError, Global};

/// What else is done behind each group of a chain.
#[derive(Clone, Copy, Debug, PartialEq, Eq)]
pub enum Behind {
    Nothing,
    Sync,
}

fn order(script: &mut String, op: &str, group: u32) -> Result<(), AllocError> {
    writeln!(script, "{{\"op\":\"{op}\",\"group\":{group}}}")
}

/// Groups that depend each on the one before, and so many puts of 40 bytes in each, over 300 keys. At the end there is a sync, and
/// a get of each third key.
pub fn chain(
    alloc: Global,
    random: &mut Random,
    groups: u32,
    puts: u32,
    behind: Behind,
) -> Result<String, AllocError> {
    let mut script = new_script(alloc)?;
    for group in 0..groups {
        if group != 0 {
            script.push_str("{\"op\":\"group\"}\n")?;
            writeln!(
                script,
                "{{\"op\":\"depend\",\"group\":{group},\"on\":{}}}",
                group - 1
            )?;
        }
        order(&mut script, "engage", group)?;
        for _ in 0..puts {
            put(&mut script, random.below(300), random.draw(), 5)?;
        }
        order(&mut script, "disengage", group)?;
        if behind == Behind::Sync {
            sync(&mut script)?;
        }
    }
    sync(&mut script)?;
    get_hundred(&mut script, 3)?;
    Ok(script)
}

/// A thousand small values and a large one, which don't fit into one extent, and reclaims that move them from one extent to the next
/// and on, with no sync before the end; and a get of each.
pub fn reclaims(alloc: Global, random: &mut Random, times: u32) -> Result<String, AllocError> {
    let mut script = new_script(alloc)?;
    for key in 0..1_000u32 {
        put(&mut script, key, random.draw(), 2)?;
    }
    put(&mut script, 1_000, random.draw(), 4_000)?;
    for turn in 0..times {
        reclaim(&mut script, turn % 3)?;
    }
    sync(&mut script)?;
    for key in 0..1_000u32 {
        get(&mut script, key)?;
    }
    Ok(script)
}
