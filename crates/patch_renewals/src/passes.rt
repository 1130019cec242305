//! The patches of one block, and its write.
use anyhow::{Result, bail};
use patch_cache::Cache;
use patch_model::{BlockNo, PatchNo, Undo};

/// What each patch writes.
const BYTES: [u8; 64] = [b'p'; 64];

/// Where the patches of a block lie behind the first.
const STARTS: [usize; 7] = [64, 128, 192, 256, 320, 384, 448];

/// Makes eight patches of a block side by side, the first behind another patch, and gives the last.
pub fn patch(cache: &mut Cache, block: BlockNo, behind: Option<PatchNo>) -> Result<PatchNo> {
    let mut last = match behind {
        Some(no) => make(cache, block, 0, &[no])?,
        None => make(cache, block, 0, &[])?,
    };
    for start in &STARTS {
        last = make(cache, block, *start, &[last])?;
    }
    Ok(last)
}

fn make(cache: &mut Cache, block: BlockNo, start: usize, after: &[PatchNo]) -> Result<PatchNo> {
    match cache.create(block, start, &BYTES, after, Undo::Keep) {
        Ok(no) => Ok(no),
        Err(_) => bail!("a patch of block {} isn't made", block.0),
    }
}

/// Begins and ends a write of the block.
pub fn write(cache: &mut Cache, block: BlockNo) -> Result<()> {
    let Ok(flight) = cache.send(block) else {
        bail!("no write of block {} begins", block.0);
    };
    match cache.complete(flight.landed()) {
        Ok(_) => Ok(()),
        Err(stranger) => {
            stranger.abandon();
            bail!("a write of block {} is a stranger's", block.0);
        }
    }
}
