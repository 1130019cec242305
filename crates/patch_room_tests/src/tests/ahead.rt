//! Frames that move ahead of need: on disks of 16 extents of 16 blocks, each of which has room for 13 frames of these puts, and on one of 48
//! with room for five longer ones in each.
use super::*;
use patch_store::ExtentReport;

const OF_SIXTEEN: Geometry = Geometry {
    index: 3,
    extents: 16,
    format: Format::One,
};

// The bytes of a value, and of its frame.
const VALUE: usize = 5000;

const FRAME: u32 = 5017;

// Of 10 frames that the disk has room for 7 are live.
const KEYS: u8 = 144;

// What came of some puts: how many were done, how many frames moved with them and with one of them at most, and how often extents
// were emptied.
#[derive(Clone, Copy, Debug, PartialEq, Eq)]
struct Tally {
    done: u32,
    moved: u32,
    most: u32,
    emptied: u32,
}

const NONE: Tally = Tally {
    done: 0,
    moved: 0,
    most: 0,
    emptied: 0,
};

// How many frames were appended since the extents were so, and how many extents were emptied. What an emptied one has now is new.
fn since(store: &Store, before: &[ExtentReport]) -> (u32, u32) {
    let mut bytes = 0u32;
    let mut emptied = 0u32;
    for extent in 0..OF_SIXTEEN.extents {
        if let (Some(was), Some(now)) = (before.get(extent as usize), store.extent(extent)) {
            let mut start = was.pointer;
            if now.generation != was.generation {
                start = 0;
                emptied = emptied.saturating_add(1);
            }
            bytes = bytes.saturating_add(now.pointer.saturating_sub(start));
        }
    }
    (bytes / FRAME, emptied)
}

// One more put.
fn counted(store: &mut Store, key: u8, value: u8, tally: Tally) -> Result<Tally, OutOfMemory> {
    let before = store.check()?;
    if put(store, WRITER, &[key], &[value; VALUE]).is_err() {
        return Ok(tally);
    }
    let (appended, emptied) = since(store, before.extents.as_slice());
    let moved = appended.saturating_sub(1);
    Ok(Tally {
        done: tally.done.saturating_add(1),
        moved: tally.moved.saturating_add(moved),
        most: tally.most.max(moved),
        emptied: tally.emptied.saturating_add(emptied),
    })
}

// Each key is put once.
fn fill(store: &mut Store) -> Result<Tally, OutOfMemory> {
    let mut tally = NONE;
    for key in 0..KEYS {
        tally = counted(store, key, 0, tally)?;
    }
    Ok(tally)
}

// So many keys, each as likely as any other, are put anew. Their values are kept beside.
fn overwrite(
    store: &mut Store,
    count: u8,
    values: &mut [u8; KEYS as usize],
) -> Result<Tally, OutOfMemory> {
    let mut tally = NONE;
    let mut state = 1u32;
    for value in 0..count {
        state = state.wrapping_mul(1_103_515_245).wrapping_add(12_345);
        let key = ((state >> 16) % u32::from(KEYS)) as u8;
        tally = counted(store, key, value, tally)?;
        if let Some(kept) = values.get_mut(key as usize) {
            *kept = value;
        }
    }
    Ok(tally)
}

// Whether each key has its value.
fn all_kept(store: &Store, values: &[u8; KEYS as usize]) -> bool {
    for key in 0..KEYS {
        match values.get(key as usize) {
            Some(value) if has_value(store, &[key], &[*value; VALUE]) => {}
            _ => return false,
        }
    }
    true
}

// 50 overwrites of one key fill four extents. No frame moves, and none is emptied, while two others are empty.
fn expect_none(rt: &impl Abort, store: &mut Store) -> Result<(), OutOfMemory> {
    let mut tally = NONE;
    for value in 0..50 {
        tally = counted(store, 0, value, tally)?;
    }
    expect_eq(rt, &tally, &Tally { done: 50, ..NONE });
    Ok(())
}

#[test]
fn none_moves_while_two_extents_are_empty(rt: HostRuntime) -> Result<(), Fail> {
    let mut store = opened(&rt, rt.alloc(), OF_SIXTEEN, &[])?;
    expect_none(&rt, &mut store)?;
    drop(store);
    Ok(())
}

// 250 overwrites at 7 of 10. With each a few frames move, so that none has to win an extent back at need.
fn expect_ahead(rt: &impl Abort, store: &mut Store) -> Result<(), OutOfMemory> {
    let mut values = [0; KEYS as usize];
    let filled = fill(store)?;
    let want = Tally {
        done: u32::from(KEYS),
        ..NONE
    };
    expect_eq(rt, &filled, &want);
    let tally = overwrite(store, 250, &mut values)?;
    expect_eq(rt, &tally.done, &250);
    assert!(rt; tally.moved > 150 && tally.moved < 500);
    assert!(rt; tally.most <= 8 && tally.emptied > 15);
    assert!(rt; store.empty_extents() > 0);
    expect_eq(rt, &all_kept(store, &values), &true);
    Ok(())
}

#[test]
fn a_few_frames_move_with_each_put(rt: HostRuntime) -> Result<(), Fail> {
    let mut store = opened(&rt, rt.alloc(), OF_SIXTEEN, &[])?;
    expect_ahead(&rt, &mut store)?;
    drop(store);
    Ok(())
}

const OF_MANY: Geometry = Geometry {
    index: 3,
    extents: 48,
    format: Format::One,
};

// The bytes of a long value, and how many keys have one: of ten frames that the disk has room for eight are live.
const LONG: usize = 12_000;

const LONG_KEYS: u8 = 190;

// How many extents are empty behind a put of a long value: none where it was refused.
fn empty_behind(store: &mut Store, key: u8, value: u8) -> usize {
    match put(store, WRITER, &[key], &[value; LONG]) {
        Ok(()) => store.empty_extents(),
        Err(_) => 0,
    }
}

// Each key is put once.
fn fill_many(store: &mut Store) -> bool {
    for key in 0..LONG_KEYS {
        if empty_behind(store, key, 0) == 0 {
            return false;
        }
    }
    true
}

// So many keys, each as likely as any other, are put anew. How many extents are empty behind each put, at least.
fn fewest_empty(store: &mut Store, count: u8) -> usize {
    let mut fewest = usize::MAX;
    let mut state = 1u32;
    for value in 0..count {
        state = state.wrapping_mul(1_103_515_245).wrapping_add(12_345);
        let key = ((state >> 16) % u32::from(LONG_KEYS)) as u8;
        fewest = fewest.min(empty_behind(store, key, value));
    }
    fewest
}

#[test]
fn two_extents_stay_empty_on_a_large_disk(rt: HostRuntime) -> Result<(), Fail> {
    let mut store = opened(&rt, rt.alloc(), OF_MANY, &[])?;
    assert!(rt; fill_many(&mut store));
    assert!(rt; fewest_empty(&mut store, 250) >= 2);
    drop(store);
    Ok(())
}
