//! Reclaims in steps: what each step says and leaves in its extent, also where the store is opened again between two of them.
use super::*;
use patch_device::{Device, MemDevice, load};
use patch_store::{Reclaimed, flush};

// How many blocks a disk of three extents has.
const COUNT: u32 = 51;

const LONG: [u8; 32_768] = [0x61; 32_768];

const MIDDLE: [u8; 20_000] = [0x62; 20_000];

const SHORT: [u8; 12_717] = [0x63; 12_717];

// Three values, whose frames fill the first extent to its end, and one in the next.
const FURNISHED: &[Turn<'static>] = &[
    (Put(b"a", &LONG), Ok(())),
    (Put(b"b", &MIDDLE), Ok(())),
    (Put(b"c", &SHORT), Ok(())),
    (Put(b"d", b"next"), Ok(())),
];

// The map of these commands.
const MAP: &[Turn<'static>] = &[
    (Get(b"a", Some(&LONG)), Ok(())),
    (Get(b"b", Some(&MIDDLE)), Ok(())),
    (Get(b"c", Some(&SHORT)), Ok(())),
    (Get(b"d", Some(b"next")), Ok(())),
];

// What a step says that may move one frame, and how many bytes of the first extent are live behind it.
type Stage = (Result<Reclaimed, RefusalKind>, u32);

const FIRST: &[Stage] = &[(Ok(Reclaimed::Begun), 32_751)];

const OTHERS: &[Stage] = &[
    (Ok(Reclaimed::Begun), 12_734),
    (Ok(Reclaimed::Emptied), 0),
    (Err(RefusalKind::EmptyExtent), 0),
];

fn step(store: &mut Store) -> Result<Reclaimed, RefusalKind> {
    match store.reclaim_some(0, 1) {
        Ok(reclaimed) => Ok(reclaimed),
        Err(refusal) => Err(refusal.kind()),
    }
}

// The bytes that are live in the first extent.
fn live_bytes(store: &Store) -> Option<u32> {
    match store.extent(0) {
        Some(report) => Some(report.live),
        None => None,
    }
}

// Behind each step every key has its value.
fn expect_stages(rt: &impl Abort, store: &mut Store, stages: &[Stage]) {
    for (said, live) in stages {
        let got = step(store);
        expect_eq(rt, &got, said);
        expect_eq(rt, &live_bytes(store), &Some(*live));
        expect_eq(rt, &walk(store, MAP), &None);
    }
}

fn expect_stepped(rt: &impl Abort, alloc: Global) -> Result<(), Fail> {
    let mut store = behind(rt, alloc, OF_THREE, &[], FURNISHED)?;
    expect_stages(rt, &mut store, FIRST);
    expect_stages(rt, &mut store, OTHERS);
    drop(store);
    Ok(())
}

#[test]
fn an_extent_is_reclaimed_a_frame_at_a_time(rt: HostRuntime) -> Result<(), Fail> {
    expect_stepped(&rt, rt.alloc())
}

// Of a new disk only the first block isn't zeros.
fn begin(alloc: Global, device: &mut MemDevice) -> Result<(), Fail> {
    let blocks = made(alloc, OF_THREE)?;
    match blocks.first() {
        Some(first) if device.write(0, first.as_slice()).is_ok() => Ok(()),
        _ => Err(Fail::from("a device in memory refused a write")),
    }
}

// Brings the store behind the first step to the device.
fn flush_begun(rt: &impl Abort, alloc: Global, device: &mut MemDevice) -> Result<(), Fail> {
    let mut store = behind(rt, alloc, OF_THREE, &[], FURNISHED)?;
    expect_stages(rt, &mut store, FIRST);
    let flushed = flush(&mut store, device).is_ok();
    drop(store);
    expect_eq(rt, &flushed, &true);
    Ok(())
}

// The device's blocks open with each key, and the reclaim goes on with the other frames.
fn expect_gone_on(rt: &impl Abort, alloc: Global, device: &mut MemDevice) -> Result<(), Fail> {
    let Some(blocks) = load(alloc, device).ok() else {
        return Err(Fail::from("a device was not loaded"));
    };
    let mut store = opened(rt, alloc, blocks)?;
    let other = walk(&mut store, MAP);
    expect_stages(rt, &mut store, OTHERS);
    drop(store);
    expect_eq(rt, &other, &None);
    Ok(())
}

fn cut_between(rt: &impl Abort, alloc: Global, device: &mut MemDevice) -> Result<(), Fail> {
    begin(alloc, device)?;
    flush_begun(rt, alloc, device)?;
    expect_gone_on(rt, alloc, device)
}

#[test]
fn a_reclaim_goes_on_in_a_store_that_is_opened_again(rt: HostRuntime) -> Result<(), Fail> {
    let mut device = MemDevice::new(rt.alloc(), COUNT)?;
    let ended = cut_between(&rt, rt.alloc(), &mut device);
    drop(device);
    ended
}
