//! A store that begins anew: what keeps it from that, and what it goes through then.
use super::flushes::{expect_on_disk, write_first};
use super::*;
use crate::expecting::expect_equal;
use patch_device::MemDevice;
use patch_model::GroupNo;
use patch_store::{Live, flush};

// How many blocks a disk of three extents has.
const COUNT: u32 = 51;

// Two values of which an extent has room for one.
const ONE: [u8; 32_768] = [1; 32_768];

const OTHER: [u8; 32_768] = [2; 32_768];

// Puts, one of them over another, a delete, and a reclaim: the value that was put first moves to the last extent, which is the
// current one then.
const TURNS: &[Turn<'static>] = &[
    (Put(b"a", &ONE), Ok(())),
    (Put(b"b", &OTHER), Ok(())),
    (Put(b"c", &[3]), Ok(())),
    (Put(b"c", &[4, 4]), Ok(())),
    (Put(b"d", &[5]), Ok(())),
    (Delete(b"d"), Ok(())),
    (Reclaim(0), Ok(())),
    (Reclaim(2), Err(RefusalKind::OpenExtent)),
];

// A put of a group.
const GROUPED: &[Turn<'static>] = &[(Put(b"e", &[6]), Ok(()))];

// Each key has its value, and as at an opening the lowest extent with room is the current one. A reclaim, a put and a delete go on.
const LATER: &[Turn<'static>] = &[
    (Get(b"a", Some(&ONE)), Ok(())),
    (Get(b"b", Some(&OTHER)), Ok(())),
    (Get(b"c", Some(&[4, 4])), Ok(())),
    (Get(b"d", None), Ok(())),
    (Get(b"e", Some(&[6])), Ok(())),
    (Reclaim(1), Err(RefusalKind::OpenExtent)),
    (Reclaim(2), Ok(())),
    (Put(b"c", &[7]), Ok(())),
    (Delete(b"b"), Ok(())),
    (Reclaim(1), Ok(())),
];

// The map of all these commands.
const LAST: &[Turn<'static>] = &[
    (Get(b"a", Some(&ONE)), Ok(())),
    (Get(b"b", None), Ok(())),
    (Get(b"c", Some(&[7])), Ok(())),
    (Get(b"d", None), Ok(())),
    (Get(b"e", Some(&[6])), Ok(())),
];

// A device that holds a new disk.
fn new_device(alloc: Global) -> Result<MemDevice, Fail> {
    let mut device = MemDevice::new(alloc, COUNT)?;
    write_first(&mut device, &made(alloc, OF_THREE)?)?;
    Ok(device)
}

fn expect_flush(rt: &impl Abort, store: &mut Store, device: &mut MemDevice) {
    let done = flush(store, device).is_ok();
    expect_equal(rt, "flush", done, true);
}

fn expect_walk(rt: &impl Abort, store: &mut Store, turns: &[Turn<'_>]) {
    expect_eq(rt, &walk(store, turns), &None);
}

// A group keeps the store from beginning anew until it is closed, though its patches are on the disk.
fn close_behind_a_put(rt: &impl Abort, store: &mut Store, device: &mut MemDevice) {
    let group = store.create_group();
    expect_equal(rt, "group", group, Ok(GroupNo(0)));
    let engaged = store.engage(WRITER, GroupNo(0));
    expect_equal(rt, "engage", engaged, Ok(()));
    expect_equal(rt, "engaged", store.renew(), Err(Live));
    expect_walk(rt, store, GROUPED);
    let ended = store.disengage(WRITER, GroupNo(0));
    expect_equal(rt, "disengage", ended, Ok(()));
    expect_flush(rt, store, device);
    expect_equal(rt, "open", store.renew(), Err(Live));
    let closed = store.close_group(GroupNo(0));
    expect_equal(rt, "close", closed, Ok(()));
}

// Patches in memory keep it from that too. Then numbers begin at 0 again, of patches and of groups.
fn begin_anew(rt: &impl Abort, store: &mut Store, device: &mut MemDevice) {
    expect_equal(rt, "memory", store.renew(), Err(Live));
    expect_flush(rt, store, device);
    close_behind_a_put(rt, store, device);
    expect_equal(rt, "renew", store.renew(), Ok(()));
    let cache = store.cache();
    let counts = (cache.made(), cache.live(), cache.trace().len());
    expect_equal(rt, "anew", counts, (0, 0, 0));
    let group = store.create_group();
    expect_equal(rt, "first", group, Ok(GroupNo(0)));
}

fn expect_anew(rt: &impl Abort, alloc: Global, device: &mut MemDevice) -> Result<(), Fail> {
    let mut store = behind(rt, alloc, OF_THREE, &[], TURNS)?;
    begin_anew(rt, &mut store, device);
    expect_walk(rt, &mut store, LATER);
    expect_flush(rt, &mut store, device);
    drop(store);
    expect_on_disk(rt, alloc, device, LAST)
}

#[test]
fn a_store_begins_anew(rt: HostRuntime) -> Result<(), Fail> {
    let mut device = new_device(rt.alloc())?;
    let ended = expect_anew(&rt, rt.alloc(), &mut device);
    drop(device);
    ended
}
