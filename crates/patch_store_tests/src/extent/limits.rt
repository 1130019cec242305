//! As many live patches as there may be.
use super::*;

// An append that touches two blocks makes three patches, and each of so many short ones, which touch one, two: in all one less
// than may live.
const LONG: usize = 4100;

const SHORT: usize = 4;

const APPENDS: u32 = 32_766;

// Where the bytes end.
const END: u32 = 135_164;

// How many patches live, how many were made, and how many steps there were; whether the last byte can be read, and one more.
type Shown = (u32, u32, usize, bool, bool);

fn can_read(bench: &Bench, offset: u32) -> bool {
    let byte = Place {
        extent: 0,
        generation: 0,
        offset,
        len: 1,
    };
    bench.extents.read(&bench.cache, byte).is_ok()
}

fn shown(bench: &Bench) -> Shown {
    let last = can_read(bench, END - 1);
    let past = can_read(bench, END);
    let cache = &bench.cache;
    (cache.live(), cache.made(), cache.trace().len(), last, past)
}

fn append_to_first(bench: &mut Bench, bytes: &[u8]) -> Said {
    kind_of(append(bench, None, 0, bytes, &[]))
}

fn append_all(bench: &mut Bench) -> Said {
    append_to_first(bench, &[7; LONG])?;
    for _ in 0..APPENDS {
        append_to_first(bench, &[7; SHORT])?;
    }
    Ok(())
}

fn create_one(cache: &mut Cache) -> Said {
    kind_of(cache.create(BlockNo(0), 0, &[7], &[], Undo::Keep))
}

const TOO_MANY: Said = Err(RefusalKind::TooManyLive);

// An append needs two, and there is room for one: it changes nothing.
fn expect_no_append(rt: &impl Abort, bench: &mut Bench) {
    let before = shown(bench);
    expect_equal(rt, "last", before.0, MAX_LIVE - 1);
    expect_equal(rt, "pointer", (before.3, before.4), (true, false));
    expect_equal(rt, "append", append_to_first(bench, &[7]), TOO_MANY);
    expect_equal(rt, "shown", shown(bench), before);
}

// A patch alone still fits, and no more.
fn expect_room_for_one(rt: &impl Abort, cache: &mut Cache) {
    expect_equal(rt, "patch", create_one(cache), Ok(()));
    expect_equal(rt, "full", cache.live(), MAX_LIVE);
    expect_equal(rt, "one more", create_one(cache), TOO_MANY);
}

fn expect_filled(rt: &impl Abort, alloc: Global) -> Result<(), Fail> {
    let mut bench = open_bench(rt, alloc, Format::Two { length: 64 }, &[])?;
    expect_equal(rt, "all", append_all(&mut bench), Ok(()));
    expect_no_append(rt, &mut bench);
    expect_room_for_one(rt, &mut bench.cache);
    drop(bench);
    Ok(())
}

#[test]
fn an_append_is_refused_where_too_many_patches_live(rt: HostRuntime) -> Result<(), Fail> {
    expect_filled(&rt, rt.alloc())
}
