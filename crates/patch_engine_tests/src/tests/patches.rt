//! Patches, and what is read without some of them.
use super::*;

#[test]
fn patches_are_made_and_merged(rt: HostRuntime) {
    let mut engine = open_with(&rt, rt.alloc(), [0, 1]);
    let first = make(&rt, &mut engine, 0, 0, b"abcd", &[]);
    let second = make(&rt, &mut engine, 0, 4, b"ef", &[]);
    expect_equal(&rt, "merge", engine.merge(first, second), Ok(first));
    let same = engine.merge(second, first);
    expect_equal(&rt, "same", same, Err(MergeRefusal::Same));
    let unknown = engine.merge(first, PatchNo(2));
    expect_equal(&rt, "unknown", unknown, Err(MergeRefusal::Unknown));
    expect_read(&rt, &engine, 0, 0, b"abcdef\0");
    expect_equal(&rt, "counts", (engine.made(), engine.live()), (2, 2));
    expect_equal(&rt, "mark", engine.mark_of(first), Some(Mark::Memory));
    expect_equal(&rt, "unmade", engine.mark_of(PatchNo(2)), None);
}

#[test]
fn a_patch_is_refused_for_its_first_cause(rt: HostRuntime) {
    let mut engine = open_with(&rt, rt.alloc(), [0, 1]);
    let absent = BlockNo(2);
    let made = engine.patch(None, absent, 0, &[], &[PatchNo(9)], Undo::Keep);
    expect_equal(&rt, "absent", made, Err(CreateRefusal::NotResident(absent)));
    let made = engine.patch(None, BlockNo(1), 0, &[], &[PatchNo(9)], Undo::Keep);
    expect_equal(&rt, "empty", made, Err(CreateRefusal::EmptyPatch));
    let made = engine.patch(None, BlockNo(1), 4095, b"ab", &[PatchNo(9)], Undo::Keep);
    expect_equal(&rt, "span", made, Err(CreateRefusal::OutOfBlock));
    let made = engine.patch(None, BlockNo(1), 0, b"ab", &[PatchNo(9)], Undo::Keep);
    let unknown = CreateRefusal::UnknownDependency;
    expect_equal(&rt, "unknown", made, Err(unknown));
    expect_equal(&rt, "made", engine.made(), 0);
}

// What is shown of the first four bytes without these patches.
fn expect_without(rt: &impl Abort, engine: &mut Engine, patches: &[PatchNo], want: &[u8; 4]) {
    let mut bytes = [0xee; 4];
    let shown = engine.without(BlockNo(0), patches, 0, &mut bytes);
    expect_equal(rt, "without", shown, Ok(()));
    expect_equal(rt, "bytes", bytes, *want);
    expect_read(rt, engine, 0, 0, b"aBC\0");
}

// Why it isn't, and that the buffer is as it was.
fn expect_unshown(
    rt: &impl Abort,
    engine: &mut Engine,
    patches: &[PatchNo],
    place: (u32, usize),
    want: WithoutRefusal,
) {
    let mut bytes = [0xee; 4];
    let shown = engine.without(BlockNo(place.0), patches, place.1, &mut bytes);
    expect_equal(rt, "without", shown, Err(want));
    expect_equal(rt, "buffer", bytes, [0xee; 4]);
}

// Two patches of block 0, of which the second lies on the first.
fn make_two(rt: &impl Abort, engine: &mut Engine) -> (PatchNo, PatchNo) {
    let first = make(rt, engine, 0, 0, b"ab", &[]);
    (first, make(rt, engine, 0, 1, b"BC", &[]))
}

#[test]
fn what_is_taken_is_put_back(rt: HostRuntime) {
    let mut engine = open_with(&rt, rt.alloc(), [0, 1]);
    let (first, second) = make_two(&rt, &mut engine);
    expect_without(&rt, &mut engine, &[], b"aBC\0");
    expect_without(&rt, &mut engine, &[second], b"ab\0\0");
    expect_without(&rt, &mut engine, &[second, first], b"\0\0\0\0");
    let held = WithoutRefusal::Untaken(TakeRefusal::DependentApplied(second));
    expect_unshown(&rt, &mut engine, &[first, second], (0, 0), held);
    let taken = WithoutRefusal::Untaken(TakeRefusal::AlreadyTaken);
    expect_unshown(&rt, &mut engine, &[second, second], (0, 0), taken);
    let unknown = WithoutRefusal::Untaken(TakeRefusal::Unknown);
    expect_unshown(&rt, &mut engine, &[second, PatchNo(7)], (0, 0), unknown);
    expect_without(&rt, &mut engine, &[second], b"ab\0\0");
}

#[test]
fn a_span_that_is_not_read_is_told_first(rt: HostRuntime) {
    let mut engine = open_with(&rt, rt.alloc(), [0, 1]);
    let none = [PatchNo(7)];
    let beyond = WithoutRefusal::Unread(ReadRefusal::NoSuchBlock);
    expect_unshown(&rt, &mut engine, &none, (100, 5000), beyond);
    let absent = WithoutRefusal::Unread(ReadRefusal::NotResident(BlockNo(2)));
    expect_unshown(&rt, &mut engine, &none, (2, 5000), absent);
    let past = WithoutRefusal::Unread(ReadRefusal::OutOfBlock);
    expect_unshown(&rt, &mut engine, &none, (1, 4093), past);
    let unread = engine.read(BlockNo(1), 4093, 4).err();
    expect_equal(&rt, "read", unread, Some(ReadRefusal::OutOfBlock));
}
