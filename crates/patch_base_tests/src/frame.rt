//! What no contract says: the bytes of worked examples, each refusal, and refused memory.
use crate::expecting::expect_eq;
use linked_list_allocator::LocalHeap;
use patch_frame::*;
use patch_model::{BlockBytes, OutOfMemory, RefusalKind, Refuses};
use std::alloc::{Allocator, Global};
use std::fmt::Display;
use std::process::Abort;
use std::test::Fail;

mod damaged;

// The frame of the key `k` with the empty value.
const EMPTY: [u8; 17] = *b"FCH1\x01\0\0\0\0\0\0\0k1HCF";

// What one put of `k` with 0102 leaves on a new disk of one index block and two extents: frame, pointer record, and the
// front of the slot.
const FRAME: [u8; 19] = *b"FCH1\x01\0\0\0\0\0\0\x02k\x01\x021HCF";

const POINTER: [u8; 8] = [0, 0, 0, 0, 0, 0, 0, 0x13];

const SLOT: [u8; 17] = [1, 1, 0, 0, 0, 0, 0, 0, 0, 0, 0, 0, 0, 0, 0, 0x13, b'k'];

// The fronts of that disk's superblock, and of one of version 2 with extents of 64 blocks.
const SUPERBLOCK: [u8; 20] = *b"FSTCHUNK\0\0\0\x01\0\0\0\x01\0\0\0\x02";

const SUPERBLOCK_TWO: [u8; 24] = *b"FSTCHUNK\0\0\0\x02\0\0\0\x01\0\0\0\x02\0\0\0\x40";

// The bytes, and zeros up to a length.
fn padded(alloc: Global, front: &[u8], length: usize) -> Result<Vec<u8>, Fail> {
    let mut bytes = Vec::from_slice(alloc, front)?;
    for _ in front.len()..length {
        bytes.push(0)?;
    }
    Ok(bytes)
}

// A disk of one index block.
fn disk(extents: u32, format: Format) -> Geometry {
    Geometry {
        index: 1,
        extents,
        format,
    }
}

// The frame of the key `k` with this value.
fn encode_value<A: Allocator + Copy>(
    rt: &impl Abort,
    alloc: A,
    value: &[u8],
) -> Result<Vec<u8, A>, OutOfMemory> {
    assert!(rt; value.len() <= 32_769);
    encode(alloc, b"k", value)
}

fn expect_frame<A: Allocator + Copy>(
    rt: &impl Abort,
    alloc: A,
    value: &[u8],
    want: &[u8],
) -> Result<(), OutOfMemory> {
    let frame = encode_value(rt, alloc, value)?;
    expect_eq(rt, &frame.as_slice(), &want);
    Ok(())
}

fn expect_pointer(rt: &impl Abort, pointer: Pointer, want: [u8; 8]) {
    assert!(rt; pointer.offset <= MAX_POINTER);
    expect_eq(rt, &write_pointer(pointer), &want);
    expect_eq(rt, &read_pointer_within(&want, MAX_POINTER), &Ok(pointer));
}

#[test]
fn one_put_on_a_new_disk_writes_this_frame_and_pointer(rt: HostRuntime) -> Result<(), Fail> {
    expect_frame(&rt, rt.alloc(), &[], &EMPTY)?;
    expect_frame(&rt, rt.alloc(), &[1, 2], &FRAME)?;
    let pointer = Pointer {
        generation: 0,
        offset: 19,
    };
    expect_pointer(&rt, pointer, POINTER);
    expect_eq(&rt, &read_pointer(&POINTER), &Ok(pointer));
    Ok(())
}

// The bytes are this front, and zeros up to their end.
fn expect_padded(rt: &impl Abort, alloc: Global, bytes: &[u8], front: &[u8]) -> Result<(), Fail> {
    let want = padded(alloc, front, bytes.len())?;
    expect_eq(rt, &bytes, &want.as_slice());
    Ok(())
}

fn expect_slot(rt: &impl Abort, bytes: &[u8], want: Result<SlotState, FrameFault>) {
    assert!(rt; bytes.len() == SLOT_BYTES);
    expect_eq(rt, &read_slot(bytes), &want);
}

fn expect_slot_within(rt: &impl Abort, bytes: &[u8], want: Result<SlotState, FrameFault>) {
    assert!(rt; bytes.len() == SLOT_BYTES);
    expect_eq(rt, &read_slot_within(bytes, MAX_FRAME), &want);
}

#[test]
fn one_put_writes_this_slot(rt: HostRuntime) -> Result<(), Fail> {
    let used = SlotState::Used(Slot {
        key: b"k",
        extent: 0,
        generation: 0,
        offset: 0,
        length: 19,
    });
    let slot = write_slot(rt.alloc(), &used)?;
    expect_slot(&rt, &slot, Ok(used));
    expect_padded(&rt, rt.alloc(), &slot, &SLOT)
}

#[test]
fn an_empty_slot_is_zeros(rt: HostRuntime) -> Result<(), Fail> {
    let slot = write_slot(rt.alloc(), &SlotState::Empty)?;
    expect_slot(&rt, &slot, Ok(SlotState::Empty));
    expect_padded(&rt, rt.alloc(), &slot, &[])
}

fn expect_superblock(rt: &impl Abort, bytes: &[u8], want: Result<Geometry, FrameFault>) {
    assert!(rt; bytes.len() == 4096);
    expect_eq(rt, &read_superblock(bytes), &want);
}

fn expect_written(
    rt: &impl Abort,
    alloc: Global,
    geometry: Geometry,
    front: &[u8],
) -> Result<(), Fail> {
    assert!(rt; geometry.is_valid());
    let written = write_superblock(alloc, geometry)?;
    expect_superblock(rt, written.as_slice(), Ok(geometry));
    expect_padded(rt, alloc, written.as_slice(), front)
}

#[test]
fn superblocks_of_both_versions_are_read_again(rt: HostRuntime) -> Result<(), Fail> {
    let two = Format::Two { length: 64 };
    expect_written(&rt, rt.alloc(), disk(2, Format::One), &SUPERBLOCK)?;
    expect_written(&rt, rt.alloc(), disk(2, two), &SUPERBLOCK_TWO)
}

#[test]
fn each_byte_of_a_pointer_has_its_place(rt: HostRuntime) {
    let pointer = Pointer {
        generation: 0x0102_0304,
        offset: 0x0003_0201,
    };
    expect_pointer(&rt, pointer, [1, 2, 3, 4, 0, 3, 2, 1]);
}

// Of a slot with a key of 32 bytes and a frame that is too long for the first version.
const EVERY_BYTE: [u8; 48] =
    *b"\x01\x20\x05\x06\x07\x08\x09\x0a\x0b\x0c\x0d\x0e\x00\x01\xf0\x0fabcdefghijklmnopqrstuvwxyz012345";

#[test]
fn each_byte_of_a_slot_has_its_place(rt: HostRuntime) -> Result<(), Fail> {
    let used = SlotState::Used(Slot {
        key: b"abcdefghijklmnopqrstuvwxyz012345",
        extent: 0x0506,
        generation: 0x0708_090a,
        offset: 0x0b0c_0d0e,
        length: 0x0001_f00f,
    });
    let slot = write_slot(rt.alloc(), &used)?;
    expect_slot_within(&rt, &slot, Ok(used));
    expect_slot(&rt, &slot, Err(FrameFault::BadValue));
    expect_padded(&rt, rt.alloc(), &slot, &EVERY_BYTE)
}

fn expect_blocks_of_version_one(rt: &impl Abort) {
    let one = disk(2, Format::One);
    assert!(rt; one.is_valid());
    expect_eq(rt, &one.block_count(), &35);
    expect_eq(rt, &one.pointer_block(), &2);
    expect_eq(rt, &one.slot_count(), &64);
    expect_eq(rt, &one.first_block(0), &3);
    expect_eq(rt, &one.first_block(1), &19);
}

fn expect_blocks_of_version_two(rt: &impl Abort) {
    let two = disk(2, Format::Two { length: 64 });
    assert!(rt; two.is_valid());
    expect_eq(rt, &two.block_count(), &131);
    expect_eq(rt, &two.first_block(1), &67);
}

#[test]
fn blocks_and_records_have_their_places(rt: HostRuntime) {
    expect_blocks_of_version_one(&rt);
    expect_blocks_of_version_two(&rt);
    expect_eq(&rt, &slot_block(64), &2);
    expect_eq(&rt, &slot_start(65), &64);
    expect_eq(&rt, &pointer_start(3), &24);
}

// The version, the blocks of an extent, the largest pointer, the longest value and the longest frame.
fn expect_limits(rt: &impl Abort, format: Format, want: [u32; 5]) {
    assert!(rt; format.is_valid());
    let limits = [
        format.version(),
        format.extent_blocks(),
        format.largest_pointer(),
        format.value_limit(),
        format.longest_frame(),
    ];
    expect_eq(rt, &limits, &want);
}

#[test]
fn each_version_has_its_limits(rt: HostRuntime) {
    expect_limits(&rt, Format::One, [1, 16, 65_536, 32_768, 32_816]);
    for (length, pointer, value) in [
        (16, 65_536, 65_488),
        (32, 131_072, 131_024),
        (33, 135_168, 131_072),
        (64, 262_144, 131_072),
    ] {
        let format = Format::Two { length };
        expect_limits(&rt, format, [2, length, pointer, value, 131_120]);
    }
}

// How many index blocks, how many extents, and whether a disk may be divided so.
const DIVISIONS: [(u32, u32, Format, bool); 12] = [
    (1, 2, Format::One, true),
    (16, 254, Format::One, true),
    (0, 2, Format::One, false),
    (17, 2, Format::One, false),
    (1, 1, Format::One, false),
    (1, 255, Format::One, false),
    (1, 2, Format::Two { length: 15 }, false),
    (1, 2, Format::Two { length: 16 }, true),
    (1, 2, Format::Two { length: 65 }, false),
    (5, 141, Format::Two { length: 29 }, true),
    (6, 141, Format::Two { length: 29 }, false),
    (16, 254, Format::Two { length: 64 }, false),
];

#[test]
fn some_divisions_of_a_disk_are_valid(rt: HostRuntime) {
    for (row, (index, extents, format, valid)) in DIVISIONS.iter().enumerate() {
        let geometry = Geometry {
            index: *index,
            extents: *extents,
            format: *format,
        };
        expect_eq(&rt, &(&row, &geometry.is_valid()), &(&row, valid));
    }
}

// Two frames of the key `k`, and a byte.
const TWO_AND_A_BYTE: [u8; 35] = *b"FCH1\x01\0\0\0\0\0\0\0k1HCFFCH1\x01\0\0\0\0\0\0\0k1HCFF";

#[test]
fn frames_that_end_badly_are_refused(rt: HostRuntime) {
    let short = decode(&EMPTY[..16]);
    expect_eq(&rt, &short, &Err(FrameFault::Short));
    let other = decode(b"FCH1\x01\0\0\0\0\0\0\0k1HCf");
    expect_eq(&rt, &other, &Err(FrameFault::BadMagic));
}

// What is read is these frames, or is refused so.
fn expect_run(
    rt: &impl Abort,
    read: &Result<Vec<Frame<'_>>, FramesRefusal>,
    want: Result<&[Frame<'_>], FramesRefusal>,
) {
    let read = match read {
        Ok(run) => Ok(run.as_slice()),
        Err(refusal) => Err(*refusal),
    };
    expect_eq(rt, &read, &want);
}

#[test]
fn runs_of_frames_are_read(rt: HostRuntime) {
    let frame = Frame {
        key: b"k",
        value: &[],
        length: 17,
    };
    expect_run(
        &rt,
        &frames(rt.alloc(), &TWO_AND_A_BYTE[..34]),
        Ok(&[frame, frame]),
    );
    expect_run(&rt, &frames(rt.alloc(), &[]), Ok(&[]));
}

#[test]
fn a_run_that_ends_badly_is_refused(rt: HostRuntime) {
    let refusal = FramesRefusal::Fault(FrameFault::Short);
    expect_run(&rt, &frames(rt.alloc(), &TWO_AND_A_BYTE), Err(refusal));
}

// The longest value of the first version.
fn expect_narrow(rt: &impl Abort, alloc: Global, value: &[u8]) -> Result<(), OutOfMemory> {
    let bytes = encode_value(rt, alloc, value)?;
    let frame = Frame {
        key: b"k",
        value,
        length: 32_785,
    };
    expect_eq(rt, &decode(&bytes), &Ok(frame));
    Ok(())
}

fn expect_wide(rt: &impl Abort, bytes: &[u8], frame: Frame) {
    expect_eq(rt, &decode(bytes), &Err(FrameFault::BadValue));
    expect_eq(
        rt,
        &decode_within(bytes, 32_768),
        &Err(FrameFault::BadValue),
    );
    expect_eq(rt, &decode_within(bytes, 32_769), &Ok(frame));
}

fn expect_wide_run(rt: &impl Abort, alloc: Global, bytes: &[u8], frame: Frame) -> Result<(), Fail> {
    let refusal = FramesRefusal::Fault(FrameFault::BadValue);
    expect_run(rt, &frames(alloc, bytes), Err(refusal));
    let run = frames_within(alloc, bytes, MAX_VALUE)?;
    expect_eq(rt, &run.as_slice(), &[frame].as_slice());
    Ok(())
}

// One byte more.
fn expect_too_wide(rt: &impl Abort, alloc: Global, value: &[u8]) -> Result<(), Fail> {
    let bytes = encode_value(rt, alloc, value)?;
    let frame = Frame {
        key: b"k",
        value,
        length: 32_786,
    };
    expect_wide(rt, &bytes, frame);
    expect_wide_run(rt, alloc, &bytes, frame)
}

#[test]
fn values_are_read_up_to_their_limits(rt: HostRuntime) -> Result<(), Fail> {
    let value = vec![in rt.alloc(); 7; 32_769]?;
    expect_narrow(&rt, rt.alloc(), &value[..32_768])?;
    expect_too_wide(&rt, rt.alloc(), &value)?;
    Ok(())
}

// A byte that is changed, or the length to which the bytes are cut, and the refusal that follows.
#[derive(Clone, Copy)]
enum Break {
    Byte(usize, u8),
    Cut(usize),
}

fn break_one(bytes: &mut Vec<u8>, next: Break) {
    match next {
        Break::Byte(place, byte) => {
            if let Some(old) = bytes.get_mut(place) {
                *old = byte;
            }
        }
        Break::Cut(length) => bytes.truncate(length),
    }
}

// The bytes, and zeros up to a length, broken twice.
fn broken(alloc: Global, front: &[u8], length: usize, breaks: [Break; 2]) -> Result<Vec<u8>, Fail> {
    let mut bytes = padded(alloc, front, length)?;
    break_one(&mut bytes, breaks[0]);
    break_one(&mut bytes, breaks[1]);
    Ok(bytes)
}

// The tests of each reader, in their order.
const TESTS_OF_FRAMES: [(Break, FrameFault); 9] = [
    (Break::Cut(11), FrameFault::Short),
    (Break::Byte(0, b'f'), FrameFault::BadMagic),
    (Break::Byte(4, 0), FrameFault::BadKey),
    (Break::Byte(4, 33), FrameFault::BadKey),
    (Break::Byte(5, 1), FrameFault::NotZero),
    (Break::Byte(7, 1), FrameFault::NotZero),
    (Break::Byte(9, 1), FrameFault::BadValue),
    (Break::Cut(18), FrameFault::Short),
    (Break::Byte(18, 0), FrameFault::BadMagic),
];

const TESTS_OF_SLOTS: [(Break, FrameFault); 7] = [
    (Break::Byte(0, 2), FrameFault::BadMagic),
    (Break::Byte(1, 0), FrameFault::BadKey),
    (Break::Byte(1, 33), FrameFault::BadKey),
    (Break::Byte(17, 1), FrameFault::NotZero),
    (Break::Byte(63, 1), FrameFault::NotZero),
    (Break::Byte(15, 16), FrameFault::BadValue),
    (Break::Byte(13, 1), FrameFault::BadValue),
];

const TESTS_OF_SUPERBLOCKS: [(Break, FrameFault); 10] = [
    (Break::Byte(0, b'f'), FrameFault::BadMagic),
    (Break::Byte(8, 1), FrameFault::BadMagic),
    (Break::Byte(11, 0), FrameFault::BadMagic),
    (Break::Byte(11, 3), FrameFault::BadMagic),
    (Break::Byte(15, 0), FrameFault::BadValue),
    (Break::Byte(15, 17), FrameFault::BadValue),
    (Break::Byte(19, 1), FrameFault::BadValue),
    (Break::Byte(19, 255), FrameFault::BadValue),
    (Break::Byte(20, 1), FrameFault::NotZero),
    (Break::Byte(4095, 1), FrameFault::NotZero),
];

const TESTS_OF_VERSION_TWO: [(Break, FrameFault); 4] = [
    (Break::Byte(23, 15), FrameFault::BadValue),
    (Break::Byte(23, 65), FrameFault::BadValue),
    (Break::Byte(19, 64), FrameFault::BadValue),
    (Break::Byte(24, 1), FrameFault::NotZero),
];

fn expect_bad_frame(
    rt: &impl Abort,
    alloc: Global,
    breaks: [Break; 2],
    want: FrameFault,
) -> Result<(), Fail> {
    let bytes = broken(alloc, &FRAME, FRAME.len(), breaks)?;
    expect_eq(rt, &decode(&bytes), &Err(want));
    Ok(())
}

// Each test fails alone and together with each later one: the earlier one answers.
#[test]
fn the_first_failing_test_of_a_frame_answers(rt: HostRuntime) -> Result<(), Fail> {
    for (first, (one, want)) in TESTS_OF_FRAMES.iter().enumerate() {
        for (other, _) in &TESTS_OF_FRAMES[first..] {
            expect_bad_frame(&rt, rt.alloc(), [*one, *other], *want)?;
        }
    }
    Ok(())
}

fn expect_bad_slot(
    rt: &impl Abort,
    alloc: Global,
    breaks: [Break; 2],
    want: FrameFault,
) -> Result<(), Fail> {
    let bytes = broken(alloc, &SLOT, SLOT_BYTES, breaks)?;
    expect_slot(rt, &bytes, Err(want));
    Ok(())
}

#[test]
fn the_first_failing_test_of_a_slot_answers(rt: HostRuntime) -> Result<(), Fail> {
    for (first, (one, want)) in TESTS_OF_SLOTS.iter().enumerate() {
        for (other, _) in &TESTS_OF_SLOTS[first..] {
            expect_bad_slot(&rt, rt.alloc(), [*one, *other], *want)?;
        }
    }
    Ok(())
}

fn expect_bad_superblock(
    rt: &impl Abort,
    alloc: Global,
    front: &[u8],
    breaks: [Break; 2],
    want: FrameFault,
) -> Result<(), Fail> {
    let bytes = broken(alloc, front, 4096, breaks)?;
    expect_superblock(rt, &bytes, Err(want));
    Ok(())
}

#[test]
fn the_first_failing_test_of_a_superblock_answers(rt: HostRuntime) -> Result<(), Fail> {
    for (first, (one, want)) in TESTS_OF_SUPERBLOCKS.iter().enumerate() {
        for (other, _) in &TESTS_OF_SUPERBLOCKS[first..] {
            expect_bad_superblock(&rt, rt.alloc(), &SUPERBLOCK, [*one, *other], *want)?;
        }
    }
    Ok(())
}

#[test]
fn version_two_has_tests_of_its_own(rt: HostRuntime) -> Result<(), Fail> {
    for (one, want) in &TESTS_OF_VERSION_TWO {
        expect_bad_superblock(&rt, rt.alloc(), &SUPERBLOCK_TWO, [*one, *one], *want)?;
    }
    Ok(())
}

#[test]
fn pointers_past_the_end_are_refused(rt: HostRuntime) {
    let over = [0, 0, 0, 0, 0, 1, 0, 1];
    let wide = Pointer {
        generation: 0,
        offset: 65_537,
    };
    expect_eq(&rt, &read_pointer(&over), &Err(FrameFault::BadValue));
    expect_eq(&rt, &read_pointer_within(&over, 65_537), &Ok(wide));
    expect_eq(
        &rt,
        &read_pointer_within(&over, 65_536),
        &Err(FrameFault::BadValue),
    );
}

const FAULTS: [(FrameFault, RefusalKind, u8, &str); 5] = [
    (FrameFault::BadMagic, RefusalKind::BadMagic, 52, "BadMagic"),
    (FrameFault::BadKey, RefusalKind::BadKey, 53, "BadKey"),
    (FrameFault::BadValue, RefusalKind::BadValue, 54, "BadValue"),
    (FrameFault::Short, RefusalKind::Short, 55, "Short"),
    (FrameFault::NotZero, RefusalKind::NotZero, 56, "NotZero"),
];

// The refusal's kind, its number, and its name, which is its text.
fn expect_refusal<R: Refuses + Display + Copy>(
    rt: &impl Abort,
    alloc: Global,
    refusal: R,
    kind: RefusalKind,
    code: u8,
    name: &str,
) -> Result<(), Fail> {
    expect_eq(rt, &refusal.kind(), &kind);
    expect_eq(rt, &refusal.code(), &code);
    expect_eq(rt, &refusal.name(), &name);
    expect_eq(rt, &format!(in alloc; "{refusal}")?.as_str(), &name);
    Ok(())
}

// Each refusal of a frame, alone and of a run.
#[test]
fn refusals_have_numbers_and_names(rt: HostRuntime) -> Result<(), Fail> {
    for (fault, kind, code, name) in &FAULTS {
        expect_refusal(&rt, rt.alloc(), *fault, *kind, *code, name)?;
        let run = FramesRefusal::Fault(*fault);
        expect_refusal(&rt, rt.alloc(), run, *kind, *code, name)?;
    }
    let (kind, refusal) = (RefusalKind::OutOfMemory, FramesRefusal::OutOfMemory);
    expect_refusal(&rt, rt.alloc(), refusal, kind, 1, "OutOfMemory")
}

fn write_empty(rt: &impl Abort, heap: &LocalHeap) -> Result<(), OutOfMemory> {
    let slot = write_slot(heap, &SlotState::Empty)?;
    expect_eq(rt, &slot.len(), &SLOT_BYTES);
    Ok(())
}

fn write_block(rt: &impl Abort, heap: &LocalHeap) -> Result<(), OutOfMemory> {
    let geometry = disk(2, Format::One);
    assert!(rt; geometry.is_valid());
    let superblock: BlockBytes<&LocalHeap> = write_superblock(heap, geometry)?;
    expect_superblock(rt, superblock.as_slice(), Ok(geometry));
    Ok(())
}

fn read_nine(rt: &impl Abort, heap: &LocalHeap, bytes: &[u8]) -> Result<(), OutOfMemory> {
    match frames(heap, bytes) {
        Ok(read) => {
            expect_eq(rt, &read.len(), &9);
            Ok(())
        }
        Err(refusal) => {
            expect_eq(rt, &refusal, &FramesRefusal::OutOfMemory);
            Err(OutOfMemory)
        }
    }
}

// All that takes memory, in a heap of this size. Whether it was too small.
fn is_refused(
    rt: &impl Abort,
    alloc: Global,
    size: usize,
    bytes: &[u8],
) -> Result<bool, OutOfMemory> {
    let heap = LocalHeap::new(alloc, size)?;
    Ok(
        expect_frame(rt, &heap, &[1, 2], &FRAME).is_err()
            || write_empty(rt, &heap).is_err()
            || write_block(rt, &heap).is_err()
            || read_nine(rt, &heap, bytes).is_err(),
    )
}

// Each heap is larger than the one before it, and more than two hundred are too small.
fn refuse_in_turn(rt: &impl Abort, alloc: Global, bytes: &[u8]) -> Result<(), Fail> {
    for turn in 0..1200usize {
        if !is_refused(rt, alloc, 64 + turn * 16, bytes)? {
            expect_eq(rt, &(&turn, &(turn > 200)), &(&turn, &true));
            return Ok(());
        }
    }
    Err(Fail::from("refused in the largest heap"))
}

fn nine_frames(alloc: Global) -> Result<Vec<u8>, OutOfMemory> {
    let mut bytes = Vec::new(alloc);
    for _ in 0..9 {
        bytes.extend_from_slice(&FRAME)?;
    }
    Ok(bytes)
}

#[test]
fn each_allocation_is_refused_in_turn(rt: HostRuntime) -> Result<(), Fail> {
    let bytes = nine_frames(rt.alloc())?;
    refuse_in_turn(&rt, rt.alloc(), &bytes)
}
