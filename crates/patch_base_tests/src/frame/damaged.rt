//! Readers against plain ones, written from the tables of the formats, on damaged bytes.
use super::{disk, expect_eq};
use patch_frame::*;
use patch_model::OutOfMemory;
use std::alloc::Global;
use std::process::Abort;
use std::test::Fail;

// Whether the bytes from one place to another are these.
fn stands(bytes: &[u8], from: usize, want: &[u8]) -> bool {
    let to = from.saturating_add(want.len());
    bytes.get(from..to) == Some(want)
}

// The number of the bytes from one place to another, the highest one first.
fn number(bytes: &[u8], from: usize, to: usize) -> u64 {
    let mut sum = 0u64;
    for byte in bytes.get(from..to).unwrap_or(&[]) {
        sum = sum.wrapping_mul(256).wrapping_add(u64::from(*byte));
    }
    sum
}

// The number of four bytes.
fn word(bytes: &[u8], from: usize) -> u32 {
    (number(bytes, from, from.saturating_add(4)) % 0x1_0000_0000) as u32
}

fn zeros(bytes: &[u8], from: usize, to: usize) -> bool {
    let Some(part) = bytes.get(from..to) else {
        return false;
    };
    for byte in part {
        if *byte != 0 {
            return false;
        }
    }
    true
}

// The length of a key, which stands in one byte.
fn plain_key_length(bytes: &[u8], at: usize) -> Result<usize, FrameFault> {
    let length = (number(bytes, at, at.saturating_add(1)) % 256) as usize;
    if length == 0 || length > 32 {
        return Err(FrameFault::BadKey);
    }
    Ok(length)
}

fn plain_frame(bytes: &[u8], limit: u64) -> Result<Frame<'_>, FrameFault> {
    if bytes.len() < 12 {
        return Err(FrameFault::Short);
    }
    if !stands(bytes, 0, b"FCH1") {
        return Err(FrameFault::BadMagic);
    }
    let key_length = plain_key_length(bytes, 4)?;
    if !zeros(bytes, 5, 8) {
        return Err(FrameFault::NotZero);
    }
    let value_length = number(bytes, 8, 12);
    if value_length > limit {
        return Err(FrameFault::BadValue);
    }
    plain_parts(bytes, key_length, value_length as usize)
}

// The key and the value of a frame, whose lengths are known.
fn plain_parts(
    bytes: &[u8],
    key_length: usize,
    value_length: usize,
) -> Result<Frame<'_>, FrameFault> {
    let key_end = key_length.saturating_add(12);
    let value_end = key_end.saturating_add(value_length);
    let length = value_end.saturating_add(4);
    if bytes.len() < length {
        return Err(FrameFault::Short);
    }
    if !stands(bytes, value_end, b"1HCF") {
        return Err(FrameFault::BadMagic);
    }
    Ok(Frame {
        key: bytes.get(12..key_end).unwrap_or(&[]),
        value: bytes.get(key_end..value_end).unwrap_or(&[]),
        length,
    })
}

fn plain_slot(bytes: &[u8], longest: u64) -> Result<SlotState<'_>, FrameFault> {
    match number(bytes, 0, 1) {
        0 if zeros(bytes, 0, 64) => Ok(SlotState::Empty),
        0 => Err(FrameFault::NotZero),
        1 => Ok(SlotState::Used(plain_used(bytes, longest)?)),
        _ => Err(FrameFault::BadMagic),
    }
}

fn plain_used(bytes: &[u8], longest: u64) -> Result<Slot<'_>, FrameFault> {
    let key_end = plain_key_length(bytes, 1)?.saturating_add(16);
    if !zeros(bytes, key_end, 48) || !zeros(bytes, 48, 64) {
        return Err(FrameFault::NotZero);
    }
    let length = number(bytes, 12, 16);
    if length < 17 || length > longest {
        return Err(FrameFault::BadValue);
    }
    Ok(Slot {
        key: bytes.get(16..key_end).unwrap_or(&[]),
        extent: (number(bytes, 2, 4) % 65_536) as u16,
        generation: word(bytes, 4),
        offset: word(bytes, 8),
        length: word(bytes, 12),
    })
}

fn plain_pointer(bytes: &[u8], largest: u64) -> Result<Pointer, FrameFault> {
    let offset = number(bytes, 4, 8);
    if offset > largest {
        return Err(FrameFault::BadValue);
    }
    Ok(Pointer {
        generation: word(bytes, 0),
        offset: word(bytes, 4),
    })
}

// Whether a disk may be divided so.
fn in_range(index: u64, extents: u64, length: u64) -> bool {
    let blocks = extents
        .wrapping_mul(length)
        .wrapping_add(index)
        .wrapping_add(2);
    (1..=16).contains(&index)
        && (2..=254).contains(&extents)
        && (16..=64).contains(&length)
        && blocks <= 4096
}

fn plain_superblock(bytes: &[u8]) -> Result<Geometry, FrameFault> {
    if !stands(bytes, 0, b"FSTCHUNK") {
        return Err(FrameFault::BadMagic);
    }
    match number(bytes, 8, 12) {
        1 => plain_geometry(bytes, 16, 20, Format::One),
        2 => {
            let length = word(bytes, 20);
            plain_geometry(bytes, u64::from(length), 24, Format::Two { length })
        }
        _ => Err(FrameFault::BadMagic),
    }
}

// How a disk is divided whose extents have this length, and whose superblock is zeros from this byte on.
fn plain_geometry(
    bytes: &[u8],
    length: u64,
    end: usize,
    format: Format,
) -> Result<Geometry, FrameFault> {
    if !in_range(number(bytes, 12, 16), number(bytes, 16, 20), length) {
        return Err(FrameFault::BadValue);
    }
    if !zeros(bytes, end, 4096) {
        return Err(FrameFault::NotZero);
    }
    Ok(Geometry {
        index: word(bytes, 12),
        extents: word(bytes, 16),
        format,
    })
}

// Numbers that look like chance and are the same in every run.
#[derive(Drop)]
struct Chance {
    state: u64,
}

impl Chance {
    fn next(&mut self) -> u64 {
        self.state = self
            .state
            .wrapping_mul(6_364_136_223_846_793_005)
            .wrapping_add(1_442_695_040_888_963_407);
        self.state >> 33
    }

    // A number below the limit, which is not 0.
    fn below(&mut self, limit: usize) -> usize {
        let next = self.next() as usize;
        next.checked_rem(limit).unwrap_or(0)
    }
}

// Another byte: a neighbour, one that lengths and states often have, or any.
fn changed(chance: &mut Chance, byte: u8) -> u8 {
    let other = (chance.next() % 256) as u8;
    match chance.below(5) {
        0 => 0,
        1 => byte.wrapping_add(1),
        2 => byte.wrapping_sub(1),
        3 => 1,
        _ => other,
    }
}

// Some bytes changed a little or a lot, most of them among the first forty.
fn damage(chance: &mut Chance, bytes: &mut Vec<u8>) {
    for _ in 0..=chance.below(3) {
        let reach = if chance.below(4) == 0 {
            bytes.len()
        } else {
            bytes.len().min(40)
        };
        let place = chance.below(reach);
        if let Some(byte) = bytes.get_mut(place) {
            *byte = changed(chance, *byte);
        }
    }
}

fn whole_slot(alloc: Global) -> Result<Vec<u8>, OutOfMemory> {
    let slot = Slot {
        key: b"0123456789abcdefghijklmnopqrstuv",
        extent: 3,
        generation: 9,
        offset: 800,
        length: 32_816,
    };
    write_slot(alloc, &SlotState::Used(slot))
}

fn whole_pointer(alloc: Global) -> Result<Vec<u8>, OutOfMemory> {
    let pointer = Pointer {
        generation: 7,
        offset: 65_536,
    };
    Ok(write_pointer(pointer).to_vec(alloc)?)
}

fn whole_superblock(
    rt: &impl Abort,
    alloc: Global,
    format: Format,
) -> Result<Vec<u8>, OutOfMemory> {
    let geometry = disk(60, format);
    assert!(rt; geometry.is_valid());
    Ok(write_superblock(alloc, geometry)?.into_vec())
}

// Two frames, two slots, a pointer record and two superblocks.
fn whole(rt: &impl Abort, alloc: Global, which: usize) -> Result<Vec<u8>, OutOfMemory> {
    match which {
        0 => encode(alloc, b"k", &[1, 2]),
        1 => encode(alloc, b"0123456789abcdefghijklmnopqrstuv", &[7; 40]),
        2 => write_slot(alloc, &SlotState::Empty),
        3 => whole_slot(alloc),
        4 => whole_pointer(alloc),
        5 => whole_superblock(rt, alloc, Format::One),
        _ => whole_superblock(rt, alloc, Format::Two { length: 64 }),
    }
}

// Each reader answers what the plain one does. Whether the bytes were accepted.
fn agrees_on_a_frame(rt: &impl Abort, bytes: &[u8], turn: usize) -> bool {
    let read = decode(bytes);
    expect_eq(rt, &(&turn, &read), &(&turn, &plain_frame(bytes, 32_768)));
    let within = decode_within(bytes, 39);
    expect_eq(rt, &(&turn, &within), &(&turn, &plain_frame(bytes, 39)));
    read.is_ok()
}

fn agrees_on_a_slot(rt: &impl Abort, bytes: &[u8], turn: usize) -> bool {
    assert!(rt; bytes.len() == SLOT_BYTES);
    let read = read_slot(bytes);
    expect_eq(rt, &(&turn, &read), &(&turn, &plain_slot(bytes, 32_816)));
    let within = read_slot_within(bytes, MAX_FRAME);
    expect_eq(rt, &(&turn, &within), &(&turn, &plain_slot(bytes, 131_120)));
    read.is_ok()
}

fn agrees_on_a_pointer(rt: &impl Abort, bytes: &[u8], turn: usize) -> bool {
    assert!(rt; bytes.len() == POINTER_BYTES);
    let read = read_pointer(bytes);
    expect_eq(rt, &(&turn, &read), &(&turn, &plain_pointer(bytes, 65_536)));
    let within = read_pointer_within(bytes, 262_144);
    expect_eq(
        rt,
        &(&turn, &within),
        &(&turn, &plain_pointer(bytes, 262_144)),
    );
    read.is_ok()
}

fn agrees_on_a_superblock(rt: &impl Abort, bytes: &[u8], turn: usize) -> bool {
    assert!(rt; bytes.len() == 4096);
    let read = read_superblock(bytes);
    expect_eq(rt, &(&turn, &read), &(&turn, &plain_superblock(bytes)));
    read.is_ok()
}

fn agrees(rt: &impl Abort, bytes: &[u8], turn: usize) -> bool {
    match turn % 7 {
        0 | 1 => agrees_on_a_frame(rt, bytes, turn),
        2 | 3 => agrees_on_a_slot(rt, bytes, turn),
        4 => agrees_on_a_pointer(rt, bytes, turn),
        _ => agrees_on_a_superblock(rt, bytes, turn),
    }
}

// How many of the bytes are left: of a frame now and then fewer.
fn length_left(chance: &mut Chance, length: usize, turn: usize) -> usize {
    if turn % 7 < 2 && chance.below(4) == 0 {
        return chance.below(length);
    }
    length
}

fn damage_one(
    rt: &impl Abort,
    alloc: Global,
    chance: &mut Chance,
    turn: usize,
) -> Result<bool, OutOfMemory> {
    let mut bytes = whole(rt, alloc, turn % 7)?;
    damage(chance, &mut bytes);
    bytes.truncate(length_left(chance, bytes.len(), turn));
    Ok(agrees(rt, &bytes, turn))
}

// How many of ten thousand damaged formats are accepted.
fn count_accepted(rt: &impl Abort, alloc: Global) -> Result<u32, OutOfMemory> {
    let mut chance = Chance { state: 1 };
    let mut accepted = 0u32;
    for turn in 0..10_000 {
        if damage_one(rt, alloc, &mut chance, turn)? {
            accepted = accepted.saturating_add(1);
        }
    }
    Ok(accepted)
}

#[test]
fn damaged_bytes_are_read_as_by_plain_readers(rt: HostRuntime) -> Result<(), Fail> {
    let accepted = count_accepted(&rt, rt.alloc())?;
    let is_fair = accepted > 500 && accepted < 9_500;
    expect_eq(&rt, &(&accepted, &is_fair), &(&accepted, &true));
    Ok(())
}
