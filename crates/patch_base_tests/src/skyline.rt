//! Spans laid over others, side by side and across each other, compared with a last writer noted for each byte.
use crate::expecting::expect_eq;
use patch_model::PatchNo;
use patch_skyline::{Skyline, Span};
use std::alloc::AllocError;
use std::test::Fail;

/// How many bytes the block of these tests has.
const BYTES: usize = 64;

/// Who wrote the byte last.
fn writer_at(line: &Skyline, at: usize) -> Option<PatchNo> {
    let from = at.min(BYTES);
    match line.tops(from, from + 1).first() {
        Some(span) => Some(span.no),
        None => None,
    }
}

/// Whether these are the last writers, byte by byte.
fn agrees(line: &Skyline, writers: &[Option<PatchNo>]) -> bool {
    for (at, writer) in writers.iter().enumerate() {
        if writer_at(line, at) != *writer {
            return false;
        }
    }
    true
}

/// Notes the span's patch as the last writer of its bytes.
fn note(writers: &mut [Option<PatchNo>], top: &Span) {
    for at in top.start.min(writers.len())..top.stop.min(writers.len()) {
        writers[at] = Some(top.no);
    }
}

/// Lays two hundred spans, whose places follow a fixed row of numbers. Whether the skyline agreed with the writers noted each time.
fn lay_many(line: &mut Skyline, writers: &mut [Option<PatchNo>]) -> Result<bool, AllocError> {
    let mut row: u32 = 7;
    let mut agreed = true;
    for number in 0..200 {
        row = row.wrapping_mul(1_103_515_245).wrapping_add(12_345);
        let start = (row >> 16) as usize % (BYTES - 8);
        let stop = start + 1 + (row >> 24) as usize % 8;
        let top = Span {
            start,
            stop,
            no: PatchNo(number),
        };
        line.lay(top)?;
        note(writers, &top);
        agreed = agreed && agrees(line, writers);
    }
    Ok(agreed)
}

#[test]
fn spans_tell_the_last_writers(rt: HostRuntime) -> Result<(), Fail> {
    let mut line = Skyline::new(rt.alloc());
    let mut writers = [None; BYTES];
    assert!(rt; agrees(&line, writers.as_slice()));
    assert!(rt; lay_many(&mut line, writers.as_mut_slice())?);
    line.clear();
    assert!(rt; line.tops(0, BYTES).is_empty());
    Ok(())
}

#[test]
fn one_span_is_the_only_top(rt: HostRuntime) -> Result<(), Fail> {
    let top = Span {
        start: 4,
        stop: 8,
        no: PatchNo(3),
    };
    let line = Skyline::of(rt.alloc(), top)?;
    expect_eq(&rt, &line.tops(7, 20).len(), &1);
    expect_eq(&rt, &writer_at(&line, 7), &Some(PatchNo(3)));
    assert!(rt; line.tops(8, 20).is_empty());
    assert!(rt; line.tops(0, 4).is_empty());
    Ok(())
}

// Room is made first, and the span laid later, across the end of another.
#[test]
fn a_span_is_laid_where_room_was_made(rt: HostRuntime) -> Result<(), Fail> {
    let below = Span {
        start: 4,
        stop: 8,
        no: PatchNo(3),
    };
    let above = Span {
        start: 5,
        stop: 7,
        no: PatchNo(4),
    };
    let mut line = Skyline::of(rt.alloc(), below)?;
    line.reserve()?;
    expect_eq(&rt, &line.tops(0, 20).len(), &1);
    line.lay_reserved(above);
    expect_eq(&rt, &line.tops(0, 20).len(), &3);
    expect_eq(&rt, &writer_at(&line, 4), &Some(PatchNo(3)));
    expect_eq(&rt, &writer_at(&line, 5), &Some(PatchNo(4)));
    expect_eq(&rt, &writer_at(&line, 7), &Some(PatchNo(3)));
    Ok(())
}
