//! Lists of calls, with what each of them answers and which steps they leave in the trace.
use super::*;
use std::fmt::Debug;

// A call, or a look at the trace.
#[derive(Clone, Copy)]
enum Move {
    // Bytes of the value of the count of appends so far, from 1.
    Append { extent: u32, len: usize },
    // By a writer.
    By { writer: u8, extent: u32, len: usize },
    // One byte, behind a patch.
    Behind { extent: u32, after: u32 },
    Reset { extent: u32 },
    Read(Place),
    // To make a group.
    Group,
    // To let a writer's patches belong to a group, and no more.
    Engage { writer: u8, group: u32 },
    Leave { writer: u8, group: u32 },
    // To let a group depend on another.
    Order { group: u32, on: u32 },
    // The steps since the last look.
    Trace,
}

use Move::{Append, Behind, By, Engage, Group, Leave, Order, Read, Reset, Trace};

// 5,000 bytes, 10 more, a reset, and one byte.
const WORKED: &[Move] = &[
    Append {
        extent: 0,
        len: 5000,
    },
    Trace,
    Append { extent: 0, len: 10 },
    Trace,
    Read(Place {
        extent: 0,
        generation: 0,
        offset: 4999,
        len: 3,
    }),
    Reset { extent: 0 },
    Trace,
    Append { extent: 0, len: 1 },
    Trace,
    Read(Place {
        extent: 0,
        generation: 0,
        offset: 0,
        len: 5000,
    }),
    Read(Place {
        extent: 0,
        generation: 1,
        offset: 0,
        len: 2,
    }),
    Read(Place {
        extent: 0,
        generation: 1,
        offset: 0,
        len: 1,
    }),
    Append {
        extent: 0,
        len: 65_536,
    },
    Append { extent: 2, len: 1 },
    Read(Place {
        extent: 2,
        generation: 0,
        offset: 0,
        len: 0,
    }),
    Reset { extent: 2 },
    Behind {
        extent: 0,
        after: 8,
    },
];

const WORKED_TOLD: &str = "\
append Ok(Appended { place: Place { extent: 0, generation: 0, offset: 0, len: 5000 }, pointer_patch: PatchNo(2), merge: NotLegal })
  3.0+4096 None behind []
  4.0+904 None behind []
  2.0+8 Some([0, 0, 0, 0, 0, 0, 19, 136]) behind [PatchNo(0), PatchNo(1)]
append Ok(Appended { place: Place { extent: 0, generation: 0, offset: 5000, len: 10 }, pointer_patch: PatchNo(4), merge: Made })
  4.904+10 None behind []
  2.0+8 Some([0, 0, 0, 0, 0, 0, 19, 146]) behind [PatchNo(3)]
  merge 2 4
read 1x1 2x2
reset Ok(PatchNo(5))
  2.0+8 Some([0, 0, 0, 1, 0, 0, 0, 0]) behind []
append Ok(Appended { place: Place { extent: 0, generation: 1, offset: 0, len: 1 }, pointer_patch: PatchNo(7), merge: NotLegal })
  3.0+1 Some([3]) behind [PatchNo(5)]
  2.0+8 Some([0, 0, 0, 1, 0, 0, 0, 1]) behind [PatchNo(6)]
read OldGeneration
read PastPointer
read 3x1
append Err(ExtentFull)
append Err(NoSuchExtent)
read NoSuchExtent
reset Err(NoSuchExtent)
append Err(UnknownDependency)
";

// Extents of 64 blocks, the second of which is filled.
const LONG: &[Move] = &[
    Append { extent: 1, len: 1 },
    Trace,
    Append {
        extent: 1,
        len: 262_143,
    },
    Append { extent: 1, len: 1 },
    Read(Place {
        extent: 1,
        generation: 0,
        offset: 0,
        len: 262_144,
    }),
    Append {
        extent: 0,
        len: 65_537,
    },
];

const LONG_TOLD: &str = "\
append Ok(Appended { place: Place { extent: 1, generation: 0, offset: 0, len: 1 }, pointer_patch: PatchNo(1), merge: NotLegal })
  67.0+1 Some([1]) behind []
  2.8+8 Some([0, 0, 0, 0, 0, 0, 0, 1]) behind [PatchNo(0)]
append Ok(Appended { place: Place { extent: 1, generation: 0, offset: 1, len: 262143 }, pointer_patch: PatchNo(66), merge: Made })
append Err(ExtentFull)
read 1x1 2x262143
append Ok(Appended { place: Place { extent: 0, generation: 0, offset: 0, len: 65537 }, pointer_patch: PatchNo(84), merge: NotLegal })
";

// The patches of a writer join its groups, and name those of the groups before.
const GROUPED: &[Move] = &[
    Group,
    Group,
    Engage {
        writer: 0,
        group: 0,
    },
    By {
        writer: 0,
        extent: 0,
        len: 1,
    },
    Leave {
        writer: 0,
        group: 0,
    },
    Order { group: 1, on: 0 },
    Engage {
        writer: 1,
        group: 1,
    },
    By {
        writer: 1,
        extent: 1,
        len: 1,
    },
    Trace,
];

const GROUPED_TOLD: &str = "\
group Ok(GroupNo(0))
group Ok(GroupNo(1))
engage Ok(())
append Ok(Appended { place: Place { extent: 0, generation: 0, offset: 0, len: 1 }, pointer_patch: PatchNo(1), merge: NotLegal })
leave Ok(())
order Ok(())
engage Ok(())
append Ok(Appended { place: Place { extent: 1, generation: 0, offset: 0, len: 1 }, pointer_patch: PatchNo(3), merge: NotLegal })
  3.0+1 Some([1]) behind []
  2.0+8 Some([0, 0, 0, 0, 0, 0, 0, 1]) behind [PatchNo(0)]
  19.0+1 Some([2]) behind [PatchNo(0), PatchNo(1)]
  2.8+8 Some([0, 0, 0, 0, 0, 0, 0, 1]) behind [PatchNo(2), PatchNo(0), PatchNo(1)]
";

// An extent of the last generation.
const SPENT: &[Move] = &[Reset { extent: 0 }, Append { extent: 0, len: 1 }, Trace];

const SPENT_TOLD: &str = "\
reset Err(GenerationSpent)
append Ok(Appended { place: Place { extent: 0, generation: 4294967295, offset: 7, len: 1 }, pointer_patch: PatchNo(1), merge: NotLegal })
  3.7+1 Some([1]) behind []
  2.0+8 Some([255, 255, 255, 255, 0, 0, 0, 8]) behind [PatchNo(0)]
";

// What is answered.
fn tell<T: Copy + Debug>(told: &mut String, what: &str, answer: T) -> Result<(), AllocError> {
    writeln!(told, "{what} {answer:?}")
}

// The bytes of a patch, if they are few.
fn few(bytes: &[u8]) -> Option<&[u8]> {
    if bytes.len() <= 8 { Some(bytes) } else { None }
}

fn tell_step(told: &mut String, alloc: Global, step: &Step) -> Result<(), AllocError> {
    match step {
        Step::Create {
            block,
            start,
            bytes,
            after,
            ..
        } => {
            let bytes = bytes.as_slice();
            let Ok(after) = after.lend().to_vec(alloc) else {
                return Err(AllocError);
            };
            let (len, few) = (bytes.len(), few(bytes));
            writeln!(told, "  {block}.{start}+{len} {few:?} behind {after:?}")
        }
        Step::Merge { a, b } => writeln!(told, "  merge {a} {b}"),
        Step::Send { .. } | Step::Complete { .. } => told.push_str("  write\n"),
    }
}

fn tell_steps(told: &mut String, alloc: Global, steps: &[Step]) -> Result<(), AllocError> {
    for step in steps {
        tell_step(told, alloc, step)?;
    }
    Ok(())
}

fn tell_trace(told: &mut String, alloc: Global, cache: &mut Cache) -> Result<(), AllocError> {
    match cache.drain_trace() {
        Ok(steps) => {
            let ended = tell_steps(told, alloc, &steps);
            drop(steps);
            ended
        }
        Err(OutOfMemory) => Err(AllocError),
    }
}

// How often each value stands there in a row.
fn tell_runs(told: &mut String, bytes: &[u8]) -> Result<(), AllocError> {
    told.push_str("read")?;
    let mut from = 0;
    for at in 0..bytes.len() {
        if at + 1 == bytes.len() || bytes[at + 1] != bytes[at] {
            let byte = bytes[at];
            let count = (at + 1).saturating_sub(from);
            write!(told, " {byte}x{count}")?;
            from = at + 1;
        }
    }
    told.push('\n')
}

fn tell_read(told: &mut String, bench: &Bench, place: Place) -> Result<(), AllocError> {
    match bench.extents.read(&bench.cache, place) {
        Ok(bytes) => tell_runs(told, bytes.as_slice()),
        Err(refusal) => tell(told, "read", refusal),
    }
}

// A bench, and how many appends there were.
#[derive(Drop)]
struct Walker {
    bench: Bench,
    appends: u8,
}

// So many bytes of the value of the count of appends.
fn append_some(
    walker: &mut Walker,
    alloc: Global,
    writer: Option<WriterNo>,
    extent: u32,
    len: usize,
    after: &[PatchNo],
) -> Result<Appended, AppendRefusal> {
    walker.appends = walker.appends.saturating_add(1);
    match vec![in alloc; walker.appends; len] {
        Ok(bytes) => append(&mut walker.bench, writer, extent, bytes.as_slice(), after),
        Err(_) => Err(AppendRefusal::OutOfMemory),
    }
}

// One of two writers.
fn writer_of(writer: u8) -> WriterNo {
    WriterNo(if writer == 0 { 0 } else { 1 })
}

fn tell_move(
    told: &mut String,
    alloc: Global,
    walker: &mut Walker,
    step: Move,
) -> Result<(), AllocError> {
    match step {
        Append { extent, len } => {
            let answer = append_some(walker, alloc, None, extent, len, &[]);
            tell(told, "append", answer)
        }
        By {
            writer,
            extent,
            len,
        } => {
            let writer = Some(writer_of(writer));
            let answer = append_some(walker, alloc, writer, extent, len, &[]);
            tell(told, "append", answer)
        }
        Behind { extent, after } => {
            let answer = append_some(walker, alloc, None, extent, 1, &[PatchNo(after)]);
            tell(told, "append", answer)
        }
        Reset { extent } => tell(told, "reset", reset(&mut walker.bench, extent)),
        Read(place) => tell_read(told, &walker.bench, place),
        Trace => tell_trace(told, alloc, &mut walker.bench.cache),
        Group => tell(told, "group", walker.bench.groups.create()),
        Engage { writer, group } => {
            let groups = &mut walker.bench.groups;
            tell(
                told,
                "engage",
                groups.engage(writer_of(writer), GroupNo(group)),
            )
        }
        Leave { writer, group } => {
            let groups = &mut walker.bench.groups;
            tell(
                told,
                "leave",
                groups.disengage(writer_of(writer), GroupNo(group)),
            )
        }
        Order { group, on } => {
            let groups = &mut walker.bench.groups;
            tell(told, "order", groups.depend(GroupNo(group), GroupNo(on)))
        }
    }
}

fn tell_moves(
    told: &mut String,
    alloc: Global,
    walker: &mut Walker,
    moves: &[Move],
) -> Result<(), AllocError> {
    for step in moves {
        tell_move(told, alloc, walker, *step)?;
    }
    Ok(())
}

// Walks through the moves on a disk of this format with these pointer records, and what is told is this.
fn expect_told(
    rt: &impl Abort,
    alloc: Global,
    format: Format,
    records: &[u8],
    moves: &[Move],
    want: &str,
) -> Result<(), Fail> {
    let mut told = String::new(alloc);
    let mut walker = Walker {
        bench: open_bench(rt, alloc, format, records)?,
        appends: 0,
    };
    let ended = tell_moves(&mut told, alloc, &mut walker, moves);
    drop(walker);
    expect_equal(rt, "told", (ended, told.as_str()), (Ok(()), want));
    Ok(())
}

#[test]
fn appends_and_resets_are_as_worked(rt: HostRuntime) -> Result<(), Fail> {
    expect_told(&rt, rt.alloc(), Format::One, &[], WORKED, WORKED_TOLD)
}

#[test]
fn long_extents_are_filled(rt: HostRuntime) -> Result<(), Fail> {
    let format = Format::Two { length: 64 };
    expect_told(&rt, rt.alloc(), format, &[], LONG, LONG_TOLD)
}

#[test]
fn groups_order_appends(rt: HostRuntime) -> Result<(), Fail> {
    expect_told(&rt, rt.alloc(), Format::One, &[], GROUPED, GROUPED_TOLD)
}

#[test]
fn the_last_generation_stays(rt: HostRuntime) -> Result<(), Fail> {
    let records = [0xff, 0xff, 0xff, 0xff, 0, 0, 0, 7];
    expect_told(&rt, rt.alloc(), Format::One, &records, SPENT, SPENT_TOLD)
}

// Pointer records on a disk of this format, and why it isn't opened: a pointer past its extent, and a byte behind the records. The
// largest pointer of each version is opened.
const RECORDS: &[(&'static str, Format, &'static [u8], Option<ExtentsFault>)] = &[
    ("full", Format::One, b"\0\0\0\0\0\x01\0\0", None),
    ("past", Format::One, b"\0\0\0\0\0\x01\0\x01", BAD_POINTER),
    (
        "behind",
        Format::One,
        b"\0\0\0\0\0\0\0\0\0\0\0\0\0\0\0\0\x01",
        BAD_POINTER,
    ),
    (
        "long",
        Format::Two { length: 64 },
        b"\0\0\0\0\0\x01\0\x01",
        None,
    ),
    (
        "longest",
        Format::Two { length: 64 },
        b"\0\0\0\0\0\x04\0\0",
        None,
    ),
];

const BAD_POINTER: Option<ExtentsFault> = Some(ExtentsFault::BadPointer);

// Why the extents of a cache aren't opened.
fn fault_of(
    rt: &impl Abort,
    alloc: Global,
    format: Format,
    records: &[u8],
) -> Result<Option<ExtentsFault>, OutOfMemory> {
    let cache = open_cache(rt, alloc, format, records)?;
    let fault = open_extents(rt, alloc, &cache, format).err();
    drop(cache);
    Ok(fault)
}

// The same behind one more patch, of the first pointer record.
fn fault_behind(
    rt: &impl Abort,
    alloc: Global,
    cache: &mut Cache,
    record: &[u8],
) -> Option<ExtentsFault> {
    let patch = cache.create(BlockNo(2), 0, record, &[], Undo::MayDrop);
    assert!(rt; patch.is_ok());
    open_extents(rt, alloc, cache, Format::One).err()
}

// The cache's pointer is mended, and broken again.
fn expect_cached(rt: &impl Abort, alloc: Global) -> Result<(), Fail> {
    let mut cache = open_cache(rt, alloc, Format::One, b"\0\0\0\0\0\x01\0\x01")?;
    let mended = fault_behind(rt, alloc, &mut cache, b"\0\0\0\0\0\x01\0\0");
    let broken = fault_behind(rt, alloc, &mut cache, b"\0\0\0\0\0\x02\0\0");
    drop(cache);
    expect_equal(rt, "faults", (mended, broken), (None, BAD_POINTER));
    Ok(())
}

#[test]
fn pointers_are_those_that_are_cached(rt: HostRuntime) -> Result<(), Fail> {
    expect_cached(&rt, rt.alloc())
}

fn expect_records(rt: &impl Abort, alloc: Global) -> Result<(), Fail> {
    for (what, format, records, fault) in RECORDS {
        let got = fault_of(rt, alloc, *format, records)?;
        expect_equal(rt, what, got, *fault);
    }
    Ok(())
}

#[test]
fn bad_pointers_are_refused(rt: HostRuntime) -> Result<(), Fail> {
    expect_records(&rt, rt.alloc())
}

fn pointer_of(rt: &impl Abort, extents: &Extents, extent: u32) -> (u32, u32) {
    assert!(rt; extent < extents.geometry().extents);
    extents.pointer(extent)
}

// The second extent's pointer behind an append and behind a reset, and the first one's.
fn pointers_told(rt: &impl Abort, bench: &mut Bench) -> [(Said, (u32, u32)); 3] {
    let appended = kind_of(append(bench, None, 1, b"bytes", &[]));
    let behind_append = pointer_of(rt, &bench.extents, 1);
    let emptied = kind_of(reset(bench, 1));
    [
        (appended, behind_append),
        (emptied, pointer_of(rt, &bench.extents, 1)),
        (Ok(()), pointer_of(rt, &bench.extents, 0)),
    ]
}

fn expect_pointers(rt: &impl Abort, alloc: Global) -> Result<(), Fail> {
    let mut bench = open_bench(rt, alloc, Format::One, &[])?;
    let told = pointers_told(rt, &mut bench);
    drop(bench);
    let want = [(Ok(()), (0, 5)), (Ok(()), (1, 0)), (Ok(()), (0, 0))];
    expect_equal(rt, "pointers", told, want);
    Ok(())
}

#[test]
fn pointers_are_told(rt: HostRuntime) -> Result<(), Fail> {
    expect_pointers(&rt, rt.alloc())
}
