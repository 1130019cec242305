//! Writers on threads over a device, a reader or a writer that fails: for what cause they stop, and which device comes back.
use super::files::HELD;
use super::weak::{ALL, WeakDevice, WeakReader, WeakWriter, Well};
use super::*;
use patch_files::{Served, serve_script};
use std::sync::Wait;
use std::thread::Threads;

const PUT_AND_GET: &str = r#"{"op":"put","key":"k","hex":"0102"}
{"op":"get","key":"k"}"#;

// Behind the frame and the pointer, without the slot.
const UNNAMED: End = End(Status::Done, 0, "extent 0 0 19 0\nextent 1 0 0 0\nclean\n");

// What goes well, how the run ends, and of the device that comes back how often it was written, the first time with a new disk, and what a
// check writes then.
struct Row(Well, End, Option<(usize, End)>);

const ANSWERED: End = End(Status::Done, 0, "ok\nvalue 0102\n");

// The put writes block 3, then block 2, and then block 1, with a sync behind each. Then all blocks are read back.
static ROWS: [Row; 17] = [
    Row(ALL, ANSWERED, Some((4, HELD))),
    // The device, as it is opened.
    Row(
        Well { reads: 3, ..ALL },
        End(Status::Failed, 4, "fault Disk\n"),
        Some((1, EMPTY_STORE)),
    ),
    // A block that is written.
    Row(
        Well { writes: 0, ..ALL },
        End(Status::Failed, 4, "fault DeviceGaveUp 3\n"),
        Some((1, EMPTY_STORE)),
    ),
    Row(
        Well { writes: 1, ..ALL },
        End(Status::Failed, 4, "fault DeviceGaveUp 2\n"),
        Some((2, EMPTY_STORE)),
    ),
    Row(
        Well { writes: 2, ..ALL },
        End(Status::Failed, 4, "fault DeviceGaveUp 1\n"),
        Some((3, UNNAMED)),
    ),
    // A sync, and what is left to be done behind the last one.
    Row(
        Well { syncs: 0, ..ALL },
        End(Status::Failed, 4, "fault Disk\n"),
        Some((2, EMPTY_STORE)),
    ),
    Row(
        Well { syncs: 2, ..ALL },
        End(Status::Failed, 4, "fault Disk\n"),
        Some((4, HELD)),
    ),
    Row(
        Well { finishes: 0, ..ALL },
        End(Status::Failed, 4, "fault Disk\n"),
        Some((4, HELD)),
    ),
    // A block that is read back, or was forgotten.
    Row(
        Well { reads: 40, ..ALL },
        End(Status::Failed, 4, "fault DeviceGaveUp 5\n"),
        Some((4, HELD)),
    ),
    Row(
        Well {
            forgets: true,
            ..ALL
        },
        End(Status::Failed, 4, "fault ReadBack 1\n"),
        None,
    ),
    // The reader, at once, in the middle, and at the end.
    Row(
        Well { pieces: 0, ..ALL },
        End(Status::Failed, 4, "fault Read\n"),
        Some((1, EMPTY_STORE)),
    ),
    Row(
        Well { pieces: 1, ..ALL },
        End(Status::Failed, 4, "fault Read\n"),
        Some((1, EMPTY_STORE)),
    ),
    Row(
        Well { pieces: 2, ..ALL },
        End(Status::Failed, 4, "fault Read\n"),
        Some((1, EMPTY_STORE)),
    ),
    // The writer, at each answer, and when it is flushed. All is on the device by then.
    Row(
        Well { texts: 0, ..ALL },
        End(Status::Failed, 4, ""),
        Some((4, HELD)),
    ),
    Row(
        Well { texts: 1, ..ALL },
        End(Status::Failed, 4, "ok\n"),
        Some((4, HELD)),
    ),
    Row(
        Well { flushes: 0, ..ALL },
        End(Status::Failed, 4, "ok\nvalue 0102\n"),
        Some((4, HELD)),
    ),
    // The line that tells of the reader isn't taken.
    Row(
        Well {
            pieces: 1,
            texts: 0,
            ..ALL
        },
        End(Status::Failed, 4, ""),
        Some((1, EMPTY_STORE)),
    ),
];

// The device that comes back is the one of this name, and holds this.
fn expect_back(
    rt: &impl Abort,
    alloc: Global,
    device: Option<WeakDevice>,
    name: usize,
    want: Option<(usize, End)>,
) {
    expect_eq(rt, &(name, device.is_some()), &(name, want.is_some()));
    if let (Some(device), Some((writes, held))) = (device, want) {
        let WeakDevice {
            mut inner,
            name: own,
            ..
        } = device;
        expect_eq(rt, &(own, inner.writes().len()), &(name, writes));
        expect_on(rt, alloc, &mut inner, &[(Deed::Check, held)]);
        drop(inner);
    }
}

// Two writers are served so. The second has no lines.
fn expect_row<T: Threads + Wait + Abort + Sync>(rt: &T, alloc: Global, name: usize, row: &Row) {
    let Row(well, end, back) = row;
    let device = WeakDevice::new(new_device(rt, alloc), name, *well);
    let mut source = Source::new(WeakReader::new(PUT_AND_GET, *well));
    let mut out = Sink::new(WeakWriter::new(alloc, *well));
    let served = serve_script(rt, alloc, &mut source, &mut out, device, 2);
    let Served { status, device } = served;
    expect_end(rt, status, out.into_inner().taken.as_slice(), *end);
    expect_back(rt, alloc, device, name, *back);
}

#[test]
fn writers_are_told_why_they_stop_and_the_device_comes_back(rt: HostRuntime) {
    for (number, row) in ROWS.iter().enumerate() {
        expect_row(&rt, rt.alloc(), number, row);
    }
}
