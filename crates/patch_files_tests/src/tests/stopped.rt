//! Runs on a file that stop in the middle: what the file holds then.
use super::files::{HELD, MADE, OK, PUT, follow};
use super::weak::{ALL, WeakReader, WeakWriter, Well};
use super::*;
use patch_files::{Barriers, Reclaims, run_file, serve_file};
use patch_replay::BadScript;
use patch_script::{Defect, Name};
use std::fs;
use std::fs::OpenFile;
use std::os::unix::fs::FileExt;
use std::rt::Files;
use std::sync::Wait;
use std::thread::Threads;

const TWO_PUTS: &str = r#"{"op":"put","key":"a","hex":"01"}
{"op":"put","key":"b","hex":"02"}"#;

const UNREADABLE: &str = r#"{"op":"put","key":"a","hex":"01"}
{"op":"put","key":"b"}
{"op":"put","key":"c","hex":"03"}"#;

const SYNCED: &str = r#"{"op":"group"}
{"op":"put","key":"a","hex":"01"}
{"op":"sync","group":0}
{"op":"put","key":"b","hex":"02"}"#;

const BAD_LINE: Status = Status::Unreadable(BadScript::BadLine {
    line: 2,
    defect: Defect::Missing(Name::Hex),
});

const UNREAD: End = End(BAD_LINE, 3, "bad line 2\n");

// Beside the key that the file had: the first of two puts, or both.
const WITH_ONE: End = End(
    Status::Done,
    0,
    "entry 61 1\nentry 6b 2\nextent 0 0 37 37\nextent 1 0 0 0\nclean\n",
);

const WITH_TWO: End = End(
    Status::Done,
    0,
    "entry 61 1\nentry 62 1\nentry 6b 2\nextent 0 0 55 55\nextent 1 0 0 0\nclean\n",
);

// How many writers have threads, if any do, their script, what goes well of the streams, how the run ends, and what a check of the file
// writes then: `None` where no byte of it has changed.
struct Row(Option<u32>, &'static str, Well, End, Option<End>);

static ROWS: [Row; 12] = [
    // Of a script with an unreadable line, or one that can't be read to its end, nothing is done.
    Row(None, UNREADABLE, ALL, UNREAD, None),
    Row(Some(2), UNREADABLE, ALL, UNREAD, None),
    Row(
        None,
        TWO_PUTS,
        Well { pieces: 1, ..ALL },
        End(Status::Failed, 4, "fault Read\n"),
        None,
    ),
    Row(
        Some(2),
        TWO_PUTS,
        Well { pieces: 1, ..ALL },
        End(Status::Failed, 4, "fault Read\n"),
        None,
    ),
    // Where an answer isn't taken, what no sync has brought to the file is lost.
    Row(
        None,
        TWO_PUTS,
        Well { texts: 0, ..ALL },
        End(Status::Failed, 4, ""),
        None,
    ),
    Row(
        None,
        TWO_PUTS,
        Well { texts: 1, ..ALL },
        End(Status::Failed, 4, "ok\n"),
        None,
    ),
    Row(
        None,
        SYNCED,
        Well { texts: 1, ..ALL },
        End(Status::Failed, 4, "group 0\n"),
        None,
    ),
    Row(
        None,
        SYNCED,
        Well { texts: 2, ..ALL },
        End(Status::Failed, 4, "group 0\nok\n"),
        Some(WITH_ONE),
    ),
    Row(
        None,
        SYNCED,
        Well { texts: 3, ..ALL },
        End(Status::Failed, 4, "group 0\nok\nsynced\n"),
        Some(WITH_ONE),
    ),
    // Behind all answers all is in the file.
    Row(
        None,
        TWO_PUTS,
        Well { flushes: 0, ..ALL },
        End(Status::Failed, 4, "ok\nok\n"),
        Some(WITH_TWO),
    ),
    // Answers to writers on threads are written when all is in the file.
    Row(
        Some(2),
        TWO_PUTS,
        Well { texts: 0, ..ALL },
        End(Status::Failed, 4, ""),
        Some(WITH_TWO),
    ),
    Row(
        Some(2),
        TWO_PUTS,
        Well { texts: 1, ..ALL },
        End(Status::Failed, 4, "ok\n"),
        Some(WITH_TWO),
    ),
];

const PATH: &str = "patch_files_stopped";

// The script is run on the file so.
fn end_of<F: FileExt + OpenFile + Drop + Send, H: Files<File = F> + Threads + Wait + Abort + Sync>(
    rt: &H,
    alloc: Global,
    barriers: Barriers,
    row: &Row,
    out: &mut Sink<WeakWriter>,
) -> Status {
    let mut source = Source::new(WeakReader::new(row.1, row.2));
    match row.0 {
        Some(writers) => {
            assert!(rt; 0 < writers && writers <= 8);
            serve_file(rt, alloc, &mut source, out, PATH, barriers, writers)
        }
        None => run_file(
            rt,
            alloc,
            &mut source,
            out,
            PATH,
            barriers,
            Reclaims::ByHand,
            &mut Quiet,
        ),
    }
}

fn expect_row<
    F: FileExt + OpenFile + Drop + Send,
    H: Files<File = F> + Threads + Wait + Abort + Sync,
>(rt: &H, files: &HostRuntime, barriers: Barriers, row: &Row) {
    let alloc = files.alloc();
    let _old = fs::remove_file(files, PATH);
    let turns = [(Deed::Make(SMALL), MADE), (Deed::Run(PUT), OK)];
    follow(rt, alloc, PATH, &turns);
    let before = fs::read(files, PATH).expect(rt, "a file that is read");
    let mut out = Sink::new(WeakWriter::new(alloc, row.2));
    let status = end_of(rt, alloc, barriers, row, &mut out);
    expect_end(rt, status, out.into_inner().taken.as_slice(), row.3);
    let now = fs::read(files, PATH).expect(rt, "a file that is read");
    let same = before.as_slice() == now.as_slice();
    expect_eq(
        rt,
        &(row.1, row.3.2, same),
        &(row.1, row.3.2, row.4.is_none()),
    );
    let held = row.4.unwrap_or(HELD);
    follow(rt, alloc, PATH, &[(Deed::Check, held)]);
    fs::remove_file(files, PATH).expect(rt, "a file that is there");
}

#[test]
fn a_run_that_stops_brings_nothing_more_to_the_file(rt: HostRuntime) {
    for barriers in [Barriers::On, Barriers::Off] {
        for row in &ROWS {
            expect_row(&rt, &rt, barriers, row);
        }
    }
}
