//! Scripts of several writers on disks in memory: what is answered, and what the disk holds then.
use super::*;
use patch_files::{Served, run_or_serve, serve_script};
use patch_replay::BadScript;
use patch_script::Defect;
use std::sync::Wait;
use std::thread::Threads;

const OF_TWO: &str = r#"{"writer":0,"op":"put","key":"a","hex":"01"}
{"writer":0,"op":"get","key":"a"}
{"writer":1,"op":"put","key":"b","hex":"02"}
{"writer":1,"op":"get","key":"c"}"#;

const HELD_OF_TWO: &str = "entry 61 1\nentry 62 1\nextent 0 0 36 36\nextent 1 0 0 0\nclean\n";

const OF_THREE: &str = r#"{"writer":2,"op":"put","key":"c","hex":"03"}
{"op":"put","key":"a","hex":"01"}
{"writer":1,"op":"put","key":"b","hex":"02"}
{"writer":2,"op":"get","key":"z"}
{"op":"get","key":"a"}"#;

const HELD_OF_THREE: &str =
    "entry 61 1\nentry 62 1\nentry 63 1\nextent 0 0 54 54\nextent 1 0 0 0\nclean\n";

const REFUSED: &str = r#"{"op":"put","key":"","hex":"00"}
{"writer":7,"op":"delete","key":"k"}
{"writer":7,"op":"group"}
{"writer":7,"op":"pending","group":0}
{"writer":7,"op":"pending","group":1}"#;

const OF_A_THIRD: &str = r#"{"op":"put","key":"a","hex":"01"}

{"writer":2,"op":"get","key":"a"}
{"op":"sync","group":0}"#;

const OF_A_SYNC: &str = r#"{"op":"group"}

{"writer":1,"op":"sync","group":0}
{"writer":2,"op":"get","key":"a"}"#;

const SYNCED: &str = r#"{"op":"group"}
{"op":"engage","group":0,"writer":1}
{"op":"put","key":"a","hex":"01","writer":1}
{"op":"sync","group":0}
{"op":"put","key":"b","hex":"02"}"#;

const ANSWERS_TO_TWO: &str = "ok\nvalue 01\nok\nnone\n";

const ANSWERS_TO_THREE: &str = "ok\nvalue 01\nok\nok\nnone\n";

const REFUSALS: &str =
    "refused KeyLength\nrefused NoKey\ngroup 0\npending 0\nrefused NoSuchGroup\n";

const NO_SUCH_WRITER: Status = Status::Unreadable(BadScript::BadLine {
    line: 3,
    defect: Defect::NoSuchWriter,
});

const NO_SYNC: Status = Status::Unreadable(BadScript::BadLine {
    line: 3,
    defect: Defect::NoSync,
});

const NO_SYNC_IN_LINE_4: Status = Status::Unreadable(BadScript::BadLine {
    line: 4,
    defect: Defect::NoSync,
});

// Which call runs the script.
#[derive(Clone, Copy)]
enum Call {
    // That for so many writers.
    Serve(u32),
    // That for one writer, or for so many.
    RunOrServe(Option<u32>),
}

// A script on a new disk, how its run ends, and what a check writes then: none for a disk without a store.
struct Row {
    call: Call,
    script: &'static str,
    end: End,
    held: Option<End>,
}

static ROWS: [Row; 9] = [
    // Two writers are served.
    Row {
        call: Call::Serve(2),
        script: OF_TWO,
        end: End(Status::Done, 0, ANSWERS_TO_TWO),
        held: Some(End(Status::Done, 0, HELD_OF_TWO)),
    },
    // Replies are written writer by writer.
    Row {
        call: Call::Serve(3),
        script: OF_THREE,
        end: End(Status::Done, 0, ANSWERS_TO_THREE),
        held: Some(End(Status::Done, 0, HELD_OF_THREE)),
    },
    // A refusal is an answer.
    Row {
        call: Call::Serve(8),
        script: REFUSED,
        end: End(Status::Done, 0, REFUSALS),
        held: Some(EMPTY_STORE),
    },
    // A writer must be one of them.
    Row {
        call: Call::Serve(2),
        script: OF_A_THIRD,
        end: End(NO_SUCH_WRITER, 3, "bad line 3\n"),
        held: Some(EMPTY_STORE),
    },
    // Writers have no sync.
    Row {
        call: Call::Serve(2),
        script: OF_A_SYNC,
        end: End(NO_SYNC, 3, "bad line 3\n"),
        held: Some(EMPTY_STORE),
    },
    // A disk without a store serves nobody.
    Row {
        call: Call::Serve(2),
        script: OF_TWO,
        end: End(Status::Failed, 4, "fault BadSuper\n"),
        held: None,
    },
    // One call runs one writer or several.
    Row {
        call: Call::RunOrServe(None),
        script: SYNCED,
        end: End(Status::Done, 0, "group 0\nok\nok\nsynced\nok\n"),
        held: Some(End(Status::Done, 0, HELD_OF_TWO)),
    },
    Row {
        call: Call::RunOrServe(Some(2)),
        script: SYNCED,
        end: End(NO_SYNC_IN_LINE_4, 3, "bad line 4\n"),
        held: Some(EMPTY_STORE),
    },
    Row {
        call: Call::RunOrServe(Some(2)),
        script: OF_TWO,
        end: End(Status::Done, 0, ANSWERS_TO_TWO),
        held: Some(End(Status::Done, 0, HELD_OF_TWO)),
    },
];

// The script's run ends so, and the device comes back.
fn expect_served<T: Threads + Wait + Abort + Sync>(
    rt: &T,
    alloc: Global,
    device: MemDevice,
    row: &Row,
) -> MemDevice {
    let mut out = Sink::new(Vec::new(alloc));
    let mut source = Source::new(row.script.as_bytes());
    let served = match row.call {
        Call::Serve(writers) => {
            assert!(rt; 0 < writers && writers <= 8);
            serve_script(rt, alloc, &mut source, &mut out, device, writers)
        }
        Call::RunOrServe(writers) => {
            let count = writers.unwrap_or(1);
            assert!(rt; 0 < count && count <= 8);
            run_or_serve(
                rt,
                alloc,
                &mut source,
                &mut out,
                device,
                writers,
                &mut Quiet,
            )
        }
    };
    let Served { status, device } = served;
    expect_end(rt, status, out.into_inner().as_slice(), row.end);
    device.expect(rt, "the device")
}

// A script that isn't answered writes nothing.
fn expect_row<T: Threads + Wait + Abort + Sync>(rt: &T, alloc: Global, row: &Row) {
    let mut device = match row.held {
        Some(_) => new_device(rt, alloc),
        None => MemDevice::new(alloc, COUNT).expect(rt, "memory for a device"),
    };
    let before = device.writes().len();
    device = expect_served(rt, alloc, device, row);
    if row.end.1 != 0 {
        expect_eq(rt, &device.writes().len(), &before);
    }
    if let Some(held) = row.held {
        expect_on(rt, alloc, &mut device, &[(Deed::Check, held)]);
    }
    drop(device);
}

#[test]
fn scripts_of_several_writers_are_served(rt: HostRuntime) {
    for row in &ROWS {
        expect_row(&rt, rt.alloc(), row);
    }
}
