//! Scripts on disks in memory: what is answered, and what the disk holds then.
use super::files::{OK, UPGRADED};
use super::*;
use patch_replay::BadScript;
use patch_script::{Defect, Name};

const SCRIPT: &str = r#"{"op":"put","key":"b","hex":"0102"}
{"op":"put","key":"a","hex":"5a","times":3}
{"op":"get","key":"a"}
{"op":"get","key":"c"}
{"op":"put","key":"","hex":"00"}
{"op":"put","key":"e","hex":""}
{"op":"get","key":"e"}
{"op":"delete","key":"e"}
{"op":"delete","key":"e"}
{"op":"reclaim","extent":0}
{"op":"reclaim","extent":2}"#;

const ANSWERS: &str =
    "ok\nok\nvalue 5a5a5a\nnone\nrefused KeyLength\nok\nvalue\nok\nrefused NoKey\nrefused OpenExtent\nrefused NoSuchExtent\n";

const HELD: &str = "entry 61 3\nentry 62 2\nextent 0 0 56 39\nextent 1 0 0 0\nclean\n";

const GROUPS: &str = r#"{"op":"group"}
{"op":"engage","group":0}
{"op":"put","key":"a","hex":"01"}
{"op":"pending","group":0}
{"op":"disengage","group":0}
{"op":"group","writer":1}
{"op":"depend","group":1,"on":0}
{"op":"engage","group":1,"writer":1}
{"op":"put","key":"b","hex":"02","writer":1}
{"op":"sync","group":1}
{"op":"pending","group":0}
{"op":"close","group":0}
{"op":"sync","group":0}
{"op":"engage","group":7}"#;

const OF_GROUPS: &str =
    "group 0\nok\nok\npending 3\nok\ngroup 1\nok\nok\nok\nsynced\npending 0\nok\nrefused NoSuchGroup\nrefused NoSuchGroup\n";

const PUT_LONG: &str = r#"{"op":"put","key":"v","hex":"09","times":65488}"#;

const REFUSED: End = End(Status::Done, 0, "refused ValueLength\n");

const AGAIN: End = End(Status::Failed, 4, "fault AlreadyVersion2\n");

const BAD_LINE: Status = Status::Unreadable(BadScript::BadLine {
    line: 3,
    defect: Defect::Missing(Name::Hex),
});

const WITHOUT_HEX: &str = r#"{"op":"put","key":"a","hex":"01"}

{"op":"put","key":"a"}"#;

// Commands on a new disk, and whether they leave it as it is.
struct Row(&'static [Turn<'static>], bool);

static ROWS: [Row; 4] = [
    // A script is answered, and stands on the disk.
    Row(
        &[
            (Deed::Check, EMPTY_STORE),
            (Deed::Run(SCRIPT), End(Status::Done, 0, ANSWERS)),
            (Deed::Check, End(Status::Done, 0, HELD)),
            (
                Deed::Run(r#"{"op":"get","key":"b"}"#),
                End(Status::Done, 0, "value 0102\n"),
            ),
        ],
        false,
    ),
    // Groups are made, ordered and synced.
    Row(
        &[(Deed::Run(GROUPS), End(Status::Done, 0, OF_GROUPS))],
        false,
    ),
    // A script with an unreadable line does nothing.
    Row(
        &[(Deed::Run(WITHOUT_HEX), End(BAD_LINE, 3, "bad line 3\n"))],
        true,
    ),
    // An upgraded disk takes longer values.
    Row(
        &[
            (Deed::Run(PUT_LONG), REFUSED),
            (Deed::Upgrade, UPGRADED),
            (Deed::Run(PUT_LONG), OK),
            (Deed::Upgrade, AGAIN),
        ],
        false,
    ),
];

fn expect_row(rt: &impl Abort, alloc: Global, turns: &[Turn<'_>], is_left: bool) {
    let mut device = new_device(rt, alloc);
    expect_on(rt, alloc, &mut device, turns);
    expect_eq(rt, &(device.writes().len() == 1), &is_left);
    drop(device);
}

#[test]
fn scripts_are_answered_and_stand_on_the_disk(rt: HostRuntime) {
    for Row(turns, is_left) in &ROWS {
        expect_row(&rt, rt.alloc(), turns, *is_left);
    }
}

fn expect_too_long(rt: &impl Abort, alloc: Global, script: &[u8]) {
    let mut device = new_device(rt, alloc);
    let mut out = Sink::new(Vec::new(alloc));
    let mut source = Source::new(script);
    let status = run_script(alloc, &mut source, &mut out, &mut device, &mut Quiet);
    let why = Status::Unreadable(BadScript::TooLong);
    let end = End(why, 3, "fault ScriptTooLong\n");
    expect_end(rt, status, out.into_inner().as_slice(), end);
    expect_eq(rt, &device.writes().len(), &1);
    drop(device);
}

#[test]
fn a_script_that_is_too_long_does_nothing(rt: HostRuntime) {
    for (byte, count) in [(b' ', 16_777_217), (b'\n', 100_001)] {
        let script = vec![in rt.alloc(); byte; count].expect(&rt, "memory for a script");
        expect_too_long(&rt, rt.alloc(), &script);
        drop(script);
    }
}
