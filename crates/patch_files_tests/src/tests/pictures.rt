//! Pictures of extents, and runs whose puts win room back.
use super::*;
use patch_files::run_script_in_room;
use patch_listing::{Detail, stat_disk};

const LONG: &str = r#"{"op":"put","key":"y","hex":"07","times":16000}
{"op":"put","key":"y","hex":"07","times":32000}"#;

const PICTURE: &str = "\
keys 1
unsynced 0
live_bytes 32017
file_bytes 143360
extents 2
empty_extents 1
syncs 0
waves 0

extent 0 [####################----------          ]  48% live
extent 1 [                                        ]   0% live
";

#[test]
fn a_picture_shows_how_full_the_extents_are(rt: HostRuntime) {
    let mut device = new_device(&rt, rt.alloc());
    let mut out = Sink::new(Vec::new(rt.alloc()));
    let mut source = Source::new(LONG.as_bytes());
    run_script(rt.alloc(), &mut source, &mut out, &mut device, &mut Quiet);
    let mut out = Sink::new(Vec::new(rt.alloc()));
    let status = stat_disk(rt.alloc(), &mut out, &mut device, Detail::Picture);
    let told = out.into_inner();
    expect_end(&rt, status, told.as_slice(), End(Status::Done, 0, PICTURE));
}

const FIVE: &str = r#"{"op":"put","key":"z","hex":"07","times":30000}
{"op":"put","key":"z","hex":"07","times":30000}
{"op":"put","key":"z","hex":"07","times":30000}
{"op":"put","key":"z","hex":"07","times":30000}
{"op":"put","key":"z","hex":"07","times":30000}"#;

// The frames of two of the values stand in an extent, of which there are three, one of them kept empty for reclaims.
const THREE_EXTENTS: Geometry = Geometry {
    index: 1,
    extents: 3,
    format: Format::One,
};

#[test]
fn puts_win_room_back_by_themselves(rt: HostRuntime) {
    let mut device = device_of(&rt, rt.alloc(), THREE_EXTENTS, 51);
    let mut out = Sink::new(Vec::new(rt.alloc()));
    let mut source = Source::new(FIVE.as_bytes());
    let status = run_script_in_room(rt.alloc(), &mut source, &mut out, &mut device, &mut Quiet);
    let told = out.into_inner();
    let done = End(Status::Done, 0, "ok\nok\nok\nok\nok\n");
    expect_end(&rt, status, told.as_slice(), done);
}
