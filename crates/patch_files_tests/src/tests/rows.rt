//! Worked scripts on files: what is answered, what a check writes then, and the bytes of the file.
use super::files::{
    HELD, LENGTH, MADE, OK, PUT, Piece, UPGRADED, expect_bytes, follow, follow_anew,
};
use super::*;
use std::fs;
use std::fs::OpenFile;
use std::os::unix::fs::FileExt;
use std::rt::Files;
use std::sync::Wait;
use std::thread::Threads;

const THREE_EXTENTS: Geometry = Geometry {
    index: 1,
    extents: 3,
    format: Format::One,
};

const FOUR_EXTENTS: Geometry = Geometry {
    index: 1,
    extents: 4,
    format: Format::One,
};

const MADE_OF_THREE: End = End(Status::Done, 0, "made 51\n");

const MADE_OF_FOUR: End = End(Status::Done, 0, "made 67\n");

const OF_EACH_LENGTH: &str = r#"{"op":"put","key":"k","hex":""}
{"op":"get","key":"k"}
{"op":"delete","key":"k"}
{"op":"get","key":"k"}
{"op":"delete","key":"k"}
{"op":"put","key":"xxxxxxxxxxxxxxxxxxxxxxxxxxxxxxxx","hex":"01"}
{"op":"put","key":"xxxxxxxxxxxxxxxxxxxxxxxxxxxxxxxxx","hex":"01"}
{"op":"put","key":"v","hex":"00","times":32768}
{"op":"put","key":"w","hex":"00","times":32769}"#;

const LENGTHS: &[Turn<'static>] = &[
    (Deed::Make(FOUR_EXTENTS), MADE_OF_FOUR),
    (
        Deed::Run(OF_EACH_LENGTH),
        End(
            Status::Done,
            0,
            "ok\nvalue\nok\nnone\nrefused NoKey\nok\nrefused KeyLength\nok\nrefused ValueLength\n",
        ),
    ),
];

const TWICE: &str = r#"{"op":"put","key":"k","hex":"01"}
{"op":"put","key":"k","hex":"02"}
{"op":"get","key":"k"}"#;

const REPLACED: &[Turn<'static>] = &[
    (Deed::Make(SMALL), MADE),
    (Deed::Run(TWICE), End(Status::Done, 0, "ok\nok\nvalue 02\n")),
    (
        Deed::Check,
        End(
            Status::Done,
            0,
            "entry 6b 1\nextent 0 0 36 18\nextent 1 0 0 0\nclean\n",
        ),
    ),
];

const FULL: &str = r#"{"op":"put","key":"a","hex":"61","times":32768}
{"op":"put","key":"b","hex":"62","times":32768}
{"op":"reclaim","extent":0}
{"op":"reclaim","extent":1}
{"op":"reclaim","extent":2}"#;

const KEPT_EMPTY: &[Turn<'static>] = &[
    (Deed::Make(SMALL), MADE),
    (
        Deed::Run(FULL),
        End(
            Status::Done,
            0,
            "ok\nrefused NoSpace\nrefused OpenExtent\nrefused EmptyExtent\nrefused NoSuchExtent\n",
        ),
    ),
];

const MOVED: &str = r#"{"op":"put","key":"a","hex":"61","times":32768}
{"op":"put","key":"b","hex":"62","times":32768}
{"op":"reclaim","extent":0}"#;

const WON_BACK: &[Turn<'static>] = &[
    (Deed::Make(THREE_EXTENTS), MADE_OF_THREE),
    (Deed::Run(MOVED), End(Status::Done, 0, "ok\nok\nok\n")),
    (
        Deed::Check,
        End(
            Status::Done,
            0,
            "entry 61 32768\nentry 62 32768\nextent 0 1 0 0\nextent 1 0 32785 32785\nextent 2 0 32785 32785\nclean\n",
        ),
    ),
];

const MOVED_AGAIN: &str = r#"{"op":"put","key":"a","hex":"61","times":32768}
{"op":"put","key":"b","hex":"62","times":32768}
{"op":"reclaim","extent":0}
{"op":"reclaim","extent":1}"#;

const MOVED_BACK: &[Turn<'static>] = &[
    (Deed::Make(THREE_EXTENTS), MADE_OF_THREE),
    (
        Deed::Run(MOVED_AGAIN),
        End(Status::Done, 0, "ok\nok\nok\nok\n"),
    ),
    (
        Deed::Check,
        End(
            Status::Done,
            0,
            "entry 61 32768\nentry 62 32768\nextent 0 1 32785 32785\nextent 1 1 0 0\nextent 2 0 32785 32785\nclean\n",
        ),
    ),
];

const EMPTIED: &str = r#"{"op":"put","key":"k","hex":""}
{"op":"delete","key":"k"}
{"op":"reclaim","extent":0}
{"op":"reclaim","extent":0}
{"op":"put","key":"m","hex":"01"}"#;

const REUSED: &[Turn<'static>] = &[
    (Deed::Make(SMALL), MADE),
    (
        Deed::Run(EMPTIED),
        End(Status::Done, 0, "ok\nok\nok\nrefused EmptyExtent\nok\n"),
    ),
    (
        Deed::Check,
        End(
            Status::Done,
            0,
            "entry 6d 1\nextent 0 1 18 18\nextent 1 0 0 0\nclean\n",
        ),
    ),
];

const OF_TWO: &str = r#"{"writer":0,"op":"put","key":"a","hex":"01"}
{"writer":0,"op":"get","key":"a"}
{"writer":1,"op":"put","key":"b","hex":"02"}
{"writer":1,"op":"get","key":"c"}"#;

const SERVED_TWO: &[Turn<'static>] = &[
    (Deed::Make(SMALL), MADE),
    (
        Deed::Serve(2, OF_TWO),
        End(Status::Done, 0, "ok\nvalue 01\nok\nnone\n"),
    ),
    (
        Deed::Check,
        End(
            Status::Done,
            0,
            "entry 61 1\nentry 62 1\nextent 0 0 36 36\nextent 1 0 0 0\nclean\n",
        ),
    ),
];

const OF_THREE: &str = r#"{"writer":0,"op":"put","key":"a","hex":"01"}
{"writer":0,"op":"get","key":"a"}
{"writer":1,"op":"put","key":"b","hex":"02"}
{"writer":2,"op":"put","key":"c","hex":"03"}
{"writer":2,"op":"get","key":"z"}"#;

const SERVED_THREE: &[Turn<'static>] = &[
    (Deed::Make(SMALL), MADE),
    (
        Deed::Serve(3, OF_THREE),
        End(Status::Done, 0, "ok\nvalue 01\nok\nok\nnone\n"),
    ),
    (
        Deed::Check,
        End(
            Status::Done,
            0,
            "entry 61 1\nentry 62 1\nentry 63 1\nextent 0 0 54 54\nextent 1 0 0 0\nclean\n",
        ),
    ),
];

// The frame of key `k` with bytes 1 and 2 at the front of the first extent, its pointer record and its slot.
const FRAME: Piece<'static> = (12_288, b"FCH1\x01\0\0\0\0\0\0\x02k\x01\x021HCF");

const POINTER: Piece<'static> = (8192, b"\0\0\0\0\0\0\0\x13");

const SLOT: Piece<'static> = (4096, b"\x01\x01\0\0\0\0\0\0\0\0\0\0\0\0\0\x13k");

const SUPERBLOCK: Piece<'static> = (0, b"FSTCHUNK\0\0\0\x01\0\0\0\x01\0\0\0\x02");

const SECOND_SUPERBLOCK: Piece<'static> = (0, b"FSTCHUNK\0\0\0\x02\0\0\0\x01\0\0\0\x02\0\0\0\x10");

const AGAIN: End = End(Status::Failed, 4, "fault AlreadyVersion2\n");

// The commands end so, and then the file has these bytes over zeros, where some are named.
type Stage = (&'static [Turn<'static>], &'static [Piece<'static>]);

const WRITTEN: &[Stage] = &[
    (&[(Deed::Make(SMALL), MADE)], &[SUPERBLOCK]),
    (&[(Deed::Run(PUT), OK)], &[SUPERBLOCK, SLOT, POINTER, FRAME]),
    (
        &[(Deed::Upgrade, UPGRADED), (Deed::Check, HELD)],
        &[SECOND_SUPERBLOCK, SLOT, POINTER, FRAME],
    ),
    (
        &[(Deed::Upgrade, AGAIN)],
        &[SECOND_SUPERBLOCK, SLOT, POINTER, FRAME],
    ),
];

const LONGER: Geometry = Geometry {
    index: 1,
    extents: 2,
    format: Format::Two { length: 64 },
};

const OF_LONGER: Piece<'static> = (0, b"FSTCHUNK\0\0\0\x02\0\0\0\x01\0\0\0\x02\0\0\0\x40");

const LONG_VALUES: &str = r#"{"op":"put","key":"a","hex":"07","times":131072}
{"op":"put","key":"b","hex":"07","times":131073}"#;

const LENGTHENED: &[Stage] = &[
    (
        &[(Deed::Make(LONGER), End(Status::Done, 0, "made 131\n"))],
        &[OF_LONGER],
    ),
    (
        &[
            (
                Deed::Run(LONG_VALUES),
                End(Status::Done, 0, "ok\nrefused ValueLength\n"),
            ),
            (
                Deed::Check,
                End(
                    Status::Done,
                    0,
                    "entry 61 131072\nextent 0 0 131089 131089\nextent 1 0 0 0\nclean\n",
                ),
            ),
        ],
        &[],
    ),
];

const LONG: &str = r#"{"op":"put","key":"v","hex":"09","times":65488}"#;

const TOO_LONG: &str = r#"{"op":"put","key":"v","hex":"09","times":65489}"#;

const REFUSED: End = End(Status::Done, 0, "refused ValueLength\n");

const UPGRADING: &[Turn<'static>] = &[
    (Deed::Make(FOUR_EXTENTS), MADE_OF_FOUR),
    (Deed::Run(LONG), REFUSED),
    (Deed::Upgrade, UPGRADED),
    (Deed::Run(LONG), OK),
    (Deed::Run(TOO_LONG), REFUSED),
    (Deed::Upgrade, AGAIN),
];

const DISK: End = End(Status::Failed, 4, "fault Disk\n");

const KEPT: &[Turn<'static>] = &[
    (Deed::Check, DISK),
    (Deed::Run(PUT), DISK),
    (Deed::Make(SMALL), MADE),
    (Deed::Run(PUT), OK),
    (Deed::Make(SMALL), DISK),
    (Deed::Check, HELD),
    (Deed::Upgrade, UPGRADED),
    (Deed::Check, HELD),
];

// The path of a file that isn't there at first, and what is done with it.
type Row = (&'static str, &'static [Turn<'static>]);

static OF_VALUES: [Row; 4] = [
    // A store is kept in a file.
    ("patch_files_disk", KEPT),
    // Keys and values of each length are answered.
    ("patch_files_lengths", LENGTHS),
    // A value that is replaced stays in its extent.
    ("patch_files_twice", REPLACED),
    // An upgraded file takes longer values.
    ("patch_files_upgraded", UPGRADING),
];

static OF_EXTENTS: [Row; 4] = [
    // The last empty extent is kept.
    ("patch_files_full", KEPT_EMPTY),
    // An extent that is won back has another generation.
    ("patch_files_moved", WON_BACK),
    // A frame goes back to an extent that was won.
    ("patch_files_moved_again", MOVED_BACK),
    // A current extent without a frame is won back.
    ("patch_files_emptied", REUSED),
];

const WITHOUT_BARRIERS: &[Turn<'static>] = &[
    (Deed::Make(SMALL), MADE),
    (Deed::RunLoose(PUT), OK),
    (Deed::Check, HELD),
    (
        Deed::ServeLoose(2, OF_TWO),
        End(Status::Done, 0, "ok\nvalue 01\nok\nnone\n"),
    ),
    (
        Deed::RunLoose(OF_ALL),
        End(Status::Done, 0, "value 01\nvalue 02\nvalue 0102\n"),
    ),
];

// What was put before, with barriers or without, by one writer or by two.
const OF_ALL: &str = r#"{"op":"get","key":"a"}
{"op":"get","key":"b"}
{"op":"get","key":"k"}"#;

static OF_WRITERS: [Row; 3] = [
    ("patch_files_without_barriers", WITHOUT_BARRIERS),
    ("patch_files_of_two", SERVED_TWO),
    ("patch_files_of_three", SERVED_THREE),
];

#[test]
fn values_are_put_and_read(rt: HostRuntime) -> Result<(), Fail> {
    for (path, turns) in &OF_VALUES {
        follow_anew(&rt, rt.alloc(), path, turns)?;
    }
    Ok(())
}

#[test]
fn extents_are_won_back(rt: HostRuntime) -> Result<(), Fail> {
    for (path, turns) in &OF_EXTENTS {
        follow_anew(&rt, rt.alloc(), path, turns)?;
    }
    Ok(())
}

#[test]
fn two_and_three_writers_are_served_on_a_file(rt: HostRuntime) -> Result<(), Fail> {
    for (path, turns) in &OF_WRITERS {
        follow_anew(&rt, rt.alloc(), path, turns)?;
    }
    Ok(())
}

fn expect_stages<
    F: FileExt + OpenFile + Drop + Send,
    H: Files<File = F> + Threads + Wait + Abort + Sync,
>(rt: &H, files: &HostRuntime, path: &str, length: usize, stages: &[Stage]) {
    let _old = fs::remove_file(files, path);
    for (turns, pieces) in stages {
        follow(rt, files.alloc(), path, turns);
        if !pieces.is_empty() {
            expect_bytes(rt, files, path, length, pieces);
        }
    }
    fs::remove_file(files, path).expect(rt, "a file that is there");
}

#[test]
fn a_put_and_an_upgrade_write_just_their_bytes(rt: HostRuntime) {
    expect_stages(&rt, &rt, "patch_files_bytes", LENGTH, WRITTEN);
}

#[test]
fn a_file_of_longer_extents_takes_longer_values(rt: HostRuntime) {
    expect_stages(&rt, &rt, "patch_files_longer", 536_576, LENGTHENED);
}
