//! Lists of keys, numbers of stores, and puts that win room back.
use super::*;

const THREE: &str = r#"{"op":"put","key":"a","hex":"01"}
{"op":"put","key":"ab","hex":""}
{"op":"put","key":"k","hex":"0203"}"#;

// The frames of two such values stand in an extent, of which there are three, one of them kept empty for reclaims.
const FIVE_LONG: &str = r#"{"op":"put","key":"z","hex":"07","times":30000}
{"op":"put","key":"z","hex":"07","times":30000}
{"op":"put","key":"z","hex":"07","times":30000}
{"op":"put","key":"z","hex":"07","times":30000}
{"op":"put","key":"z","hex":"08","times":30000}"#;

const LISTED: &str = "61 1\n6162 0\n6b 2\n";

const WITH_VALUES: &str = "61 1 01\n6162 0\n6b 2 0203\n";

const NUMBERS: &str = "\
keys 3
unsynced 0
live_bytes 55
file_bytes 208896
extents 3
empty_extents 2
syncs 0
waves 0
";

const NO_KEY: &str = "a key has 1 to 32 bytes, in hexadecimal";

const GONE: &str = "fstch: patch_gone_disk: there is no such file\n";

static ROWS_OF_LISTS: [Row; 20] = [
    Row(
        "fstch make patch_list_disk --index 1 --extents 3",
        "",
        0,
        "made 51\n",
        "",
    ),
    Row("fstch list patch_list_disk", "", 0, "", ""),
    Row("fstch run patch_list_disk", THREE, 0, "ok\nok\nok\n", ""),
    Row("fstch list patch_list_disk", "", 0, LISTED, ""),
    Row(
        "fstch list patch_list_disk --values",
        "",
        0,
        WITH_VALUES,
        "",
    ),
    Row(
        "fstch list patch_list_disk --from 6162",
        "",
        0,
        "6162 0\n6b 2\n",
        "",
    ),
    Row(
        "fstch list patch_list_disk --from 6B --values",
        "",
        0,
        "6b 2 0203\n",
        "",
    ),
    Row(
        "fstch list patch_list_disk --prefix 61",
        "",
        0,
        "61 1\n6162 0\n",
        "",
    ),
    Row(
        "fstch list patch_list_disk --prefix 61 --from 6161",
        "",
        0,
        "6162 0\n",
        "",
    ),
    Row("fstch list patch_list_disk --prefix 6161", "", 0, "", ""),
    Row("fstch list patch_list_disk --from 6", "", 2, "", NO_KEY),
    Row("fstch list patch_list_disk --prefix ", "", 2, "", NO_KEY),
    Row("fstch list patch_gone_disk", "", 4, "fault Disk\n", GONE),
    Row("fstch stat patch_list_disk", "", 0, NUMBERS, ""),
    Row("fstch stat patch_gone_disk", "", 4, "fault Disk\n", GONE),
    Row(
        "fstch list --help",
        "",
        2,
        "",
        "Example: fstch list data.disk",
    ),
    Row(
        "fstch run patch_list_disk --reclaim --writers 2",
        THREE,
        2,
        "",
        "'--writers <N>'",
    ),
    Row(
        "fstch run patch_list_disk",
        FIVE_LONG,
        0,
        "ok\nok\nok\nok\nrefused NoSpace\n",
        "",
    ),
    Row(
        "fstch run patch_list_disk --reclaim",
        FIVE_LONG,
        0,
        "ok\nok\nok\nok\nok\n",
        "",
    ),
    Row(
        "fstch list patch_list_disk",
        "",
        0,
        "61 1\n6162 0\n6b 2\n7a 30000\n",
        "",
    ),
];

#[test]
fn keys_are_listed_and_room_is_won_back(rt: HostRuntime) {
    let _old = fs::remove_file(&rt, "patch_list_disk");
    expect_each(&rt, &rt, &Notes::new(), rt.alloc(), &ROWS_OF_LISTS);
    fs::remove_file(&rt, "patch_list_disk").expect(&rt, "a file that is there");
}
