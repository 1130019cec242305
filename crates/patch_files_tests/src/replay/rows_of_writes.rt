//! Worked scripts of several blocks: writes and completions.
use super::rows::{DEFAULT_BLOCKS, Row};
use patch_replay::Status;

pub const ROWS_OF_WRITES: [Row; 14] = [
    Row {
        name: "to and fro across two blocks",
        blocks: DEFAULT_BLOCKS,
        script: r#"{"op":"patch","block":0,"start":0,"hex":"aa"}
{"op":"patch","block":1,"start":0,"hex":"bb","after":[0]}
{"op":"patch","block":0,"start":1,"hex":"cc","after":[1]}
{"op":"send","block":0}
{"op":"complete","block":0}
{"op":"disk","block":0,"start":0,"len":2}
{"op":"send","block":1}
{"op":"send","block":0}
{"op":"disk","block":1,"start":0,"len":2}
{"op":"complete","block":1}
{"op":"send","block":0}
{"op":"disk","block":0,"start":0,"len":2}
{"op":"disk","block":1,"start":0,"len":2}
{"op":"complete","block":0}
{"op":"disk","block":0,"start":0,"len":3}
"#,
        answers: "patch 0\npatch 1\npatch 2\nsent 0 0\ndurable 0 0\ndisk aa00\nsent 1 1\nrefused NothingReady\ndisk 0000\ndurable 1 1\nsent 0 2\ndisk aa00\ndisk bb00\ndurable 0 2\ndisk aacc00\n",
        status: Status::Done,
    },
    Row {
        name: "a later patch is durable before one that is taken back",
        blocks: DEFAULT_BLOCKS,
        script: r#"{"op":"patch","block":1,"start":0,"hex":"dd"}
{"op":"patch","block":0,"start":0,"hex":"aa","after":[0]}
{"op":"patch","block":0,"start":4,"hex":"bb"}
{"op":"send","block":0}
{"op":"complete","block":0}
{"op":"view","block":0,"take":[1],"start":0,"len":5}
{"op":"disk","block":0,"start":0,"len":6}
"#,
        answers: "patch 0\npatch 1\npatch 2\nsent 0 2\ndurable 0 2\nwithout 00000000bb cached aa000000bb\ndisk 00000000bb00\n",
        status: Status::Done,
    },
    Row {
        name: "a patch over one in flight",
        blocks: DEFAULT_BLOCKS,
        script: r#"{"op":"patch","block":0,"start":0,"hex":"11"}
{"op":"send","block":0}
{"op":"patch","block":0,"start":0,"hex":"22"}
{"op":"send","block":0}
{"op":"merge","a":0,"b":1}
{"op":"merge","a":1,"b":0}
{"op":"view","block":0,"take":[1],"start":0,"len":1}
{"op":"view","block":0,"take":[0],"start":0,"len":1}
{"op":"complete","block":0}
{"op":"disk","block":0,"start":0,"len":1}
{"op":"view","block":0,"take":[0],"start":0,"len":1}
{"op":"send","block":0}
{"op":"disk","block":0,"start":0,"len":1}
{"op":"complete","block":0}
{"op":"disk","block":0,"start":0,"len":2}
"#,
        answers: "patch 0\nsent 0 0\npatch 1\nrefused AlreadyInFlight\nrefused NotInMemory 0\nrefused NotInMemory 0\nwithout 11 cached 22\nrefused InFlight\ndurable 0 0\ndisk 11\nrefused Durable\nsent 0 1\ndisk 11\ndurable 0 1\ndisk 2200\n",
        status: Status::Done,
    },
    Row {
        name: "a completion that nobody waits for",
        blocks: DEFAULT_BLOCKS,
        script: r#"{"op":"complete","block":0}
"#,
        answers: "refused Stranger\n",
        status: Status::Done,
    },
    Row {
        name: "a second completion of one send",
        blocks: DEFAULT_BLOCKS,
        script: r#"{"op":"patch","block":0,"start":0,"hex":"aa"}
{"op":"send","block":0}
{"op":"complete","block":0}
{"op":"complete","block":0}
"#,
        answers: "patch 0\nsent 0 0\ndurable 0 0\nrefused Stranger\n",
        status: Status::Done,
    },
    Row {
        name: "two patches in one write",
        blocks: DEFAULT_BLOCKS,
        script: r#"{"op":"patch","block":0,"start":0,"hex":"aa"}
{"op":"patch","block":0,"start":1,"hex":"bb"}
{"op":"send","block":0}
{"op":"complete","block":0}
{"op":"disk","block":0,"start":0,"len":3}
"#,
        answers: "patch 0\npatch 1\nsent 0 0,1\ndurable 0 0,1\ndisk aabb00\n",
        status: Status::Done,
    },
    Row {
        name: "a patch that waits for another block keeps its bytes",
        blocks: DEFAULT_BLOCKS,
        script: r#"{"op":"patch","block":1,"start":0,"hex":"33"}
{"drop":true,"op":"patch","block":0,"start":4,"hex":"44","after":[0]}
{"op":"view","block":0,"take":[1],"start":0,"len":5}
{"op":"send","block":0}
"#,
        answers: "patch 0\npatch 1\nwithout 0000000000 cached 0000000044\nrefused NothingReady\n",
        status: Status::Done,
    },
    Row {
        name: "one block alone",
        blocks: 1,
        script: r#"{"op":"patch","block":1,"start":0,"hex":"aa"}
"#,
        answers: "refused NoSuchBlock\n",
        status: Status::Done,
    },
    Row {
        name: "a write is on the disk once it is completed",
        blocks: DEFAULT_BLOCKS,
        script: r#"{"op":"patch","block":7,"start":0,"hex":"aa"}
{"op":"disk","block":7,"start":0,"len":1}
{"op":"send","block":7}
{"op":"disk","block":7,"start":0,"len":1}
{"op":"complete","block":7}
{"op":"disk","block":7,"start":0,"len":1}
"#,
        answers: "patch 0\ndisk 00\nsent 7 0\ndisk 00\ndurable 7 0\ndisk aa\n",
        status: Status::Done,
    },
    Row {
        name: "a write shows what was sent, and not what came later",
        blocks: DEFAULT_BLOCKS,
        script: r#"{"op":"patch","block":0,"start":0,"hex":"aa"}
{"op":"send","block":0}
{"op":"patch","block":0,"start":0,"hex":"bb"}
{"op":"show","block":0,"start":0,"len":1}
{"op":"complete","block":0}
{"op":"disk","block":0,"start":0,"len":1}
{"op":"send","block":0}
{"op":"complete","block":0}
{"op":"disk","block":0,"start":0,"len":1}
{"op":"complete","block":0}
"#,
        answers: "patch 0\nsent 0 0\npatch 1\nshown bb\ndurable 0 0\ndisk aa\nsent 0 1\ndurable 0 1\ndisk bb\nrefused Stranger\n",
        status: Status::Done,
    },
    Row {
        name: "a write that is never completed",
        blocks: DEFAULT_BLOCKS,
        script: r#"{"op":"patch","block":0,"start":0,"hex":"aa"}
{"op":"patch","block":1,"start":0,"hex":"bb"}
{"op":"send","block":1}
{"op":"send","block":0}
"#,
        answers: "patch 0\npatch 1\nsent 1 1\nsent 0 0\n",
        status: Status::Done,
    },
    Row {
        name: "each cause of a send before the next",
        blocks: DEFAULT_BLOCKS,
        script: r#"{"op":"send","block":8}
{"op":"send","block":0}
{"op":"patch","block":0,"start":0,"hex":"aa"}
{"op":"patch","block":1,"start":0,"hex":"bb","after":[0]}
{"op":"send","block":1}
{"op":"send","block":0}
{"op":"patch","block":0,"start":4,"hex":"cc"}
{"op":"send","block":0}
{"op":"send","block":1}
{"op":"complete","block":0}
{"op":"send","block":0}
{"op":"send","block":1}
"#,
        answers: "refused NoSuchBlock\nrefused NothingReady\npatch 0\npatch 1\nrefused NothingReady\nsent 0 0\npatch 2\nrefused AlreadyInFlight\nrefused NothingReady\ndurable 0 0\nsent 0 2\nsent 1 1\n",
        status: Status::Done,
    },
    Row {
        name: "each cause of a look before the next",
        blocks: DEFAULT_BLOCKS,
        script: r#"{"op":"patch","block":0,"start":0,"hex":"aa"}
{"op":"show","block":8,"start":4096,"len":1}
{"op":"show","block":0,"start":4096,"len":1}
{"op":"show","block":0,"start":4095,"len":2}
{"op":"disk","block":8,"start":4096,"len":1}
{"op":"disk","block":0,"start":4096,"len":1}
{"op":"disk","block":0,"start":4294967295,"len":4294967295}
{"op":"disk","block":0,"start":4095,"len":1}
{"op":"view","block":8,"take":[9],"start":4096,"len":1}
{"op":"view","block":0,"take":[9],"start":4096,"len":1}
{"op":"view","block":0,"take":[9],"start":4095,"len":1}
{"op":"view","block":1,"take":[0],"start":0,"len":1}
{"op":"view","block":7,"take":[],"start":4092,"len":4}
"#,
        answers: "patch 0\nrefused NoSuchBlock\nrefused OutOfBlock\nrefused OutOfBlock\nrefused NoSuchBlock\nrefused OutOfBlock\nrefused OutOfBlock\ndisk 00\nrefused NoSuchBlock\nrefused OutOfBlock\nrefused Unknown\nrefused Unknown\nwithout 00000000 cached 00000000\n",
        status: Status::Done,
    },
    Row {
        name: "a cycle between two blocks is broken by reverting",
        blocks: DEFAULT_BLOCKS,
        script: r#"{"op":"patch","block":0,"start":0,"hex":"aa"}
{"op":"patch","block":1,"start":0,"hex":"bb","after":[0]}
{"op":"patch","block":1,"start":4,"hex":"cc"}
{"op":"patch","block":0,"start":4,"hex":"dd","after":[2]}
{"op":"send","block":0}
{"op":"complete","block":0}
{"op":"disk","block":0,"start":0,"len":5}
{"op":"send","block":1}
{"op":"complete","block":1}
{"op":"disk","block":1,"start":0,"len":5}
{"op":"send","block":0}
{"op":"complete","block":0}
{"op":"disk","block":0,"start":0,"len":5}
"#,
        answers: "patch 0\npatch 1\npatch 2\npatch 3\nsent 0 0\ndurable 0 0\ndisk aa00000000\nsent 1 1,2\ndurable 1 1,2\ndisk bb000000cc\nsent 0 3\ndurable 0 3\ndisk aa000000dd\n",
        status: Status::Done,
    },
];
