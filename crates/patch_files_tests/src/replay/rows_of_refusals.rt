//! Worked scripts of what is refused, and of what then is as before.
use super::rows::{DEFAULT_BLOCKS, Row};
use patch_replay::Status;

pub static ROWS_OF_REFUSALS: [Row; 5] = [
    Row {
        name: "which patches are made",
        blocks: DEFAULT_BLOCKS,
        script: r#"{"op":"patch","block":0,"start":4095,"hex":"61"}
{"op":"patch","block":0,"start":4095,"hex":"6161"}
{"op":"patch","block":0,"start":0,"hex":""}
{"op":"patch","block":0,"start":4096,"hex":"61"}
{"op":"patch","block":0,"start":4294967295,"hex":"61"}
{"op":"patch","block":8,"start":0,"hex":"61"}
{"op":"patch","block":8,"start":4096,"hex":"","after":[5]}
{"op":"patch","block":0,"start":4097,"hex":"","after":[5]}
{"op":"patch","block":0,"start":4096,"hex":"61","after":[5]}
{"op":"patch","block":0,"start":0,"hex":"61","after":[5]}
{"op":"patch","block":0,"start":0,"hex":"61","after":[0,1]}
{"op":"patch","block":7,"start":0,"hex":"61","after":[0]}
"#,
        answers: "patch 0\nrefused OutOfBlock\nrefused EmptyPatch\nrefused OutOfBlock\nrefused OutOfBlock\nrefused NoSuchBlock\nrefused NoSuchBlock\nrefused EmptyPatch\nrefused OutOfBlock\nrefused UnknownDependency\nrefused UnknownDependency\npatch 1\n",
        status: Status::Done,
    },
    Row {
        name: "views take and put back",
        blocks: DEFAULT_BLOCKS,
        script: r#"{"op":"patch","block":0,"start":0,"hex":"61626364"}
{"op":"patch","block":0,"start":2,"hex":"45464748"}
{"op":"view","block":0,"take":[],"start":0,"len":6}
{"op":"view","block":0,"take":[1,0],"back":[1],"start":0,"len":6}
{"op":"view","block":0,"take":[1,0],"back":[0],"start":0,"len":6}
{"op":"view","block":0,"take":[1,0],"back":[0,1],"start":0,"len":6}
{"op":"view","block":0,"take":[0],"start":0,"len":6}
{"op":"view","block":0,"take":[1,1],"start":0,"len":6}
{"op":"view","block":0,"take":[],"back":[1],"start":0,"len":6}
"#,
        answers: "patch 0\npatch 1\nwithout 616245464748 cached 616245464748\nrefused DependencyTaken 0\nwithout 616263640000 cached 616245464748\nwithout 616245464748 cached 616245464748\nrefused DependentApplied 1\nrefused AlreadyTaken\nrefused NotTaken\n",
        status: Status::Done,
    },
    Row {
        name: "spans that a block has not",
        blocks: DEFAULT_BLOCKS,
        script: r#"{"op":"patch","block":0,"start":0,"hex":"61"}
{"op":"view","block":0,"take":[],"start":4095,"len":2}
{"op":"view","block":0,"take":[],"start":4095,"len":1}
{"op":"view","block":0,"take":[],"start":4294967295,"len":1}
{"op":"view","block":0,"take":[],"start":0,"len":4097}
"#,
        answers: "patch 0\nrefused OutOfBlock\nwithout 00 cached 00\nrefused OutOfBlock\nrefused OutOfBlock\n",
        status: Status::Done,
    },
    Row {
        name: "patches that a view has not",
        blocks: DEFAULT_BLOCKS,
        script: r#"{"op":"patch","block":0,"start":0,"hex":"61"}
{"op":"patch","block":1,"start":0,"hex":"62"}
{"op":"view","block":8,"take":[7],"start":4095,"len":2}
{"op":"view","block":0,"take":[7],"start":4095,"len":2}
{"op":"view","block":0,"take":[7],"start":0,"len":1}
{"op":"view","block":0,"take":[1],"start":0,"len":1}
{"op":"view","block":0,"take":[0],"start":0,"len":1}
{"op":"view","block":0,"take":[],"start":0,"len":1}
"#,
        answers: "patch 0\npatch 1\nrefused NoSuchBlock\nrefused OutOfBlock\nrefused Unknown\nrefused Unknown\nwithout 00 cached 61\nwithout 61 cached 61\n",
        status: Status::Done,
    },
    Row {
        name: "completions that nobody waits for",
        blocks: DEFAULT_BLOCKS,
        script: r#"{"op":"complete","block":0}
{"op":"complete","block":8}
{"op":"patch","block":0,"start":0,"hex":"61"}
{"op":"send","block":8}
{"op":"send","block":1}
{"op":"send","block":0}
{"op":"complete","block":1}
{"op":"complete","block":0}
{"op":"complete","block":0}
{"op":"send","block":0}
{"op":"disk","block":0,"start":0,"len":2}
"#,
        answers: "refused Stranger\nrefused Stranger\npatch 0\nrefused NoSuchBlock\nrefused NothingReady\nsent 0 0\nrefused Stranger\ndurable 0 0\nrefused Stranger\nrefused NothingReady\ndisk 6100\n",
        status: Status::Done,
    },
];
