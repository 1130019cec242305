//! Worked scripts of merges.
use super::rows::{DEFAULT_BLOCKS, Row};
use patch_replay::Status;

pub const ROWS_OF_MERGES: [Row; 9] = [
    Row {
        name: "merged patches are taken together",
        blocks: DEFAULT_BLOCKS,
        script: r#"{"op":"patch","block":0,"start":0,"hex":"a1a2a3a4"}
{"op":"patch","block":0,"start":2,"hex":"b1b2b3b4"}
{"op":"merge","a":0,"b":1}
{"op":"view","block":0,"take":[0],"start":0,"len":6}
{"op":"view","block":0,"take":[1],"start":0,"len":6}
{"op":"merge","a":1,"b":0}
"#,
        answers: "patch 0\npatch 1\nmerged 0\nwithout 000000000000 cached a1a2b1b2b3b4\nwithout 000000000000 cached a1a2b1b2b3b4\nrefused Same\n",
        status: Status::Done,
    },
    Row {
        name: "a third class lies between two on their block",
        blocks: DEFAULT_BLOCKS,
        script: r#"{"op":"patch","block":0,"start":0,"hex":"01010101"}
{"op":"patch","block":0,"start":2,"hex":"02020202"}
{"op":"patch","block":0,"start":4,"hex":"03030303"}
{"op":"merge","a":0,"b":2}
{"op":"merge","a":2,"b":0}
"#,
        answers: "patch 0\npatch 1\npatch 2\nrefused WouldCycle 1\nrefused WouldCycle 1\n",
        status: Status::Done,
    },
    Row {
        name: "a class is not merged with one apart from it",
        blocks: DEFAULT_BLOCKS,
        script: r#"{"op":"patch","block":0,"start":0,"hex":"aa"}
{"op":"patch","block":0,"start":2,"hex":"bb"}
{"op":"merge","a":0,"b":1}
"#,
        answers: "patch 0\npatch 1\nrefused Apart\n",
        status: Status::Done,
    },
    Row {
        name: "a class of two above a later patch",
        blocks: DEFAULT_BLOCKS,
        script: r#"{"op":"patch","block":0,"start":0,"hex":"aaaa"}
{"op":"patch","block":0,"start":4,"hex":"bbbb"}
{"op":"patch","block":0,"start":2,"hex":"cccccc"}
{"op":"merge","a":0,"b":2}
{"op":"view","block":0,"take":[1],"start":0,"len":6}
{"op":"view","block":0,"take":[0],"start":0,"len":6}
{"op":"view","block":0,"take":[0,1],"start":0,"len":6}
{"op":"send","block":0}
{"op":"complete","block":0}
{"op":"disk","block":0,"start":0,"len":7}
"#,
        answers: "patch 0\npatch 1\npatch 2\nmerged 0\nrefused DependentApplied 0\nwithout 00000000bbbb cached aaaaccccccbb\nwithout 000000000000 cached aaaaccccccbb\nsent 0 0,1,2\ndurable 0 0,1,2\ndisk aaaaccccccbb00\n",
        status: Status::Done,
    },
    Row {
        name: "a third class lies between two by other blocks",
        blocks: DEFAULT_BLOCKS,
        script: r#"{"op":"patch","block":0,"start":0,"hex":"aa"}
{"op":"patch","block":1,"start":0,"hex":"bb","after":[0]}
{"op":"patch","block":2,"start":0,"hex":"cc","after":[1]}
{"op":"patch","block":0,"start":1,"hex":"dd","after":[2]}
{"op":"merge","a":0,"b":3}
"#,
        answers: "patch 0\npatch 1\npatch 2\npatch 3\nrefused WouldCycle 1\n",
        status: Status::Done,
    },
    Row {
        name: "which classes become one",
        blocks: DEFAULT_BLOCKS,
        script: r#"{"op":"patch","block":0,"start":0,"hex":"aa"}
{"op":"patch","block":0,"start":1,"hex":"bb"}
{"op":"patch","block":1,"start":0,"hex":"cc"}
{"op":"merge","a":0,"b":9}
{"op":"merge","a":0,"b":0}
{"op":"merge","a":0,"b":2}
{"op":"merge","a":0,"b":1}
{"op":"send","block":0}
{"op":"complete","block":0}
{"op":"merge","a":0,"b":1}
{"op":"merge","a":2,"b":1}
{"op":"disk","block":0,"start":0,"len":3}
{"op":"disk","block":1,"start":0,"len":1}
"#,
        answers: "patch 0\npatch 1\npatch 2\nrefused Unknown\nrefused Same\nrefused OtherBlock\nmerged 0\nsent 0 0,1\ndurable 0 0,1\nrefused NotInMemory 0\nrefused NotInMemory 1\ndisk aabb00\ndisk 00\n",
        status: Status::Done,
    },
    Row {
        name: "hard patches are neither merged nor taken",
        blocks: DEFAULT_BLOCKS,
        script: r#"{"drop":true,"op":"patch","block":0,"start":0,"hex":"11"}
{"drop":true,"op":"patch","block":0,"start":0,"hex":"22"}
{"op":"merge","a":0,"b":1}
{"op":"merge","a":1,"b":0}
{"op":"view","block":0,"take":[1],"start":0,"len":1}
{"op":"send","block":0}
{"op":"complete","block":0}
{"op":"disk","block":0,"start":0,"len":2}
"#,
        answers: "patch 0\npatch 1\nrefused Hard 0\nrefused Hard 1\nrefused Hard\nsent 0 0,1\ndurable 0 0,1\ndisk 2200\n",
        status: Status::Done,
    },
    Row {
        name: "each cause of a merge before the next",
        blocks: DEFAULT_BLOCKS,
        script: r#"{"op":"patch","block":0,"start":0,"hex":"aa"}
{"op":"patch","block":0,"start":4,"hex":"bb"}
{"op":"patch","block":1,"start":0,"hex":"cc"}
{"op":"patch","block":2,"start":0,"hex":"dd","drop":true}
{"op":"patch","block":2,"start":4,"hex":"ee"}
{"op":"patch","block":3,"start":0,"hex":"ff"}
{"op":"send","block":3}
{"op":"merge","a":0,"b":9}
{"op":"merge","a":9,"b":5}
{"op":"merge","a":5,"b":5}
{"op":"merge","a":0,"b":5}
{"op":"merge","a":5,"b":0}
{"op":"merge","a":0,"b":0}
{"op":"merge","a":0,"b":2}
{"op":"merge","a":3,"b":4}
{"op":"merge","a":4,"b":3}
{"op":"merge","a":0,"b":1}
"#,
        answers: "patch 0\npatch 1\npatch 2\npatch 3\npatch 4\npatch 5\nsent 3 5\nrefused Unknown\nrefused Unknown\nrefused NotInMemory 5\nrefused NotInMemory 5\nrefused NotInMemory 5\nrefused Same\nrefused OtherBlock\nrefused Hard 3\nrefused Hard 3\nrefused Apart\n",
        status: Status::Done,
    },
    Row {
        name: "a merged class waits as a whole",
        blocks: DEFAULT_BLOCKS,
        script: r#"{"op":"patch","block":1,"start":0,"hex":"ee"}
{"op":"patch","block":0,"start":0,"hex":"aa"}
{"op":"patch","block":0,"start":1,"hex":"bb","after":[0]}
{"op":"merge","a":2,"b":1}
{"op":"send","block":0}
{"op":"send","block":1}
{"op":"complete","block":1}
{"op":"send","block":0}
{"op":"complete","block":0}
{"op":"disk","block":0,"start":0,"len":2}
"#,
        answers: "patch 0\npatch 1\npatch 2\nmerged 1\nrefused NothingReady\nsent 1 0\ndurable 1 0\nsent 0 1,2\ndurable 0 1,2\ndisk aabb\n",
        status: Status::Done,
    },
];
