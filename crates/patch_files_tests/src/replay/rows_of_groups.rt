//! Worked scripts of groups.
use super::rows::{DEFAULT_BLOCKS, Row};
use patch_replay::Status;

pub const ROWS_OF_GROUPS: [Row; 12] = [
    Row {
        name: "two groups in order, the later one's block after the earlier one's",
        blocks: DEFAULT_BLOCKS,
        script: r#"{"op":"group"}
{"op":"group"}
{"op":"engage","group":0}
{"op":"patch","block":0,"start":0,"hex":"aa"}
{"op":"disengage","group":0}
{"op":"depend","group":1,"on":0}
{"op":"engage","group":1}
{"op":"patch","block":1,"start":0,"hex":"bb"}
{"op":"disengage","group":1}
{"op":"send","block":1}
{"op":"engage","group":0}
{"op":"depend","group":0,"on":1}
{"op":"pending","group":1}
{"op":"sync","group":1}
{"op":"pending","group":1}
{"op":"disk","block":1,"start":0,"len":1}
"#,
        answers: "group 0\ngroup 1\nok\npatch 0\nok\nok\nok\npatch 1\nok\nrefused NothingReady\nrefused Sealed\nrefused Sealed\npending 1\nsynced\npending 0\ndisk bb\n",
        status: Status::Done,
    },
    Row {
        name: "a group isn't ordered after itself, nor after one that there isn't",
        blocks: DEFAULT_BLOCKS,
        script: r#"{"op":"group"}
{"op":"depend","group":0,"on":0}
{"op":"depend","group":0,"on":1}
{"op":"disengage","group":0}
"#,
        answers: "group 0\nrefused SameGroup\nrefused NoSuchGroup\nrefused NotEngaged\n",
        status: Status::Done,
    },
    Row {
        name: "there is no such group for any line",
        blocks: DEFAULT_BLOCKS,
        script: r#"{"op":"engage","group":0}
{"op":"disengage","group":0}
{"op":"depend","group":0,"on":0}
{"op":"close","group":0}
{"op":"pending","group":0}
{"op":"sync","group":0}
{"op":"group"}
{"op":"depend","group":1,"on":0}
{"op":"depend","group":0,"on":4294967295}
{"op":"sync","group":1}
{"op":"sync","group":0}
"#,
        answers: "refused NoSuchGroup\nrefused NoSuchGroup\nrefused NoSuchGroup\nrefused NoSuchGroup\nrefused NoSuchGroup\nrefused NoSuchGroup\ngroup 0\nrefused NoSuchGroup\nrefused NoSuchGroup\nrefused NoSuchGroup\nsynced\n",
        status: Status::Done,
    },
    Row {
        name: "a group is engaged once by each writer, and closed by none of them",
        blocks: DEFAULT_BLOCKS,
        script: r#"{"op":"group"}
{"op":"engage","group":0,"writer":7}
{"op":"engage","group":0,"writer":7}
{"op":"engage","group":0}
{"op":"disengage","group":0,"writer":1}
{"op":"close","group":0}
{"op":"disengage","group":0,"writer":7}
{"op":"close","group":0}
{"op":"disengage","group":0}
{"op":"close","group":0}
{"op":"close","group":0}
"#,
        answers: "group 0\nok\nrefused Engaged\nok\nrefused NotEngaged\nrefused Engaged\nok\nrefused Engaged\nok\nok\nrefused NoSuchGroup\n",
        status: Status::Done,
    },
    Row {
        name: "a closed group is none to all later lines, and its patches stay in their order",
        blocks: DEFAULT_BLOCKS,
        script: r#"{"op":"group"}
{"op":"group"}
{"op":"engage","group":0}
{"op":"patch","block":0,"start":0,"hex":"aa"}
{"op":"disengage","group":0}
{"op":"depend","group":1,"on":0}
{"op":"close","group":0}
{"op":"engage","group":0}
{"op":"pending","group":0}
{"op":"sync","group":0}
{"op":"engage","group":1}
{"op":"patch","block":1,"start":0,"hex":"bb"}
{"op":"send","block":1}
{"op":"send","block":0}
{"op":"complete","block":0}
{"op":"send","block":1}
"#,
        answers: "group 0\ngroup 1\nok\npatch 0\nok\nok\nok\nrefused NoSuchGroup\nrefused NoSuchGroup\nrefused NoSuchGroup\nok\npatch 1\nrefused NothingReady\nsent 0 0\ndurable 0 0\nsent 1 1\n",
        status: Status::Done,
    },
    Row {
        name: "a group that was engaged takes no order, and none is ordered after an engaged one",
        blocks: DEFAULT_BLOCKS,
        script: r#"{"op":"group"}
{"op":"group"}
{"op":"group"}
{"op":"engage","group":1,"writer":3}
{"op":"depend","group":1,"on":0}
{"op":"depend","group":0,"on":1}
{"op":"disengage","group":1,"writer":3}
{"op":"depend","group":1,"on":0}
{"op":"depend","group":0,"on":1}
{"op":"depend","group":0,"on":1}
{"op":"depend","group":2,"on":0}
{"op":"depend","group":0,"on":1}
"#,
        answers: "group 0\ngroup 1\ngroup 2\nok\nrefused Started\nrefused Engaged\nok\nrefused Started\nok\nok\nok\nrefused Sealed\n",
        status: Status::Done,
    },
    Row {
        name: "a writer's patches alone join its group",
        blocks: DEFAULT_BLOCKS,
        script: r#"{"op":"group"}
{"op":"group"}
{"op":"engage","group":0,"writer":1}
{"op":"patch","block":0,"start":0,"hex":"aa","writer":1}
{"op":"patch","block":2,"start":0,"hex":"cc"}
{"op":"disengage","group":0,"writer":1}
{"op":"depend","group":1,"on":0}
{"op":"engage","group":1,"writer":2}
{"op":"patch","block":1,"start":0,"hex":"bb","writer":2}
{"op":"patch","block":3,"start":0,"hex":"dd","writer":1}
{"op":"pending","group":0}
{"op":"pending","group":1}
{"op":"send","block":1}
{"op":"send","block":2}
{"op":"send","block":3}
{"op":"send","block":0}
{"op":"complete","block":0}
{"op":"send","block":1}
"#,
        answers: "group 0\ngroup 1\nok\npatch 0\npatch 1\nok\nok\nok\npatch 2\npatch 3\npending 1\npending 1\nrefused NothingReady\nsent 2 1\nsent 3 3\nsent 0 0\ndurable 0 0\nsent 1 2\n",
        status: Status::Done,
    },
    Row {
        name: "a group comes after those that come before the one that it depends on",
        blocks: DEFAULT_BLOCKS,
        script: r#"{"op":"group"}
{"op":"group"}
{"op":"group"}
{"op":"engage","group":0}
{"op":"patch","block":0,"start":0,"hex":"aa"}
{"op":"disengage","group":0}
{"op":"depend","group":1,"on":0}
{"op":"depend","group":2,"on":1}
{"op":"engage","group":2}
{"op":"patch","block":2,"start":0,"hex":"cc"}
{"op":"send","block":2}
{"op":"sync","group":0}
{"op":"send","block":2}
"#,
        answers: "group 0\ngroup 1\ngroup 2\nok\npatch 0\nok\nok\nok\nok\npatch 1\nrefused NothingReady\nsynced\nsent 2 1\n",
        status: Status::Done,
    },
    Row {
        name: "a patch of two groups is after both that they depend on",
        blocks: DEFAULT_BLOCKS,
        script: r#"{"op":"group"}
{"op":"group"}
{"op":"group"}
{"op":"group"}
{"op":"engage","group":0}
{"op":"patch","block":0,"start":0,"hex":"aa"}
{"op":"disengage","group":0}
{"op":"engage","group":1}
{"op":"patch","block":1,"start":0,"hex":"bb"}
{"op":"disengage","group":1}
{"op":"depend","group":2,"on":0}
{"op":"depend","group":3,"on":1}
{"op":"engage","group":2}
{"op":"engage","group":3}
{"op":"patch","block":2,"start":0,"hex":"cc"}
{"op":"pending","group":2}
{"op":"pending","group":3}
{"op":"sync","group":0}
{"op":"send","block":2}
{"op":"sync","group":1}
{"op":"send","block":2}
{"op":"complete","block":2}
{"op":"pending","group":2}
{"op":"pending","group":3}
"#,
        answers: "group 0\ngroup 1\ngroup 2\ngroup 3\nok\npatch 0\nok\nok\npatch 1\nok\nok\nok\nok\nok\npatch 2\npending 1\npending 1\nsynced\nrefused NothingReady\nsynced\nsent 2 2\ndurable 2 2\npending 0\npending 0\n",
        status: Status::Done,
    },
    Row {
        name: "a sync ends the writes that were begun, and writes no more than it has to",
        blocks: DEFAULT_BLOCKS,
        script: r#"{"op":"group"}
{"op":"patch","block":3,"start":0,"hex":"aa"}
{"op":"send","block":3}
{"op":"patch","block":5,"start":0,"hex":"ee"}
{"op":"engage","group":0}
{"op":"patch","block":4,"start":0,"hex":"bb"}
{"op":"disk","block":3,"start":0,"len":1}
{"op":"sync","group":0}
{"op":"complete","block":3}
{"op":"disk","block":3,"start":0,"len":1}
{"op":"disk","block":4,"start":0,"len":1}
{"op":"disk","block":5,"start":0,"len":1}
{"op":"show","block":5,"start":0,"len":1}
{"op":"sync","group":0}
{"op":"send","block":5}
{"op":"sync","group":0}
{"op":"disk","block":5,"start":0,"len":1}
"#,
        answers: "group 0\npatch 0\nsent 3 0\npatch 1\nok\npatch 2\ndisk 00\nsynced\nrefused Stranger\ndisk aa\ndisk bb\ndisk 00\nshown ee\nsynced\nsent 5 1\nsynced\ndisk ee\n",
        status: Status::Done,
    },
    Row {
        name: "a sync writes the least block first of those that can be written",
        blocks: DEFAULT_BLOCKS,
        script: r#"{"op":"group"}
{"op":"patch","block":1,"start":0,"hex":"aa"}
{"op":"patch","block":2,"start":0,"hex":"bb"}
{"op":"patch","block":0,"start":0,"hex":"cc","after":[1]}
{"op":"engage","group":0}
{"op":"patch","block":2,"start":4,"hex":"dd"}
{"op":"sync","group":0}
{"op":"disk","block":0,"start":0,"len":1}
{"op":"disk","block":1,"start":0,"len":1}
{"op":"disk","block":2,"start":0,"len":5}
{"op":"send","block":0}
"#,
        answers: "group 0\npatch 0\npatch 1\npatch 2\nok\npatch 3\nsynced\ndisk 00\ndisk aa\ndisk bb000000dd\nsent 0 2\n",
        status: Status::Done,
    },
    Row {
        name: "a patch that is refused joins no group",
        blocks: DEFAULT_BLOCKS,
        script: r#"{"op":"group"}
{"op":"engage","group":0}
{"op":"patch","block":9,"start":0,"hex":"aa"}
{"op":"patch","block":0,"start":4096,"hex":"aa"}
{"op":"pending","group":0}
{"op":"patch","block":0,"start":0,"hex":"aa"}
{"op":"patch","block":0,"start":1,"hex":"bb"}
{"op":"pending","group":0}
{"op":"merge","a":0,"b":1}
{"op":"pending","group":0}
{"op":"send","block":0}
{"op":"pending","group":0}
{"op":"complete","block":0}
{"op":"pending","group":0}
"#,
        answers: "group 0\nok\nrefused NoSuchBlock\nrefused OutOfBlock\npending 0\npatch 0\npatch 1\npending 2\nmerged 0\npending 2\nsent 0 0,1\npending 2\ndurable 0 0,1\npending 0\n",
        status: Status::Done,
    },
];
