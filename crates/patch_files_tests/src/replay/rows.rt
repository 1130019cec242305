//! Worked scripts of one block, with what they are answered.
use patch_replay::{BadScript, Status};
use patch_script::{Defect, Name};

/// How many blocks a script has, where it doesn't say.
pub const DEFAULT_BLOCKS: u32 = 8;

/// A script on so many blocks, what it is answered, and how its replay ends.
#[derive(Clone, Copy)]
pub struct Row {
    pub name: &'static str,
    pub blocks: u32,
    pub script: &'static str,
    pub answers: &'static str,
    pub status: Status,
}

pub const ROWS: [Row; 16] = [
    Row {
        name: "an empty script",
        blocks: DEFAULT_BLOCKS,
        script: "",
        answers: "",
        status: Status::Done,
    },
    Row {
        name: "the later of two overlapping patches is taken",
        blocks: DEFAULT_BLOCKS,
        script: r#"{"op":"patch","block":0,"start":0,"hex":"a1a2a3a4"}
{"op":"patch","block":0,"start":2,"hex":"b1b2b3b4"}
{"op":"view","block":0,"take":[1],"start":0,"len":6}
"#,
        answers: "patch 0\npatch 1\nwithout a1a2a3a40000 cached a1a2b1b2b3b4\n",
        status: Status::Done,
    },
    Row {
        name: "both are taken, the later one first",
        blocks: DEFAULT_BLOCKS,
        script: r#"{"op":"patch","block":0,"start":0,"hex":"a1a2a3a4"}
{"op":"patch","block":0,"start":2,"hex":"b1b2b3b4"}
{"op":"view","block":0,"take":[1,0],"start":0,"len":6}
"#,
        answers: "patch 0\npatch 1\nwithout 000000000000 cached a1a2b1b2b3b4\n",
        status: Status::Done,
    },
    Row {
        name: "the earlier one is held by the later",
        blocks: DEFAULT_BLOCKS,
        script: r#"{"op":"patch","block":0,"start":0,"hex":"a1a2a3a4"}
{"op":"patch","block":0,"start":2,"hex":"b1b2b3b4"}
{"op":"view","block":0,"take":[0],"start":0,"len":6}
{"op":"show","block":0,"start":0,"len":6}
"#,
        answers: "patch 0\npatch 1\nrefused DependentApplied 1\nshown a1a2b1b2b3b4\n",
        status: Status::Done,
    },
    Row {
        name: "the later one is put back before the earlier",
        blocks: DEFAULT_BLOCKS,
        script: r#"{"op":"patch","block":0,"start":0,"hex":"a1a2a3a4"}
{"op":"patch","block":0,"start":2,"hex":"b1b2b3b4"}
{"op":"view","block":0,"take":[1,0],"back":[1],"start":0,"len":6}
"#,
        answers: "patch 0\npatch 1\nrefused DependencyTaken 0\n",
        status: Status::Done,
    },
    Row {
        name: "the earlier one is put back",
        blocks: DEFAULT_BLOCKS,
        script: r#"{"op":"patch","block":0,"start":0,"hex":"a1a2a3a4"}
{"op":"patch","block":0,"start":2,"hex":"b1b2b3b4"}
{"op":"view","block":0,"take":[1,0],"back":[0],"start":0,"len":6}
"#,
        answers: "patch 0\npatch 1\nwithout a1a2a3a40000 cached a1a2b1b2b3b4\n",
        status: Status::Done,
    },
    Row {
        name: "patches apart are taken in either order",
        blocks: DEFAULT_BLOCKS,
        script: r#"{"op":"patch","block":0,"start":0,"hex":"aa"}
{"op":"patch","block":0,"start":4,"hex":"bb"}
{"op":"patch","block":0,"start":8,"hex":"cc"}
{"op":"view","block":0,"take":[0,2],"start":0,"len":9}
{"op":"view","block":0,"take":[2,0],"start":0,"len":9}
"#,
        answers: "patch 0\npatch 1\npatch 2\nwithout 00000000bb00000000 cached aa000000bb000000cc\nwithout 00000000bb00000000 cached aa000000bb000000cc\n",
        status: Status::Done,
    },
    Row {
        name: "each refusal of a patch",
        blocks: DEFAULT_BLOCKS,
        script: r#"{"op":"patch","block":0,"start":4095,"hex":"ff"}
{"op":"patch","block":0,"start":4095,"hex":"ffff"}
{"op":"patch","block":0,"start":0,"hex":""}
{"op":"patch","block":8,"start":0,"hex":"aa"}
{"op":"patch","block":0,"start":0,"hex":"aa","after":[5]}
"#,
        answers: "patch 0\nrefused OutOfBlock\nrefused EmptyPatch\nrefused NoSuchBlock\nrefused UnknownDependency\n",
        status: Status::Done,
    },
    Row {
        name: "the first unreadable line is told alone",
        blocks: DEFAULT_BLOCKS,
        script: r#"{"op":"patch","block":0,"start":0,"hex":"aa"}
{"op":"fly"}
"#,
        answers: "bad line 2\n",
        status: Status::Unreadable(BadScript::BadLine {
            line: 2,
            defect: Defect::Wrong(Name::Op),
        }),
    },
    Row {
        name: "a span over the end, and a number that is not known",
        blocks: DEFAULT_BLOCKS,
        script: r#"{"op":"patch","block":0,"start":0,"hex":"aa"}
{"op":"view","block":0,"take":[],"start":4095,"len":2}
{"op":"view","block":0,"take":[7],"start":0,"len":1}
"#,
        answers: "patch 0\nrefused OutOfBlock\nrefused Unknown\n",
        status: Status::Done,
    },
    Row {
        name: "a hard patch is never taken",
        blocks: DEFAULT_BLOCKS,
        script: r#"{"op":"patch","block":0,"start":0,"hex":"aa","drop":true}
{"op":"view","block":0,"take":[0],"start":0,"len":1}
{"op":"patch","block":0,"start":0,"hex":"bb"}
{"op":"view","block":0,"take":[1],"start":0,"len":1}
"#,
        answers: "patch 0\nrefused Hard\npatch 1\nwithout aa cached bb\n",
        status: Status::Done,
    },
    Row {
        name: "a named patch is held by the one that names it",
        blocks: DEFAULT_BLOCKS,
        script: r#"{"op":"patch","block":0,"start":0,"hex":"aa"}
{"op":"patch","block":0,"start":4,"hex":"bb","after":[0]}
{"op":"view","block":0,"take":[0],"start":0,"len":5}
{"op":"view","block":0,"take":[1],"start":0,"len":5}
{"op":"view","block":0,"take":[1,1],"start":0,"len":5}
"#,
        answers: "patch 0\npatch 1\nrefused DependentApplied 1\nwithout aa00000000 cached aa000000bb\nrefused AlreadyTaken\n",
        status: Status::Done,
    },
    Row {
        name: "what was not taken is not put back",
        blocks: DEFAULT_BLOCKS,
        script: r#"{"op":"patch","block":0,"start":0,"hex":"aa"}
{"op":"patch","block":0,"start":4,"hex":"bb"}
{"op":"patch","block":0,"start":8,"hex":"cc"}
{"op":"view","block":0,"take":[0],"back":[2],"start":0,"len":9}
"#,
        answers: "patch 0\npatch 1\npatch 2\nrefused NotTaken\n",
        status: Status::Done,
    },
    Row {
        name: "each cause before the next",
        blocks: DEFAULT_BLOCKS,
        script: r#"{"op":"patch","block":8,"start":5000,"hex":"","after":[9]}
{"op":"patch","block":0,"start":5000,"hex":"","after":[9]}
{"op":"patch","block":0,"start":4096,"hex":"aa","after":[9]}
{"op":"patch","block":0,"start":4095,"hex":"aa","after":[0]}
{"op":"show","block":8,"start":4096,"len":1}
{"op":"show","block":0,"start":4096,"len":1}
{"op":"view","block":8,"take":[0],"start":0,"len":1}
{"op":"view","block":0,"take":[0],"start":4294967295,"len":4294967295}
{"op":"patch","block":0,"start":4095,"hex":"aa","writer":7}
{"op":"show","block":0,"start":4095,"len":1}
"#,
        answers: "refused NoSuchBlock\nrefused EmptyPatch\nrefused OutOfBlock\nrefused UnknownDependency\nrefused NoSuchBlock\nrefused OutOfBlock\nrefused NoSuchBlock\nrefused OutOfBlock\npatch 0\nshown aa\n",
        status: Status::Done,
    },
    Row {
        name: "a refused view leaves the block as it was",
        blocks: DEFAULT_BLOCKS,
        script: r#"{"op":"patch","block":0,"start":0,"hex":"aa"}
{"op":"patch","block":0,"start":1,"hex":"bb"}
{"op":"view","block":0,"take":[1,0],"back":[7],"start":0,"len":2}
{"op":"view","block":0,"take":[0,0],"start":0,"len":2}
{"op":"show","block":0,"start":0,"len":2}
{"op":"view","block":0,"take":[],"start":0,"len":2}

{"op":"view","block":0,"take":[0,1],"back":[0],"start":0,"len":2}"#,
        answers: "patch 0\npatch 1\nrefused NotTaken\nrefused AlreadyTaken\nshown aabb\nwithout aabb cached aabb\nwithout aa00 cached aabb\n",
        status: Status::Done,
    },
    Row {
        name: "a patch that may drop its bytes over one that keeps them is not hard",
        blocks: DEFAULT_BLOCKS,
        script: r#"{"op":"patch","block":0,"start":0,"hex":"aa"}
{"op":"patch","block":0,"start":0,"hex":"bb","drop":true}
{"op":"view","block":0,"take":[1],"start":0,"len":1}
"#,
        answers: "patch 0\npatch 1\nwithout aa cached bb\n",
        status: Status::Done,
    },
];
