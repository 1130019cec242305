//! A run that is stopped behind some of its writes: what the disk holds then.
use super::files::{HELD, OK, PUT};
use super::*;
use patch_model::BlockBytes;

const GET: &str = r#"{"op":"get","key":"k"}"#;

const NONE: End = End(Status::Done, 0, "none\n");

// Behind each write what a check writes, and the answer to a reading of the key. The first write made the disk.
static STAGES: [[Turn<'static>; 2]; 4] = [
    [(Deed::Check, EMPTY_STORE), (Deed::Run(GET), NONE)],
    [(Deed::Check, EMPTY_STORE), (Deed::Run(GET), NONE)],
    [
        (
            Deed::Check,
            End(Status::Done, 0, "extent 0 0 19 0\nextent 1 0 0 0\nclean\n"),
        ),
        (Deed::Run(GET), NONE),
    ],
    [
        (Deed::Check, HELD),
        (Deed::Run(GET), End(Status::Done, 0, "value 0102\n")),
    ],
];

// The same of a device that is written so. Neither a check nor a reading writes to it.
fn expect_stages(rt: &impl Abort, alloc: Global, writes: &[(u32, BlockBytes)]) {
    let mut disk = MemDevice::new(alloc, COUNT).expect(rt, "memory for a device");
    expect_eq(rt, &writes.len(), &STAGES.len());
    for ((block, bytes), turns) in writes.iter().zip(&STAGES) {
        disk.write(*block, bytes.as_slice())
            .expect(rt, "a good device");
        expect_on(rt, alloc, &mut disk, turns);
    }
    expect_eq(rt, &disk.writes().len(), &STAGES.len());
    drop(disk);
}

// The run of one put makes three writes: of the frame, the pointer and the slot.
#[test]
fn a_put_is_there_with_the_last_of_its_writes(rt: HostRuntime) {
    let mut device = new_device(&rt, rt.alloc());
    expect_on(&rt, rt.alloc(), &mut device, &[(Deed::Run(PUT), OK)]);
    expect_stages(&rt, rt.alloc(), device.writes());
    drop(device);
}
