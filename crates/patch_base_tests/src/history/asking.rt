//! What commands and replies hold.
use super::*;
use patch_model::{Bytes, GroupNo, Refusal, RefusalKind};
use std::alloc::Global;

// The first byte of the key that a command is of, and how long its value is.
fn key_of(command: &Command) -> (u8, usize) {
    match command {
        Command::Put { key, value } => (
            key.as_slice().first().copied().unwrap_or(0),
            value.as_slice().len(),
        ),
        Command::Get { key } | Command::Delete { key } => {
            (key.as_slice().first().copied().unwrap_or(0), 0)
        }
        _ => (0, 0),
    }
}

// The numbers of the groups that a command is of.
fn groups_of(command: &Command) -> (u32, u32) {
    match command {
        Command::Engage { group }
        | Command::Disengage { group }
        | Command::CloseGroup { group }
        | Command::Pending { group } => (group.0, group.0),
        Command::Depend { group, on } => (group.0, on.0),
        _ => (0, 0),
    }
}

fn bytes_of(alloc: Global, bytes: &[u8]) -> Result<Bytes, AllocError> {
    Ok(Bytes::from_vec(Vec::from_slice(alloc, bytes)?))
}

#[test]
fn commands_hold_what_is_asked(rt: HostRuntime) -> Result<(), Fail> {
    let alloc = rt.alloc();
    let put = Command::Put {
        key: bytes_of(alloc, b"k")?,
        value: bytes_of(alloc, b"long")?,
    };
    expect_equal(&rt, "put", key_of(&put), (b'k', 4));
    let get = Command::Get {
        key: bytes_of(alloc, b"g")?,
    };
    expect_equal(&rt, "get", key_of(&get), (b'g', 0));
    let depend = Command::Depend {
        group: GroupNo(1),
        on: GroupNo(2),
    };
    expect_equal(&rt, "depend", groups_of(&depend), (1, 2));
    expect_equal(&rt, "upgrade", groups_of(&Command::Upgrade), (0, 0));
    Ok(())
}

// The refusal that a reply holds, if it is one.
fn refusal_of(reply: &Reply) -> Option<Refusal> {
    match reply {
        Reply::Refused(refusal) => Some(*refusal),
        _ => None,
    }
}

#[test]
fn replies_hold_what_is_answered(rt: HostRuntime) -> Result<(), Fail> {
    let lost = Reply::Refused(PutRefusal::NoSpace.refusal());
    expect_equal(
        &rt,
        "refused",
        refusal_of(&lost),
        Some(RefusalKind::NoSpace.bare()),
    );
    expect_equal(&rt, "done", refusal_of(&Reply::Done), None);
    expect_equal(&rt, "counted", refusal_of(&Reply::Count(3)), None);
    Ok(())
}
