//! Lists of commands that a store goes through, with the reply to each.
use super::*;
use patch_history::{Command, Reply};
use patch_model::Bytes;

// A key of 32 bytes, as many as there may be.
const LONGEST_KEY: &[u8] = b"xxxxxxxxxxxxxxxxxxxxxxxxxxxxxxxx";

// A key of 33 bytes, one too many.
const LONG_KEY: &[u8] = b"xxxxxxxxxxxxxxxxxxxxxxxxxxxxxxxxx";

// The longest value that there may be in an extent of 16 blocks of version 1, and one byte more.
const FILLING: [u8; 32_768] = [0x61; 32_768];

const TOO_LONG: [u8; 32_769] = [0; 32_769];

fn bytes_of(alloc: Global, bytes: &[u8]) -> Result<Bytes, OutOfMemory> {
    Ok(Bytes::from_vec(Vec::from_slice(alloc, bytes)?))
}

fn put_of(alloc: Global, key: Bytes, value: &[u8]) -> Result<Command, OutOfMemory> {
    let value = bytes_of(alloc, value)?;
    Ok(Command::Put { key, value })
}

fn command_of(alloc: Global, what: Ask<'_>) -> Result<Command, OutOfMemory> {
    match what {
        Put(key, value) => put_of(alloc, bytes_of(alloc, key)?, value),
        Get(key, _) => Ok(Command::Get {
            key: bytes_of(alloc, key)?,
        }),
        Delete(key) => Ok(Command::Delete {
            key: bytes_of(alloc, key)?,
        }),
        Reclaim(extent) => Ok(Command::Reclaim { extent }),
        Upgrade => Ok(Command::Upgrade),
    }
}

type Commands = Vec<(WriterNo, Command)>;

fn push_commands(
    alloc: Global,
    commands: &mut Commands,
    turns: &[Turn<'_>],
) -> Result<(), OutOfMemory> {
    for (what, _) in turns {
        commands.push((WRITER, command_of(alloc, *what)?))?;
    }
    Ok(())
}

fn commands_of(alloc: Global, turns: &[Turn<'_>]) -> Result<Commands, OutOfMemory> {
    let mut commands = Vec::new(alloc);
    push_commands(alloc, &mut commands, turns)?;
    Ok(commands)
}

fn is_said(reply: &Reply, turn: &Turn<'_>) -> bool {
    match (reply, turn) {
        (Reply::Value(bytes), (Get(_, Some(value)), Ok(()))) => bytes.as_slice() == *value,
        (Reply::Absent, (Get(_, None), Ok(()))) => true,
        (Reply::Done, (Get(..), _)) => false,
        (Reply::Done, (_, Ok(()))) => true,
        (Reply::Refused(refusal), (_, Err(kind))) => refusal.kind == *kind,
        _ => false,
    }
}

// How many of the turns are replied to as is wanted, before the first that isn't.
fn count_said(replies: &[Reply], turns: &[Turn<'_>]) -> usize {
    let mut count = 0usize;
    for (reply, turn) in replies.iter().zip(turns.iter()) {
        if !is_said(reply, turn) {
            break;
        }
        count = count.saturating_add(1);
    }
    count
}

// How many replies there are to the commands of these turns, and how many at their front are as is wanted.
fn count_replies(
    store: &mut Store,
    commands: &[(WriterNo, Command)],
    turns: &[Turn<'_>],
) -> (usize, usize) {
    let replies = match store.run(commands) {
        Ok(replies) => replies,
        Err((replies, OutOfMemory)) => replies,
    };
    (replies.len(), count_said(&replies, turns))
}

// On a new disk with these pieces over it.
fn run_anew(
    rt: &impl Abort,
    alloc: Global,
    geometry: Geometry,
    pieces: &[Piece<'_>],
    turns: &[Turn<'_>],
) -> Result<(usize, usize), Fail> {
    let commands = commands_of(alloc, turns)?;
    match behind(rt, alloc, geometry, pieces, &[]) {
        Ok(mut store) => {
            let counts = count_replies(&mut store, &commands, turns);
            drop(store);
            drop(commands);
            Ok(counts)
        }
        Err(fail) => {
            drop(commands);
            Err(fail)
        }
    }
}

// Commands with what is wanted of each, on a disk that is divided like this and has these pieces.
type Walk = (
    &'static str,
    Geometry,
    &'static [Piece<'static>],
    &'static [Turn<'static>],
);

const WALKS: &[Walk] = &[
    (
        "keys are put, read and deleted",
        OF_FOUR,
        &[],
        &[
            (Put(b"k", b""), Ok(())),
            (Get(b"k", Some(b"")), Ok(())),
            (Delete(b"k"), Ok(())),
            (Get(b"k", None), Ok(())),
            (Delete(b"k"), Err(RefusalKind::NoKey)),
            (Put(b"k", &[1]), Ok(())),
            (Put(b"k", &[2; 5000]), Ok(())),
            (Get(b"k", Some(&[2; 5000])), Ok(())),
        ],
    ),
    (
        "keys and values have their limits",
        OF_FOUR,
        &[],
        &[
            (Put(LONGEST_KEY, &[1]), Ok(())),
            (Put(LONG_KEY, &[1]), Err(RefusalKind::KeyLength)),
            (Put(b"", &[1]), Err(RefusalKind::KeyLength)),
            (Get(b"", None), Err(RefusalKind::KeyLength)),
            (Delete(LONG_KEY), Err(RefusalKind::KeyLength)),
            (Put(b"v", &FILLING), Ok(())),
            (Put(b"w", &TOO_LONG), Err(RefusalKind::ValueLength)),
        ],
    ),
    (
        "the last empty extent is kept",
        SMALL,
        &[],
        &[
            (Put(b"a", &FILLING), Ok(())),
            (Put(b"b", &FILLING), Err(RefusalKind::NoSpace)),
            (Reclaim(0), Err(RefusalKind::OpenExtent)),
            (Reclaim(1), Err(RefusalKind::EmptyExtent)),
            (Reclaim(2), Err(RefusalKind::NoSuchExtent)),
        ],
    ),
    (
        "two extents are won back",
        OF_THREE,
        &[],
        &[
            (Put(b"a", &FILLING), Ok(())),
            (Put(b"b", &[0x62; 32_768]), Ok(())),
            (Reclaim(0), Ok(())),
            (Reclaim(1), Ok(())),
            (Reclaim(1), Err(RefusalKind::EmptyExtent)),
            (Get(b"a", Some(&FILLING)), Ok(())),
            (Get(b"b", Some(&[0x62; 32_768])), Ok(())),
        ],
    ),
    (
        "a current extent without a live frame is won back",
        SMALL,
        &[],
        &[
            (Put(b"k", b""), Ok(())),
            (Delete(b"k"), Ok(())),
            (Reclaim(0), Ok(())),
            (Reclaim(0), Err(RefusalKind::EmptyExtent)),
            (Put(b"m", &[1]), Ok(())),
            (Get(b"m", Some(&[1])), Ok(())),
        ],
    ),
    (
        "longer values fit behind an upgrade",
        OF_FOUR,
        &[],
        &[
            (Put(b"v", &[9; 65_488]), Err(RefusalKind::ValueLength)),
            (Upgrade, Ok(())),
            (Put(b"v", &[9; 65_488]), Ok(())),
            (Put(b"v", &[9; 65_489]), Err(RefusalKind::ValueLength)),
            (Upgrade, Err(RefusalKind::AlreadyVersion2)),
        ],
    ),
    (
        "values are as long as their extents allow",
        OF_LONGER,
        &[],
        &[
            (Put(b"a", &[7; 131_072]), Ok(())),
            (Put(b"b", &[7; 131_073]), Err(RefusalKind::ValueLength)),
            (Get(b"a", Some(&[7; 131_072])), Ok(())),
        ],
    ),
    (
        "of two full extents the one without a frame is won back",
        SMALL,
        // The one slot names a frame of the first extent.
        &[
            (3, 0, b"FCH1\x01\0\0\0\0\0\0\x01k\x071HCF"),
            (2, 0, b"\0\0\0\0\0\x01\0\0\0\0\0\0\0\x01\0\0"),
            (1, 0, b"\x01\x01\0\0\0\0\0\0\0\0\0\0\0\0\0\x12k"),
        ],
        &[
            (Reclaim(0), Err(RefusalKind::NoSpace)),
            (Reclaim(1), Ok(())),
            (Get(b"k", Some(&[7])), Ok(())),
        ],
    ),
];

fn expect_walks(rt: &impl Abort, alloc: Global) -> Result<(), Fail> {
    for (name, geometry, pieces, turns) in WALKS {
        let counts = run_anew(rt, alloc, *geometry, pieces, turns)?;
        let all = turns.len();
        expect_eq(rt, &(*name, counts), &(*name, (all, all)));
    }
    Ok(())
}

#[test]
fn commands_are_replied_to_as_worked(rt: HostRuntime) -> Result<(), Fail> {
    expect_walks(&rt, rt.alloc())
}

// 65 keys of one byte each.
const KEYS: &[u8] = b"0123456789ABCDEFGHIJKLMNOPQRSTUVWXYZabcdefghijklmnopqrstuvwxyz+-*";

// A put for each slot of an index block, one more, and one of a key that has a slot.
fn push_puts(turns: &mut Vec<Turn<'static>>) -> Result<(), OutOfMemory> {
    for at in 0..KEYS.len() {
        let said = if at < 64 {
            Ok(())
        } else {
            Err(RefusalKind::IndexFull)
        };
        turns.push((Put(&KEYS[at..at + 1], b""), said))?;
    }
    turns.push((Put(b"0", b""), Ok(())))?;
    Ok(())
}

fn expect_full(rt: &impl Abort, alloc: Global) -> Result<(), Fail> {
    let mut turns = Vec::new(alloc);
    push_puts(&mut turns)?;
    let counts = run_anew(rt, alloc, SMALL, &[], &turns)?;
    expect_eq(rt, &counts, &(66, 66));
    Ok(())
}

#[test]
fn an_index_is_full_with_64_keys(rt: HostRuntime) -> Result<(), Fail> {
    expect_full(&rt, rt.alloc())
}
