//! Asks and answers in tables.
use super::*;
use patch_model::{Bytes, Items, Numbers, RefusalKind};

// An ask: the numbers of blocks and patches, places, bytes, and the patches that it names.
#[derive(Clone, Copy)]
pub(super) enum Asked<'a> {
    // A patch of the block, from there on, of these bytes, which goes after those.
    Patch(u32, usize, &'a [u8], &'a [u32]),
    // One whose undo bytes may be dropped.
    Bare(u32, usize, &'a [u8], &'a [u32]),
    Merge(u32, u32),
    Send(u32),
    Complete(u32),
    // A look at so many bytes of the block, from there on, where those are taken, and these put back.
    View(u32, usize, usize, &'a [u32], &'a [u32]),
}

// What is answered. Of bytes it has those up to the last that isn't zero.
#[derive(Clone, Copy)]
pub(super) enum Told<'a> {
    Made(u32),
    Merged(u32),
    Sent(u32, &'a [u32], &'a [u8]),
    Landed(u32, &'a [u32]),
    // The bytes without what was taken, and those with it.
    Seen(&'a [u8], &'a [u8]),
    Refused(RefusalKind),
    // A refusal for this patch.
    RefusedFor(RefusalKind, u32),
}

fn numbers_of<A: Allocator + Copy>(rt: &impl Abort, alloc: A, named: &[u32]) -> Numbers<A> {
    let mut numbers = Vec::new(alloc);
    for no in named {
        let pushed = numbers.push(PatchNo(*no)).is_ok();
        assert!(rt; pushed);
    }
    Numbers::from_vec(numbers)
}

fn create_of<A: Allocator + Copy>(
    rt: &impl Abort,
    alloc: A,
    (block, start): (u32, usize),
    bytes: &[u8],
    after: &[u32],
    undo: Undo,
) -> Ask<A> {
    let bytes = Vec::from_slice(alloc, bytes).expect(rt, "bytes");
    Ask::Create {
        block: BlockNo(block),
        start,
        bytes: Bytes::from_vec(bytes),
        after: numbers_of(rt, alloc, after),
        undo,
    }
}

fn moves_of<A: Allocator + Copy>(
    rt: &impl Abort,
    alloc: A,
    take: &[u32],
    back: &[u32],
) -> Items<Move, A> {
    let mut moves = Vec::new(alloc);
    for no in take {
        let pushed = moves.push(Move::Take(PatchNo(*no))).is_ok();
        assert!(rt; pushed);
    }
    for no in back {
        let pushed = moves.push(Move::Back(PatchNo(*no))).is_ok();
        assert!(rt; pushed);
    }
    Items::from_vec(moves)
}

pub(super) fn ask_of<A: Allocator + Copy>(rt: &impl Abort, alloc: A, asked: &Asked) -> Ask<A> {
    match *asked {
        Asked::Patch(block, start, bytes, after) => {
            create_of(rt, alloc, (block, start), bytes, after, Undo::Keep)
        }
        Asked::Bare(block, start, bytes, after) => {
            create_of(rt, alloc, (block, start), bytes, after, Undo::MayDrop)
        }
        Asked::Merge(a, b) => Ask::Merge {
            a: PatchNo(a),
            b: PatchNo(b),
        },
        Asked::Send(block) => Ask::Send {
            block: BlockNo(block),
        },
        Asked::Complete(block) => Ask::Complete {
            block: BlockNo(block),
        },
        Asked::View(block, start, len, take, back) => Ask::View {
            block: BlockNo(block),
            moves: moves_of(rt, alloc, take, back),
            start,
            len,
        },
    }
}

fn are_named(numbers: &[PatchNo], named: &[u32]) -> bool {
    let mut same = numbers.len() == named.len();
    for (no, want) in numbers.iter().zip(named) {
        same = same && no.0 == *want;
    }
    same
}

fn is_seen(without: &[u8], cached: &[u8], want: (&[u8], &[u8])) -> bool {
    is_start(without, want.0) && is_start(cached, want.1)
}

fn is_refused(refusal: Refusal, kind: RefusalKind, number: Option<u32>) -> bool {
    refusal == Refusal { kind, number }
}

// Whether that is answered.
pub(super) fn is_told<A: Allocator>(answer: &Answer<A>, told: &Told) -> bool {
    match (answer, told) {
        (Answer::Made(no), Told::Made(want)) => no.0 == *want,
        (Answer::Merged(no), Told::Merged(want)) => no.0 == *want,
        (
            Answer::Sent {
                block,
                numbers,
                image,
            },
            Told::Sent(at, named, bytes),
        ) => block.0 == *at
            && are_named(numbers.as_slice(), named)
            && is_start(image.as_slice(), bytes),
        (Answer::Landed { block, numbers }, Told::Landed(at, named)) => {
            block.0 == *at && are_named(numbers.as_slice(), named)
        }
        (Answer::Seen { without, cached }, Told::Seen(left, all)) => {
            is_seen(without.as_slice(), cached.as_slice(), (left, all))
        }
        (Answer::Refused(refusal), Told::Refused(kind)) => is_refused(*refusal, *kind, None),
        (Answer::Refused(refusal), Told::RefusedFor(kind, number)) => {
            is_refused(*refusal, *kind, Some(*number))
        }
        _ => false,
    }
}
