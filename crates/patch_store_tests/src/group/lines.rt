//! Lines of words: asks of a cache with groups.
use super::*;
use patch_model::{Bytes, Numbers};
use std::alloc::AllocError;

// The number in a word; of another word, the greatest.
pub(super) fn number(word: &str) -> u32 {
    word.parse::<u32>().unwrap_or(u32::MAX)
}

pub(super) fn writer_in(word: &str) -> Result<WriterNo, Fail> {
    let number = number(word);
    if number > 7 {
        return Err(Fail::from("no writer"));
    }
    Ok(WriterNo(number as u8))
}

pub(super) fn group_in(word: &str) -> GroupNo {
    GroupNo(number(word))
}

fn bytes_in<A: Allocator + Copy>(alloc: A, letters: &str) -> Result<Bytes<A>, AllocError> {
    Ok(Bytes::from_vec(Vec::from_slice(alloc, letters.as_bytes())?))
}

fn numbers_in<A: Allocator + Copy>(alloc: A, words: &[&str]) -> Result<Numbers<A>, AllocError> {
    let numbers = words.iter().map(|word| PatchNo(number(word)));
    Ok(Numbers::from_vec(numbers.collect(alloc)?))
}

fn patch_of<A: Allocator + Copy>(
    alloc: A,
    writer: &str,
    block: &str,
    letters: &str,
    after: &[&str],
) -> Result<GroupAsk<A>, Fail> {
    let bytes = bytes_in(alloc, letters)?;
    Ok(GroupAsk::Patch {
        writer: writer_in(writer)?,
        block: BlockNo(number(block)),
        start: 0,
        bytes,
        after: numbers_in(alloc, after)?,
        undo: Undo::Keep,
    })
}

fn bare_of<A: Allocator + Copy>(
    alloc: A,
    block: &str,
    letters: &str,
    after: &[&str],
) -> Result<GroupAsk<A>, Fail> {
    let bytes = bytes_in(alloc, letters)?;
    Ok(GroupAsk::Plain(Ask::Create {
        block: BlockNo(number(block)),
        start: 0,
        bytes,
        after: numbers_in(alloc, after)?,
        undo: Undo::Keep,
    }))
}

fn write_of<A: Allocator>(kind: &str, block: &str) -> Result<GroupAsk<A>, Fail> {
    let block = BlockNo(number(block));
    match kind {
        "send" => Ok(GroupAsk::Plain(Ask::Send { block })),
        "complete" => Ok(GroupAsk::Plain(Ask::Complete { block })),
        _ => Err(Fail::from("no ask")),
    }
}

fn call_of<A: Allocator>(kind: &str, first: &str, group: &str) -> Result<GroupAsk<A>, Fail> {
    let on = group_in(group);
    match kind {
        "engage" => Ok(GroupAsk::Engage {
            writer: writer_in(first)?,
            group: on,
        }),
        "disengage" => Ok(GroupAsk::Disengage {
            writer: writer_in(first)?,
            group: on,
        }),
        "depend" => Ok(GroupAsk::Depend {
            group: group_in(first),
            on,
        }),
        _ => Err(Fail::from("no call")),
    }
}

fn group_of<A: Allocator>(kind: &str, group: &str) -> Result<GroupAsk<A>, Fail> {
    let group = group_in(group);
    match kind {
        "close" => Ok(GroupAsk::Close { group }),
        "pending" => Ok(GroupAsk::Pending { group }),
        _ => Err(Fail::from("no call")),
    }
}

fn ask_of_words<A: Allocator + Copy>(alloc: A, words: &[&str]) -> Result<GroupAsk<A>, Fail> {
    match words {
        ["by", writer, block, letters, after @ ..] => {
            patch_of(alloc, writer, block, letters, after)
        }
        ["patch", block, letters, after @ ..] => bare_of(alloc, block, letters, after),
        ["group"] => Ok(GroupAsk::Group),
        ["send" | "complete", block] => write_of(words[0], block),
        ["close" | "pending", group] => group_of(words[0], group),
        [kind, first, group] => call_of(kind, first, group),
        _ => Err(Fail::from("no ask")),
    }
}

// The ask in a line's words.
pub(super) fn ask_in<A: Allocator + Copy>(alloc: A, line: &str) -> Result<GroupAsk<A>, Fail> {
    let words: Vec<&str, A> = line.split_whitespace().collect(alloc)?;
    ask_of_words(alloc, words.as_slice())
}

fn push_asks<A: Allocator + Copy>(
    asks: &mut Vec<GroupAsk<A>, A>,
    alloc: A,
    lines: &[&str],
) -> Result<(), Fail> {
    for line in lines {
        asks.push(ask_in(alloc, line)?)?;
    }
    Ok(())
}

pub(super) fn asks_in<A: Allocator + Copy>(
    alloc: A,
    lines: &[&str],
) -> Result<Vec<GroupAsk<A>, A>, Fail> {
    let mut asks = Vec::new(alloc);
    push_asks(&mut asks, alloc, lines)?;
    Ok(asks)
}
