//! What a line is answered, and how that is written.
ghost use Rattle.std.specs.Prelude.{◌≡◌, ◌++◌, ◌∷◌, [], List, OnOk, IfOk, decimal, string_bytes};
ghost use Rattle.hex.specs.Hex.{encode_lower};
ghost use Rattle.patch_script.specs.Answer.{answer_text, answer_line as the_line, refusal_text, seen_text, numbers_text, flight_text};

use crate::digits::push_digits;
use itoa::Buffer;
use patch_model::{BlockNo, Bytes, GroupNo, Numbers, PatchNo, Refusal, Refuses};
use std::alloc::{AllocError, Global};

// Room for a word, a number and a line feed.
const ROOM: usize = 24;
// Room for a number of a list and its comma, where it has no more than five digits.
const ROOM_OF_ONE: usize = 6;

/// What a line is answered.
#[derive(Debug, Drop)]
pub enum Answer {
    /// A patch was made, of this number.
    Made(PatchNo),
    /// Two classes became one, of this name.
    Merged(PatchNo),
    /// A write of the block began, with these patches in it.
    Sent { block: BlockNo, numbers: Numbers },
    /// A write of the block ended; these patches are durable.
    Landed { block: BlockNo, numbers: Numbers },
    /// The bytes of a span without the patches that were taken back, and with them.
    Seen { without: Bytes, cached: Bytes },
    Shown(Bytes),
    /// The bytes on the device.
    OnDisk(Bytes),
    /// A group was made, of this number.
    GroupMade(GroupNo),
    /// The group was engaged, disengaged, ordered or closed.
    Done,
    /// How many patches of the group aren't on the disk yet.
    Count(u32),
    /// All patches of the group are on the disk.
    Synced,
    /// The line did nothing, and this is why.
    Refused(Refusal),
}

/// Writes a word, and bytes in lower case hexadecimal, at the end. The room of both is made at once, with that of a line
/// feed behind them.
pub fn push_hex(alloc: Global, out: &mut String, word: &str, bytes: &[u8]) -> Result<(), AllocError>
    ensures { OnOk result (string_bytes out.new ≡ string_bytes out.old ++ (word.now ++ encode_lower bytes.now)) }
{
    let digits = bytes.len().saturating_mul(2);
    let room = word.len().saturating_add(digits).saturating_add(1);
    out.reserve(room)?;
    out.push_str(word)?;
    push_digits(out, bytes)
}

/// Writes a number in decimal digits at the end.
fn push_number(out: &mut String, number: u32) -> Result<(), AllocError>
    ensures { OnOk result (string_bytes out.new ≡ string_bytes out.old ++ decimal number) }
{
    let mut digits = Buffer::new();
    out.push_str(digits.format(number))
}

/// Writes a word and a number at the end. The room of both is made at once, with that of a line feed behind them.
fn push_told(out: &mut String, word: &str, number: u32) -> Result<(), AllocError>
    ensures { OnOk result (string_bytes out.new ≡ string_bytes out.old ++ (word.now ++ decimal number)) }
{
    out.reserve(ROOM)?;
    out.push_str(word)?;
    push_number(out, number)
}

fn push_refusal(out: &mut String, refusal: Refusal) -> Result<(), AllocError>
    ensures { OnOk result (string_bytes out.new ≡ string_bytes out.old ++ refusal_text refusal) }
{
    let name = refusal.name();
    match refusal.number {
        Some(number) => write!(out, "refused {name} {number}"),
        None => write!(out, "refused {name}"),
    }
}

/// Each number behind a comma but the first. Their digits are written in one place, one number after another.
fn push_numbers(out: &mut String, numbers: &[PatchNo]) -> Result<(), AllocError>
    ensures { OnOk result (string_bytes out.new ≡ string_bytes out.old ++ numbers_text numbers.now) }
{
    let Some((first, rest)) = numbers.split_first() else {
        return Ok(());
    };
    let mut digits = Buffer::new();
    out.push_str(digits.format(first.0))?;
    for number in rest {
        out.push_str(",")?;
        out.push_str(digits.format(number.0))?;
    }
    Ok(())
}

/// A word, the block of a flight and the numbers of its patches.
fn push_flight(
    out: &mut String,
    word: &str,
    block: BlockNo,
    numbers: &[PatchNo],
) -> Result<(), AllocError>
    ensures { OnOk result (string_bytes out.new ≡ string_bytes out.old ++ (word.now ++ flight_text block numbers.now)) }
{
    let room = numbers.len().saturating_mul(ROOM_OF_ONE);
    out.reserve(room.saturating_add(ROOM))?;
    push_told(out, word, block.0)?;
    out.push_str(" ")?;
    push_numbers(out, numbers)
}

fn push_seen(
    alloc: Global,
    out: &mut String,
    without: &[u8],
    cached: &[u8],
) -> Result<(), AllocError>
    ensures { OnOk result (string_bytes out.new ≡ string_bytes out.old ++ seen_text without.now cached.now) }
{
    push_hex(alloc, out, "without ", without)?;
    push_hex(alloc, out, " cached ", cached)?;
    Ok(())
}

fn push_answer(alloc: Global, out: &mut String, answer: &Answer) -> Result<(), AllocError>
    ensures { OnOk result (string_bytes out.new ≡ string_bytes out.old ++ answer_text answer.now) }
{
    match answer {
        Answer::Made(number) => push_told(out, "patch ", number.0),
        Answer::Merged(number) => push_told(out, "merged ", number.0),
        Answer::Sent { block, numbers } => push_flight(out, "sent ", *block, numbers.as_slice()),
        Answer::Landed { block, numbers } => {
            push_flight(out, "durable ", *block, numbers.as_slice())
        }
        Answer::Seen { without, cached } => {
            push_seen(alloc, out, without.as_slice(), cached.as_slice())
        }
        Answer::Shown(bytes) => push_hex(alloc, out, "shown ", bytes.as_slice()),
        Answer::OnDisk(bytes) => push_hex(alloc, out, "disk ", bytes.as_slice()),
        Answer::GroupMade(group) => push_told(out, "group ", group.0),
        Answer::Done => out.push_str("ok"),
        Answer::Count(count) => push_told(out, "pending ", *count),
        Answer::Synced => out.push_str("synced"),
        Answer::Refused(refusal) => push_refusal(out, *refusal),
    }
}

/// The line of an answer, its line feed at the end.
pub fn answer_line(alloc: Global, answer: &Answer) -> Result<String, AllocError>
    ensures { IfOk result (λ text. string_bytes text ≡ the_line answer.now) }
{
    let mut out = String::new(alloc);
    push_answer(alloc, &mut out, answer)?;
    out.push_str("\n")?;
    Ok(out)
}
