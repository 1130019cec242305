//! The texts of replies.
ghost use Rattle.std.specs.Prelude.{◌≡◌, ◌++◌, ◌∷◌, [], OnOk, IfOk, string_bytes};
ghost use Rattle.patch_commands.specs.Reply.{value_text, reply_line as the_line, synced_line as the_synced_line};
ghost use Rattle.patch_history.specs.Commands.{reply_told};

use patch_history::Reply;
use patch_script::{Answer, answer_line, push_hex};
use std::alloc::{AllocError, Global};

#[tactic(auto, using(crate::proofs::Texts::value_text_none))]
fn push_value(alloc: Global, out: &mut String, bytes: &[u8]) -> Result<(), AllocError>
    ensures { OnOk result (string_bytes out.new ≡ string_bytes out.old ++ value_text bytes.now) }
{
    if bytes.is_empty() {
        return out.push_str("value");
    }
    push_hex(alloc, out, "value ", bytes)
}

fn value_line(alloc: Global, bytes: &[u8]) -> Result<String, AllocError>
    ensures { IfOk result (λ text. string_bytes text ≡ value_text bytes.now ++ 10 ∷ []) }
{
    let mut out = String::new(alloc);
    push_value(alloc, &mut out, bytes)?;
    out.push_str("\n")?;
    Ok(out)
}

/// The line of a reply, its line feed at the end.
pub fn reply_line(alloc: Global, reply: &Reply) -> Result<String, AllocError>
    ensures { IfOk result (λ text. string_bytes text ≡ the_line (reply_told reply.now)) }
{
    match reply {
        Reply::Done => answer_line(alloc, &Answer::Done),
        Reply::Value(bytes) => value_line(alloc, bytes.as_slice()),
        Reply::Absent => String::from_str(alloc, "none\n"),
        Reply::GroupMade(group) => answer_line(alloc, &Answer::GroupMade(*group)),
        Reply::Count(count) => answer_line(alloc, &Answer::Count(*count)),
        Reply::Refused(refusal) => answer_line(alloc, &Answer::Refused(*refusal)),
    }
}

/// The line that a sync is answered where it isn't refused.
pub fn synced_line(alloc: Global) -> Result<String, AllocError>
    ensures { IfOk result (λ text. string_bytes text ≡ the_synced_line) }
{
    answer_line(alloc, &Answer::Synced)
}
