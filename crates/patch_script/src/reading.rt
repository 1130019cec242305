//! The reading of a line of a replay script.
ghost use Rattle.patch_script.specs.Gives.{Gives};
ghost use Rattle.patch_script.specs.Object.{object_data};
ghost use Rattle.patch_script.specs.Form.{patch_line, merge_line, view_line, engage_line, disengage_line, depend_line, span_of, group_op_line, op_line};

use crate::defects::{Defect, Name};
use crate::forms::{Line, Span};
use crate::kinds::ObjectReader;
use crate::line_error::{LineError, wrong};
use crate::objects::Object;
use patch_model::{BlockNo, GroupNo, PatchNo, Undo};
use std::alloc::Global;

#[tactic(auto, unfolding(crate::specs::Form::patch_line))]
fn read_patch(alloc: Global, line: &Object<'_>) -> Result<Line, LineError>
    ensures { Gives result (patch_line (object_data line.now)) }
{
    let block = BlockNo(line.number(Name::Block)?);
    let start = line.number(Name::Start)?;
    let bytes = line.bytes(alloc, Name::Hex)?;
    let after = line.numbers_or_none(alloc, Name::After)?;
    let may_drop = line.flag(Name::Drop)?;
    let undo = if may_drop { Undo::MayDrop } else { Undo::Keep };
    let writer = line.writer()?;
    Ok(Line::Patch {
        block,
        start,
        bytes,
        after,
        undo,
        writer,
    })
}

#[tactic(auto, unfolding(crate::specs::Form::merge_line))]
fn read_merge(line: &Object<'_>) -> Result<Line, LineError>
    ensures { Gives result (merge_line (object_data line.now)) }
{
    let a = PatchNo(line.number(Name::A)?);
    let b = PatchNo(line.number(Name::B)?);
    Ok(Line::Merge { a, b })
}

fn read_span(line: &Object<'_>) -> Result<Span, LineError>
    ensures { Gives result (span_of (object_data line.now)) }
{
    let block = BlockNo(line.number(Name::Block)?);
    let start = line.number(Name::Start)?;
    let len = line.positive_number(Name::Len)?;
    Ok(Span { block, start, len })
}

#[tactic(auto, unfolding(crate::specs::Form::view_line))]
fn read_view(alloc: Global, line: &Object<'_>) -> Result<Line, LineError>
    ensures { Gives result (view_line (object_data line.now)) }
{
    let take = line.numbers(alloc, Name::Take)?;
    let back = line.numbers_or_none(alloc, Name::Back)?;
    let span = read_span(line)?;
    Ok(Line::View { take, back, span })
}

#[tactic(auto, unfolding(crate::specs::Form::engage_line))]
fn read_engage(line: &Object<'_>) -> Result<Line, LineError>
    ensures { Gives result (engage_line (object_data line.now)) }
{
    let writer = line.writer()?;
    let group = GroupNo(line.number(Name::Group)?);
    Ok(Line::Engage { writer, group })
}

#[tactic(auto, unfolding(crate::specs::Form::disengage_line))]
fn read_disengage(line: &Object<'_>) -> Result<Line, LineError>
    ensures { Gives result (disengage_line (object_data line.now)) }
{
    let writer = line.writer()?;
    let group = GroupNo(line.number(Name::Group)?);
    Ok(Line::Disengage { writer, group })
}

#[tactic(auto, unfolding(crate::specs::Form::depend_line))]
fn read_depend(line: &Object<'_>) -> Result<Line, LineError>
    ensures { Gives result (depend_line (object_data line.now)) }
{
    let group = GroupNo(line.number(Name::Group)?);
    let on = GroupNo(line.number(Name::On)?);
    Ok(Line::Depend { group, on })
}

#[tactic(auto, unfolding(crate::specs::Form::group_op_line))]
fn read_group_op(op: &str, line: &Object<'_>) -> Result<Line, LineError>
    ensures { Gives result (group_op_line op.now (object_data line.now)) }
{
    match op {
        "group" => Ok(Line::Group),
        "engage" => read_engage(line),
        "disengage" => read_disengage(line),
        "depend" => read_depend(line),
        "close" => Ok(Line::Close(GroupNo(line.number(Name::Group)?))),
        "pending" => Ok(Line::Pending(GroupNo(line.number(Name::Group)?))),
        "sync" => Ok(Line::Sync(GroupNo(line.number(Name::Group)?))),
        _ => Err(wrong(Name::Op)),
    }
}

#[tactic(auto, unfolding(crate::specs::Form::op_line))]
fn read_op(alloc: Global, op: &str, line: &Object<'_>) -> Result<Line, LineError>
    ensures { Gives result (op_line op.now (object_data line.now)) }
{
    match op {
        "patch" => read_patch(alloc, line),
        "merge" => read_merge(line),
        "send" => Ok(Line::Send(BlockNo(line.number(Name::Block)?))),
        "complete" => Ok(Line::Complete(BlockNo(line.number(Name::Block)?))),
        "view" => read_view(alloc, line),
        "show" => Ok(Line::Show(read_span(line)?)),
        "disk" => Ok(Line::Disk(read_span(line)?)),
        _ => read_group_op(op, line),
    }
}

/// Reads the lines of a replay script.
pub(crate) struct ReplayLines;

impl ObjectReader for ReplayLines {
    type Line = Line;

    ghost says = { λ _. op_line };

    const UNKNOWN_OP: Defect = Defect::Wrong(Name::Op);

    fn read(&self, alloc: Global, op: &str, line: &Object<'_>) -> Result<Line, LineError> {
        read_op(alloc, op, line)
    }
}
