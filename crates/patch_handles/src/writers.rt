//! Writers, by the numbers that C has for them.
ghost use Rattle.std.specs.Prelude.{◌≡◌};
ghost use Rattle.patch_handles.specs.Answering.{writer_of, patching_writer, engaging_writer};

use patch_model::{MAX_WRITER, WriterNo};

// `FSTCH_WRITERS`: so many writers may engage groups, the lowest ones.
const WRITERS: u32 = 7;

// `FSTCH_NO_WRITER`: it stands for the writer that engages none.
const NO_WRITER: u32 = u32::MAX;

/// The writer of a put or a delete.
pub fn writer_of(number: u32) -> Option<WriterNo>
    ensures { result ≡ writer_of number }
{
    if number == NO_WRITER {
        return Some(WriterNo(MAX_WRITER));
    }
    engaging_writer(number)
}

/// The writer of a patch, or that it has none.
pub fn patching_writer(number: u32) -> Option<Option<WriterNo>>
    ensures { result ≡ patching_writer number }
{
    if number == NO_WRITER {
        return Some(None);
    }
    let writer = engaging_writer(number)?;
    Some(Some(writer))
}

/// The writer that engages a group.
pub fn engaging_writer(number: u32) -> Option<WriterNo>
    ensures { result ≡ engaging_writer number }
{
    if number < WRITERS {
        return Some(WriterNo(number as u8));
    }
    None
}
