//! The reading of a line of any kind.
ghost use Rattle.std.specs.Prelude.{◌≡◌, IfOk, IfErr, List, Option, Some, ℕ, option_and_then};
ghost use Rattle.patch_script.specs.Gives.{Gives, Fails};
ghost use Rattle.patch_script.specs.Object.{object_data};
ghost use Rattle.patch_script.specs.Kind.{object_by, json_of, is_blank, line_by};
ghost use Rattle.serde_json.specs.Data.{Data};
ghost use Rattle.serde_json.specs.View.{view};

use crate::defects::Defect;
use crate::line_error::LineError;
use crate::objects::Object;
use crate::plain::read_plain_object;
use json::Scratch;
use serde_json::Value;
use std::alloc::Global;

/// Behind a line that isn't plain, this many times its bytes are read as trees at once, since the lines of a script are mostly alike:
/// of the bytes up to the last such line, no more than an eighth is read twice.
const TREES: usize = 7;

/// The bytes of a line from which on the room that plain lines are read in isn't kept beside its tree, which takes as much anew.
const LONG: usize = 16_384;

/// A reader of lines of one kind. Each is a JSON object with an op, which is a text. It is given as it was read, mostly without a tree of
/// values.
pub trait ObjectReader {
    /// What a line asks for.
    type Line: Drop;

    // What an object with this op asks for, if it is readable.
    ghost says: { Self → List ℕ → Data → Option Self.Line };

    /// What is wrong with a line whose op isn't one of this kind.
    const UNKNOWN_OP: Defect;

    /// What the object with this op asks for.
    fn read(&self, alloc: Global, op: &str, line: &Object<'_>) -> Result<Self::Line, LineError>
        ensures { Gives result (says self.now op.now (object_data line.now)) };
}

/// Why bytes that are JSON up to this column alone are none.
fn not_json(bytes: &[u8], column: usize) -> Defect {
    match bytes {
        [0xef, 0xbb, 0xbf, ..] => Defect::ByteOrderMark,
        [0xff, 0xfe, ..] | [0xfe, 0xff, ..] | [0, ..] | [_, 0, ..] => Defect::Utf16,
        _ => Defect::NotJson { column },
    }
}

/// The JSON value of some bytes.
#[tactic(auto, using(crate::proofs::Json::json_of_value, crate::proofs::Json::json_of_none))]
fn read_json(alloc: Global, bytes: &[u8]) -> Result<Value, LineError>
    ensures ok { IfOk result (λ v. json_of bytes.now ≡ Some (view v)) }
    ensures err { IfErr result (λ e. Fails e (json_of bytes.now)) }
{
    match Value::from_slice(alloc, bytes) {
        Ok(value) => Ok(value),
        Err(e) => {
            if e.is_memory() {
                Err(LineError::OutOfMemory)
            } else {
                Err(LineError::Unreadable(not_json(bytes, e.column())))
            }
        }
    }
}

fn is_blank_line(bytes: &[u8]) -> bool
    ensures { result ≡ is_blank bytes.now }
{
    bytes
        .iter()
        .all(|b| *b == b' ' || *b == b'\t' || *b == b'\r')
}

fn read_object<K: ObjectReader>(
    alloc: Global,
    reader: &K,
    line: &Object<'_>,
) -> Result<K::Line, LineError>
    ensures { Gives result (object_by (K.says reader.now) (object_data line.now)) }
{
    reader.read(alloc, line.op(K::UNKNOWN_OP)?, line)
}

/// What is on a line that isn't blank, read as a tree of values.
fn read_any_object<K: ObjectReader>(
    alloc: Global,
    reader: &K,
    bytes: &[u8],
) -> Result<K::Line, LineError>
    ensures { Gives result (option_and_then (object_by (K.says reader.now)) (json_of bytes.now)) }
{
    let value = read_json(alloc, bytes)?;
    if !value.is_object() {
        drop(value);
        return Err(LineError::Unreadable(Defect::NotAnObject));
    }
    let object = Object::of_value(&value);
    let line = read_object(alloc, reader, &object);
    drop(object);
    drop(value);
    line
}

/// What is on a line, nothing on a blank one. So many bytes of lines, `trees`, are read as trees at once, this one's among them; a
/// line that turns out not to be plain sets how many those behind it are.
pub fn read_object_line<K: ObjectReader>(
    alloc: Global,
    reader: &K,
    scratch: &mut Scratch,
    trees: &mut usize,
    bytes: &[u8],
) -> Result<Option<K::Line>, LineError>
    ensures { Gives result (line_by (K.says reader.now) bytes.now) }
{
    if is_blank_line(bytes) {
        return Ok(None);
    }
    if *trees > 0 {
        *trees = trees.saturating_sub(bytes.len());
        return Ok(Some(read_any_object(alloc, reader, bytes)?));
    }
    if let Some(object) = read_plain_object(alloc, bytes, scratch)? {
        let line = read_object(alloc, reader, &object);
        drop(object);
        return Ok(Some(line?));
    }
    *trees = bytes.len().saturating_mul(TREES);
    if bytes.len() >= LONG {
        *scratch = Scratch::new(alloc);
    }
    Ok(Some(read_any_object(alloc, reader, bytes)?))
}
