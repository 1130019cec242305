//! Scripts: their limits, and what their lines ask for.
ghost use Rattle.std.specs.Prelude.{◌≡◌, ◌<◌, ◌+◌, ◌∷◌, ◌≤◌, length, MatchResult};
ghost use Rattle.patch_script.specs.Kind.{lines_of, lines_by, Reads};
ghost use Rattle.patch_script.specs.declared.scripts.TheConstants.{MAX_BYTES, MAX_LINES};
ghost use Rattle.patch_script.specs.Script.{script_of, is_too_long};

use crate::defects::Defect;
use crate::forms::Line;
use crate::kinds::{ObjectReader, read_object_line};
use crate::line_error::LineError;
use crate::lines::Lines;
use crate::reading::ReplayLines;
use json::Scratch;
use std::alloc::Global;

/// The most bytes of a script.
pub const MAX_BYTES: usize = 16_777_216;

/// The most lines of a script, blank ones too.
pub const MAX_LINES: usize = 100_000;

/// The limits of a script in numbers.
pub fn limits_are_numbers()
    ensures bytes { MAX_BYTES ≡ 16777216 }
    ensures lines { MAX_LINES ≡ 100000 }
{}

/// Why a script isn't run.
#[derive(Clone, Copy, Debug, PartialEq, Eq)]
pub enum ScriptError {
    /// The first unreadable line, counted from 1, and what is wrong with it.
    BadLine { line: usize, defect: Defect },
    OutOfMemory,
}

/// Whether a script passes a limit.
pub fn passes_limit(text: &[u8]) -> bool
    ensures { result ≡ is_too_long text.now }
{
    text.len() > MAX_BYTES || Lines::of(text).count() > MAX_LINES
}

/// What the lines of a script ask for as this reader reads their objects, blank ones nothing.
pub fn read_objects<K: ObjectReader>(
    alloc: Global,
    reader: &K,
    text: &[u8],
) -> Result<Vec<K::Line>, ScriptError>
    requires { length (lines_of text.now) ≤ MAX_LINES }
    ensures { Reads result (lines_by (K.says reader.now) text.now) }
{
    let mut scratch = Scratch::new(alloc);
    let mut trees = 0;
    let mut found = Vec::new(alloc);
    let mut number = 0;
    for bytes in Lines::of(text) {
        number += 1;
        match read_object_line(alloc, reader, &mut scratch, &mut trees, bytes) {
            Ok(None) => (),
            Ok(Some(line)) => {
                if let Err(left) = found.push(line) {
                    drop(left);
                    drop(found);
                    drop(scratch);
                    return Err(ScriptError::OutOfMemory);
                }
            }
            Err(LineError::Unreadable(defect)) => {
                drop(found);
                drop(scratch);
                let line = number;
                return Err(ScriptError::BadLine { line, defect });
            }
            Err(LineError::OutOfMemory) => {
                drop(found);
                drop(scratch);
                return Err(ScriptError::OutOfMemory);
            }
        }
    }
    drop(scratch);
    Ok(found)
}

/// What the lines of a replay script ask for, blank ones nothing.
pub fn read_script(alloc: Global, text: &[u8]) -> Result<Vec<Line>, ScriptError>
    requires { length (lines_of text.now) ≤ MAX_LINES }
    ensures { Reads result (script_of text.now) }
{
    read_objects(alloc, &ReplayLines, text)
}
