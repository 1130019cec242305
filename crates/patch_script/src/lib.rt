//! Scripts of lines: what each line asks for, and the text of its answer. The lines are of a replay script, or of any
//! other kind that says how an object of it is read.
#![tactic(auto)]

mod answers;
mod defects;
mod digits;
mod forms;
mod kinds;
mod line_error;
mod lines;
mod objects;
mod plain;
mod reading;
mod scripts;

pub use answers::{Answer, answer_line, push_hex};
pub use defects::{Defect, Name};
pub use forms::{Line, Span};
pub use kinds::ObjectReader;
pub use line_error::LineError;
pub use objects::Object;
pub use scripts::{
    MAX_BYTES, MAX_LINES, ScriptError, limits_are_numbers, passes_limit, read_objects, read_script,
};
