//! Lines of store scripts: which command each asks for, and the text of its reply.
#![tactic(auto)]

mod commands;
mod reading;
mod replies;
mod values;

pub use commands::{CommandLine, MAX_VALUE_TEXT, limits_are_numbers};
pub use patch_script::ScriptError;
pub use reading::{read_commands, read_shared_commands};
pub use replies::{reply_line, synced_line};
pub use values::laid_out;
