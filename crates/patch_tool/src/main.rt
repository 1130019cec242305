//! `fstch`: keeps keys and values in a file, and replays scripts of patches.
#![tactic(auto)]

ghost use Rattle.std.specs.Prelude.{◌≡◌, IfErr};
ghost use Rattle.std.specs.IoError.{error_kind};
ghost use Rattle.std.specs.Process.{exit_status};
ghost use Rattle.std.specs.declared.io.ErrorKind.TheVariants.{InvalidData};

use patch_program::{Detail, Errors, LockedFiles, Notes, run, words};
use std::alloc::Global;
use std::fs::OpenFile;
use std::io;
use std::io::{IsTerminal, Read, Write};
use std::os::unix::fs::FileExt;
use std::process::ExitCode;
use std::rt::Files;
use std::sync::Wait;
use std::thread::Threads;

/// Does what the words ask for, and gives its exit status to the system.
fn end_of<F, H, R, W, E>(
    files: &H,
    alloc: Global,
    words: io::Result<Vec<String>>,
    input: R,
    output: &mut W,
    detail: Detail,
    errors: &mut Errors<'_, E>,
) -> ExitCode
where
    F: FileExt + OpenFile + Drop + Send,
    H: Files<File = F> + Threads + Wait + Sync,
    R: Read + Drop,
    W: Write + Drop,
    E: Write,
    ensures { IfErr words (λ e. error_kind e ≡ InvalidData → exit_status result ≡ 2) }
{
    ExitCode::from(run(files, alloc, words, input, output, detail, errors))
}

fn main(rt: HostRuntime) -> ExitCode {
    let (mut output, mut errors) = (rt.stdout(), rt.stderr());
    let is_terminal = errors.is_terminal();
    let detail = if output.is_terminal() {
        Detail::Picture
    } else {
        Detail::Numbers
    };
    let words = words(&rt);
    let notes = Notes::new();
    let files = LockedFiles::new(&rt, &notes);
    let mut errors = Errors {
        stream: &mut errors,
        is_terminal,
        notes: &notes,
    };
    end_of(
        &files,
        rt.alloc(),
        words,
        rt.reader(),
        &mut output,
        detail,
        &mut errors,
    )
}
