//! What the program does, over any streams and files.
ghost use Rattle.std.specs.Prelude.{◌≡◌, ◌≢◌, ◌<◌, ◌≤◌, IfErr, IfSome};
ghost use Rattle.std.specs.IoError.{error_kind};
ghost use Rattle.std.specs.declared.io.ErrorKind.TheVariants.{InvalidData};
ghost use Rattle.patch_program.specs.Asked.{AreWriters, MayBeAsked};
ghost use Rattle.patch_program.specs.Ending.{HasStarved, IsExitOf};

use crate::arguments;
use crate::arguments::Request;
use crate::reading_files::ReadFiles;
use crate::saying::{Errors, Left};
use clap::error::ErrorKind;
use patch_files::{
    Barriers, Progress, Quiet, Reclaims, Status as FileStatus, Ticker, check_file, make_file,
    run_file, serve_file, survey_file, upgrade_file,
};
use patch_frame::Geometry;
use patch_listing::{Detail, Wanted, list_file, stat_file};
use patch_model::MAX_BLOCKS;
use patch_replay::{Output, Sink, Source, Status, replay};
use std::alloc::Global;
use std::fs::OpenFile;
use std::io::{BufWriter, Read, Write};
use std::os::unix::fs::FileExt;
use std::rt::Files;
use std::sync::Wait;
use std::thread::Threads;
use std::{fs, io};

/// How the program ends where the command line is wrong, or asks for help.
const MISUSED: u8 = 2;

/// Does what the words of the command line ask for, where they could be read, and answers the exit status.
pub fn run<F, H, R, W, E>(
    files: &H,
    alloc: Global,
    words: io::Result<Vec<String>>,
    input: R,
    output: &mut W,
    detail: Detail,
    errors: &mut Errors<'_, E>,
) -> u8
where
    F: FileExt + OpenFile + Drop + Send,
    H: Files<File = F> + Threads + Wait + Sync,
    R: Read + Drop,
    W: Write + Drop,
    E: Write,
    ensures no_text { IfErr words (λ e. error_kind e ≡ InvalidData → result ≡ 2) }
    ensures starved { IfErr words (λ e. error_kind e ≢ InvalidData → HasStarved W.contents output.old output.new result) }
{
    match words {
        Ok(words) => {
            let status = run_words(
                files,
                alloc,
                words.as_slice(),
                input,
                output,
                detail,
                errors,
            );
            errors.say_met();
            status
        }
        Err(e) if e.kind() == io::ErrorKind::InvalidData => {
            let _ = errors
                .stream
                .write_all(b"fstch: an argument is not UTF-8 text\n");
            MISUSED
        }
        Err(_) => out_of_memory(output),
    }
}

fn run_words<F, H, R, W, E>(
    files: &H,
    alloc: Global,
    words: &[String],
    input: R,
    output: &mut W,
    detail: Detail,
    errors: &mut Errors<'_, E>,
) -> u8
where
    F: FileExt + OpenFile + Drop + Send,
    H: Files<File = F> + Threads + Wait + Sync,
    R: Read + Drop,
    W: Write + Drop,
    E: Write,
{
    match arguments::read(alloc, words) {
        Ok(request) => run_request(files, alloc, request, input, output, detail, errors),
        Err(e) if e.kind() == ErrorKind::OutOfMemory => out_of_memory(output),
        Err(e) => {
            let _ = write!(errors.stream, "{e}");
            MISUSED
        }
    }
}

/// Does what is asked for. The output gets its bytes in large pieces.
fn run_request<F, H, R, W, E>(
    files: &H,
    alloc: Global,
    request: Request<'_>,
    input: R,
    output: &mut W,
    detail: Detail,
    errors: &mut Errors<'_, E>,
) -> u8
where
    F: FileExt + OpenFile + Drop + Send,
    H: Files<File = F> + Threads + Wait + Sync,
    R: Read + Drop,
    W: Write + Drop,
    E: Write,
    requires { MayBeAsked request }
{
    let Ok(buffered) = BufWriter::new(alloc, &mut *output) else {
        return out_of_memory(output);
    };
    let mut script = Source::new(input);
    let mut answers = Sink::new(buffered);
    run_streams(
        files,
        alloc,
        request,
        &mut script,
        &mut answers,
        detail,
        errors,
    )
}

fn run_streams<F, H, R, O, E>(
    files: &H,
    alloc: Global,
    request: Request<'_>,
    script: &mut Source<R>,
    answers: &mut Sink<O>,
    detail: Detail,
    errors: &mut Errors<'_, E>,
) -> u8
where
    F: FileExt + OpenFile + Drop + Send,
    H: Files<File = F> + Threads + Wait + Sync,
    R: Read,
    O: Output,
    E: Write,
    requires { MayBeAsked request }
{
    match request {
        Request::Replay { blocks } => run_replay(alloc, script, answers, errors, blocks),
        Request::Make { path, geometry } => {
            run_make(files, alloc, answers, errors, path, geometry)
        }
        Request::Run {
            path,
            writers: None,
            barriers,
            reclaims,
        } => run_script(
            files, alloc, script, answers, errors, path, barriers, reclaims,
        ),
        Request::Run {
            path,
            writers: Some(writers),
            barriers,
            ..
        } => run_writers(
            files, alloc, script, answers, errors, path, barriers, writers,
        ),
        Request::Check { path } => run_check(files, alloc, answers, errors, path),
        Request::List {
            path,
            from,
            prefix,
            values,
        } => {
            let wanted = Wanted {
                from: from.as_slice(),
                prefix: prefix.as_slice(),
                values,
            };
            run_list(files, alloc, answers, errors, path, wanted)
        }
        Request::Stat { path } => run_stat(files, alloc, answers, errors, path, detail),
        Request::Upgrade { path } => run_upgrade(files, alloc, answers, errors, path),
    }
}

fn run_replay<R: Read, O: Output, E: Write>(
    alloc: Global,
    script: &mut Source<R>,
    answers: &mut Sink<O>,
    errors: &mut Errors<'_, E>,
    blocks: u32,
) -> u8
    requires some { 0 < blocks }
    requires few { blocks ≤ MAX_BLOCKS }
    ensures { IfSome (R.remaining script.old.inner) (λ text. IsExitOf text result) }
{
    let status = replay(alloc, script, answers, blocks);
    if let Status::Unreadable(why) = status {
        errors.say_script(why);
    }
    if answers.has_failed() {
        errors.say_output();
    }
    status.code()
}

/// Says why a command on the file of this name failed, and what is left there where standard output can't be written.
fn tell<O: Output, E: Write>(
    answers: &Sink<O>,
    errors: &mut Errors<'_, E>,
    path: &str,
    status: FileStatus,
    left: Left,
) {
    match status {
        FileStatus::Unreadable(why) => errors.say_script(why),
        FileStatus::Failed => errors.say_why(path, "file"),
        _ => {}
    }
    if answers.has_failed() {
        errors.say_left(path, left);
    }
}

fn run_make<F, H, O, E>(
    files: &H,
    alloc: Global,
    answers: &mut Sink<O>,
    errors: &mut Errors<'_, E>,
    path: &str,
    geometry: Geometry,
) -> u8
where
    F: FileExt + OpenFile + Drop,
    H: Files<File = F>,
    O: Output,
    E: Write,
{
    let was_there = fs::symlink_metadata(files, path).is_ok();
    let status = make_file(files, alloc, answers, path, geometry);
    match status {
        FileStatus::Misused => errors.say_blocks(geometry),
        FileStatus::Failed if was_there => errors.say_of(path, "it is there already"),
        FileStatus::Failed => errors.say_why(path, "directory"),
        _ => {}
    }
    if answers.has_failed() {
        errors.say_left(path, Left::Unknown);
    }
    status.code()
}

/// Checks a file that is opened to be read alone, and says what can be read of it where slots of its index are wrong.
fn run_check<F, H, O, E>(
    files: &H,
    alloc: Global,
    answers: &mut Sink<O>,
    errors: &mut Errors<'_, E>,
    path: &str,
) -> u8
where
    F: FileExt + OpenFile + Drop,
    H: Files<File = F>,
    O: Output,
    E: Write,
{
    let files = ReadFiles::new(files, errors.notes);
    let status = check_file(&files, alloc, answers, path);
    if status == FileStatus::Failed {
        errors.say_why(path, "file");
        if let Ok(survey) = survey_file(&files, alloc, path) {
            errors.say_survey(alloc, &survey);
        }
    }
    if answers.has_failed() {
        errors.say_output();
    }
    status.code()
}

/// Says why a file that was only read is refused.
fn tell_unread<O: Output, E: Write>(
    answers: &Sink<O>,
    errors: &mut Errors<'_, E>,
    path: &str,
    status: FileStatus,
) {
    if status == FileStatus::Failed {
        errors.say_why(path, "file");
    }
    if answers.has_failed() {
        errors.say_output();
    }
}

/// Lists the keys of a file that is opened to be read alone.
fn run_list<F, H, O, E>(
    files: &H,
    alloc: Global,
    answers: &mut Sink<O>,
    errors: &mut Errors<'_, E>,
    path: &str,
    wanted: Wanted<'_>,
) -> u8
where
    F: FileExt + OpenFile + Drop,
    H: Files<File = F>,
    O: Output,
    E: Write,
{
    let files = ReadFiles::new(files, errors.notes);
    let status = list_file(&files, alloc, answers, path, wanted);
    tell_unread(answers, errors, path, status);
    status.code()
}

fn run_stat<F, H, O, E>(
    files: &H,
    alloc: Global,
    answers: &mut Sink<O>,
    errors: &mut Errors<'_, E>,
    path: &str,
    detail: Detail,
) -> u8
where
    F: FileExt + OpenFile + Drop,
    H: Files<File = F>,
    O: Output,
    E: Write,
{
    let files = ReadFiles::new(files, errors.notes);
    let status = stat_file(&files, alloc, answers, path, detail);
    tell_unread(answers, errors, path, status);
    status.code()
}

fn run_upgrade<F, H, O, E>(
    files: &H,
    alloc: Global,
    answers: &mut Sink<O>,
    errors: &mut Errors<'_, E>,
    path: &str,
) -> u8
where
    F: FileExt + OpenFile + Drop,
    H: Files<File = F>,
    O: Output,
    E: Write,
{
    let status = upgrade_file(files, alloc, answers, path);
    tell(answers, errors, path, status, Left::Unknown);
    status.code()
}

/// Somebody who is told how far a script is, and a note of how it ended.
#[derive(Drop)]
struct Watch<P> {
    inner: P,
    is_saved: bool,
}

impl<P: Progress> Progress for Watch<P> {
    fn answered(&mut self, lines: usize, all: usize) {
        self.inner.answered(lines, all);
    }

    fn end(&mut self, is_saved: bool) {
        self.is_saved = is_saved;
        self.inner.end(is_saved);
    }
}

/// Runs a script, and answers whether all that it changed is in the file.
fn run_watched<F, H, R, O, P>(
    files: &H,
    alloc: Global,
    script: &mut Source<R>,
    answers: &mut Sink<O>,
    path: &str,
    barriers: Barriers,
    reclaims: Reclaims,
    inner: P,
) -> (FileStatus, Left)
where
    F: FileExt + OpenFile + Drop,
    H: Files<File = F>,
    R: Read,
    O: Output,
    P: Progress + Drop,
{
    let mut watch = Watch {
        inner,
        is_saved: false,
    };
    let status = run_file(
        files, alloc, script, answers, path, barriers, reclaims, &mut watch,
    );
    let left = if watch.is_saved {
        Left::All
    } else {
        Left::Synced
    };
    (status, left)
}

fn run_script<F, H, R, O, E>(
    files: &H,
    alloc: Global,
    script: &mut Source<R>,
    answers: &mut Sink<O>,
    errors: &mut Errors<'_, E>,
    path: &str,
    barriers: Barriers,
    reclaims: Reclaims,
) -> u8
where
    F: FileExt + OpenFile + Drop,
    H: Files<File = F>,
    R: Read,
    O: Output,
    E: Write,
{
    let (status, left) = if errors.is_terminal {
        let ticker = Ticker::new(&mut *errors.stream);
        run_watched(
            files, alloc, script, answers, path, barriers, reclaims, ticker,
        )
    } else {
        run_watched(
            files, alloc, script, answers, path, barriers, reclaims, Quiet,
        )
    };
    tell(answers, errors, path, status, left);
    status.code()
}

fn run_writers<F, H, R, O, E>(
    files: &H,
    alloc: Global,
    script: &mut Source<R>,
    answers: &mut Sink<O>,
    errors: &mut Errors<'_, E>,
    path: &str,
    barriers: Barriers,
    writers: u32,
) -> u8
where
    F: FileExt + OpenFile + Drop + Send,
    H: Files<File = F> + Threads + Wait + Sync,
    R: Read,
    O: Output,
    E: Write,
    requires { AreWriters writers }
{
    let status = serve_file(files, alloc, script, answers, path, barriers, writers);
    tell(answers, errors, path, status, Left::Unknown);
    status.code()
}

/// Tells that memory ran out before the work began.
fn out_of_memory<W: Write>(output: &mut W) -> u8
    ensures { HasStarved W.contents output.old output.new result }
{
    let status = match output.write_all(b"fault OutOfMemory\n") {
        Ok(()) => Status::OutOfMemory,
        Err(_) => Status::Failed,
    };
    status.code()
}
