//! What each of several writers asks for.
ghost use Rattle.std.specs.Prelude.{◌≡◌, [], vec_len, IfOk, OnOk};
ghost use Rattle.patch_shared.specs.Conversations.{commands_in};
ghost use Rattle.patch_files.specs.Serving.{jobs_by, GainsLine};

use patch_commands::CommandLine;
use patch_history::Command;
use patch_model::OutOfMemory;
use std::alloc::Global;

/// The commands of each of so many writers, in the order of their lines.
pub(crate) fn jobs_of(
    alloc: Global,
    lines: Vec<CommandLine>,
    writers: u32,
) -> Result<Vec<Vec<Command>>, OutOfMemory>
    ensures jobs { IfOk result (λ jobs. commands_in jobs.items ≡ jobs_by writers lines.items) }
    ensures count { IfOk result (λ jobs. vec_len jobs ≡ writers) }
{
    let mut jobs = no_jobs(alloc, writers)?;
    for line in lines {
        take_line(alloc, line, &mut jobs)?;
    }
    Ok(jobs)
}

/// No command of any of so many writers.
fn no_jobs(alloc: Global, writers: u32) -> Result<Vec<Vec<Command>>, OutOfMemory>
    ensures jobs { IfOk result (λ jobs. commands_in jobs.items ≡ jobs_by writers []) }
    ensures count { IfOk result (λ jobs. vec_len jobs ≡ writers) }
{
    let mut jobs = Vec::new(alloc);
    for _ in 0..writers {
        jobs.push(Vec::new(alloc))?;
    }
    Ok(jobs)
}

/// Puts the command that a line asks for, its value laid out, behind the others of its writer, if it asks for one.
fn take_line(
    alloc: Global,
    line: CommandLine,
    jobs: &mut Vec<Vec<Command>>,
) -> Result<(), OutOfMemory>
    ensures jobs { OnOk result (GainsLine line (commands_in jobs.old.items) (commands_in jobs.new.items)) }
    ensures count { OnOk result (vec_len jobs.new ≡ vec_len jobs.old) }
{
    let writer = line.writer().0 as usize;
    let Some(command) = line.into_command(alloc)? else {
        return Ok(());
    };
    if let Some(job) = jobs.get_mut(writer) {
        job.push(command)?;
    }
    Ok(())
}
