//! The threads that share a book: how they are started, and joined.
ghost use Rattle.std.specs.Prelude.{ℕ, ◌≡◌, ◌+◌, ◌≤◌, length, vec_len, IfOk, IfErr, IfSome, sum_by};
ghost use Rattle.patch_device.specs.SameDevice.{IsSameDevice};
ghost use Rattle.patch_shared.specs.Serving.{CameTo, IsBare};

use crate::bells::Bell;
use crate::completing::{Completed, complete_all};
use crate::desks::{Desk, Tally};
use crate::faults::Cause;
use crate::gates::Gate;
use crate::working::{Flushed, Seat, Written, flush_all, write_all};
use patch_device::Device;
use patch_history::{Command, Reply};
use patch_model::WriterNo;
use std::alloc::Global;
use std::snapshot::Snapshot;
use std::sync::ledger::{Ledger, Share};
use std::sync::{Mutex, Wait};
use std::thread;
use std::thread::{JoinHandle, Promise, Scope, Threads};

/// What came back from the threads.
#[derive(Drop)]
pub struct Joined<D: Device, C: Ledger, S: Ledger, T: Ledger> {
    pub written: Vec<Written<C>>,
    pub flushed: Flushed<S>,
    pub completed: Completed<D, T>,
}

/// The completer hands back the device that it was given.
#[derive(Drop)]
pub struct KeepsDevice<D: Device>(Snapshot<D>);

impl<D: Device, T: Ledger> Promise<Completed<D, T>> for KeepsDevice<D> {
    ghost use Rattle.patch_device.specs.SameDevice.{IsSameDevice};
    ghost use Rattle.patch_shared.specs.Serving.{CameTo};

    ghost kept_by = { λ p r. IsSameDevice D.Device p.0.value r.device × CameTo D.Device r.end p.0.value r.device };
}

/// A seat for each writer.
pub(crate) fn seats<C: Ledger>(
    alloc: Global,
    all: &mut Share<C>,
    writers: usize,
) -> Option<Vec<Seat<C>>>
    requires few { writers ≤ 8 }
    requires parts { all.old.parts ≡ writers }
    requires none { all.old.amount ≡ 0 }
    ensures seats { IfSome result (λ seats. vec_len seats ≡ writers) }
    ensures spent { IfSome result (λ seats. (all.new.parts ≡ 0) × (all.new.amount ≡ 0)) }
{
    let mut seats = Vec::new(alloc);
    for n in 0..writers {
        let share = all.split_off(1, 0);
        seats
            .push(Seat::new(WriterNo(n as u8), Tally::new(share)))
            .ok()?;
    }
    Some(seats)
}

/// Puts the writers' shares together. None where a writer did not finish, or memory runs out.
pub(crate) fn gathered<C: Ledger>(
    alloc: Global,
    written: Vec<Written<C>>,
    all: &mut Share<C>,
) -> Option<Vec<Vec<Reply>>>
    ensures lists { IfSome result (λ lists. vec_len lists ≡ vec_len written) }
    ensures parts { IfSome result (λ lists. all.new.parts ≡ all.old.parts + vec_len written) }
    ensures amount { IfSome result (λ lists. all.new.amount ≡ all.old.amount + sum_by (λ list. vec_len list) lists.items) }
{
    let mut lists = Vec::new(alloc);
    for one in written {
        let Written {
            replies,
            tally,
            whole,
        } = one;
        if !whole {
            return None;
        }
        all.merge(tally.into_share());
        if lists.push(replies).is_err() {
            return None;
        }
    }
    Some(lists)
}

/// Starts the threads, and joins them. As many writes are under way at a time as there are blocks: so much room is taken first.
pub(crate) fn run_threads<
    D: Device + Drop + Send,
    G: Gate + Sync,
    C: Ledger + Send + Sync,
    S: Ledger + Send + Sync,
    T: Ledger + Send + Sync,
    R: Threads + Wait + Sync,
>(
    rt: &R,
    alloc: Global,
    desk: &Mutex<Desk<C, S, T>>,
    device: D,
    jobs: &[Vec<Command>],
    gate: &G,
    seats: Vec<Seat<C>>,
    sends: Tally<S>,
    completions: Tally<T>,
    blocks: usize,
) -> Result<Joined<D, C, S, T>, Cause>
    ensures device { IfOk result (λ j. IsSameDevice D.Device device j.completed.device) }
    ensures end { IfOk result (λ j. CameTo D.Device j.completed.end device j.completed.device) }
    ensures other { IfErr result IsBare }
{
    let bell = Bell::new(jobs.len());
    let bell = &bell;
    let Ok((to, from)) = crossbeam_channel::bounded(alloc, blocks) else {
        return Err(Cause::OutOfMemory);
    };
    let Ok(landed) = Vec::with_capacity(alloc, blocks) else {
        return Err(Cause::OutOfMemory);
    };
    thread::scope(
        thread::scope_env(),
        rt,
        move |scope| -> Result<Joined<D, C, S, T>, Cause>
            ensures device { IfOk result (λ j. IsSameDevice D.Device device j.completed.device
                × CameTo D.Device j.completed.end device j.completed.device) }
            ensures other { IfErr result IsBare }
        {
            let promise = KeepsDevice(Snapshot::of(&device));
            let Ok(completer) = scope.spawn_with(promise, move || {
                complete_all(rt, desk, bell, gate, from, landed, device, completions)
            }) else {
                return Err(Cause::NoThread);
            };
            let Ok(flusher) = scope.spawn(move || flush_all(rt, desk, bell, gate, to, sends)) else {
                return Err(Cause::NoThread);
            };
            let written = run_writers(scope, rt, alloc, desk, bell, gate, jobs, seats);
            let flushed = flusher.join(rt);
            let completed = completer.join(rt);
            match written {
                Ok(written) => Ok(Joined {
                    written,
                    flushed,
                    completed,
                }),
                Err(cause) => Err(cause),
            }
        },
    )
}

/// Starts the writers, and joins them.
fn run_writers<
    's,
    E,
    G: Gate + Sync,
    C: Ledger + Send + Sync,
    S: Ledger + Send + Sync,
    T: Ledger + Send + Sync,
    R: Threads + Wait + Sync,
>(
    scope: &Scope<'s, E>,
    rt: &'s R,
    alloc: Global,
    desk: &'s Mutex<Desk<C, S, T>>,
    bell: &'s Bell,
    gate: &'s G,
    jobs: &'s [Vec<Command>],
    seats: Vec<Seat<C>>,
) -> Result<Vec<Written<C>>, Cause>
    ensures other { IfErr result IsBare }
{
    let (writers, lack) = start_writers(scope, rt, alloc, desk, bell, gate, jobs, seats);
    let written = join_writers(rt, alloc, writers);
    match lack {
        Some(cause) => Err(cause),
        None => written,
    }
}

/// Starts a thread for each seat. Where not all of them can be, the flusher is told to stop, and the cause stands beside those
/// that were.
fn start_writers<
    's,
    E,
    G: Gate + Sync,
    C: Ledger + Send + Sync,
    S: Ledger + Send + Sync,
    T: Ledger + Send + Sync,
    R: Threads + Wait + Sync,
>(
    scope: &Scope<'s, E>,
    rt: &'s R,
    alloc: Global,
    desk: &'s Mutex<Desk<C, S, T>>,
    bell: &'s Bell,
    gate: &'s G,
    jobs: &'s [Vec<Command>],
    seats: Vec<Seat<C>>,
) -> (Vec<JoinHandle<Written<C>>>, Option<Cause>)
    ensures other { IfSome result.1 IsBare }
{
    let mut writers = Vec::new(alloc);
    let mut short = writers.reserve(jobs.len()).is_err();
    let mut started = true;
    let mut place = 0;
    for seat in seats {
        if short || !started || place >= jobs.len() {
            break;
        }
        let mine = jobs[place].as_slice();
        match scope.spawn(move || write_all(rt, alloc, desk, bell, gate, mine, seat)) {
            Ok(writer) => short = writers.push(writer).is_err(),
            Err(_) => started = false,
        }
        place += 1;
    }
    if short || !started {
        bell.stop(rt);
    }
    (writers, lack_of(short, started))
}

/// Why not all writers were started, if they were not.
fn lack_of(short: bool, started: bool) -> Option<Cause>
    ensures other { IfSome result IsBare }
{
    if !started {
        Some(Cause::NoThread)
    } else if short {
        Some(Cause::OutOfMemory)
    } else {
        None
    }
}

/// Joins the writers.
fn join_writers<C: Ledger + Send, R: Threads>(
    rt: &R,
    alloc: Global,
    writers: Vec<JoinHandle<Written<C>>>,
) -> Result<Vec<Written<C>>, Cause>
    ensures other { IfErr result IsBare }
{
    let mut written = Vec::new(alloc);
    let mut short = false;
    for writer in writers {
        if written.push(writer.join(rt)).is_err() {
            short = true;
        }
    }
    if short {
        return Err(Cause::OutOfMemory);
    }
    Ok(written)
}
