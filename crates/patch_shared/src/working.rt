//! What the threads do that change the store: one for each writer, and one that begins writes.
ghost use Rattle.std.specs.Prelude.{◌≡◌, ◌+◌, ◌≤◌, vec_len, OnOk, OnErr};
ghost use Rattle.patch_model.specs.declared.limits.TheConstants.{MAX_WRITER};

use crate::actors::Actor;
use crate::bells::Bell;
use crate::desks::{Desk, Tally};
use crate::gates::Gate;
use crate::parcels::Parcel;
use crossbeam_channel::Sender;
use patch_history::{Command, Reply};
use patch_model::{OutOfMemory, WriterNo};
use std::alloc::Global;
use std::sync::ledger::Ledger;
use std::sync::{Mutex, Wait};

/// A writer that has not begun.
#[derive(Drop)]
pub struct Seat<C: Ledger> {
    pub writer: WriterNo,
    pub tally: Tally<C>,
    ghost none: { tally.count ≡ 0 },
}

/// What a writer was told.
#[derive(Drop)]
pub struct Written<C: Ledger> {
    pub replies: Vec<Reply>,
    pub tally: Tally<C>,
    /// Whether all of its commands were answered.
    pub whole: bool,
    ghost counted: { tally.count ≡ vec_len replies },
}

/// What the flusher did.
#[derive(Drop)]
pub struct Flushed<S: Ledger> {
    pub tally: Tally<S>,
    /// Whether it had memory to the end.
    pub whole: bool,
}

impl<C: Ledger> Seat<C> {
    pub fn new(writer: WriterNo, tally: Tally<C>) -> Seat<C>
        requires { tally.count ≡ 0 }
    {
        Seat { writer, tally }
    }
}

/// Gives one command to the store, under one holding of the lock. The gate is passed outside it.
fn ask<C: Ledger, S: Ledger, T: Ledger, G: Gate, R: Wait>(
    rt: &R,
    desk: &Mutex<Desk<C, S, T>>,
    gate: &G,
    writer: u8,
    call: u64,
    command: &Command,
    tally: &mut Tally<C>,
) -> Result<Reply, OutOfMemory>
    requires { writer ≤ MAX_WRITER }
    ensures ok { OnOk result (tally.new.count ≡ tally.old.count + 1) }
    ensures err { OnErr result (tally.new.count ≡ tally.old.count) }
{
    gate.before(Actor::Writer(WriterNo(writer)), call);
    let answer = desk
        .lock(rt)
        .command(Actor::Writer(WriterNo(writer)), command, tally);
    gate.after(Actor::Writer(WriterNo(writer)), call);
    answer
}

/// Gives a writer's commands to the store, one after another.
pub fn write_all<C: Ledger, S: Ledger, T: Ledger, G: Gate, R: Wait>(
    rt: &R,
    alloc: Global,
    desk: &Mutex<Desk<C, S, T>>,
    bell: &Bell,
    gate: &G,
    jobs: &[Command],
    seat: Seat<C>,
) -> Written<C> {
    let Seat { writer, mut tally } = seat;
    let writer = writer.0;
    let mut replies = Vec::new(alloc);
    let mut call = 0u64;
    let mut whole = true;
    for command in jobs {
        if replies.reserve(1).is_err() {
            whole = false;
            break;
        }
        call = call.wrapping_add(1);
        let Ok(reply) = ask(rt, desk, gate, writer, call, command, &mut tally) else {
            whole = false;
            break;
        };
        replies.push_reserved(reply);
        bell.ring(rt);
    }
    if !whole {
        bell.stop(rt);
    }
    bell.leave(rt);
    Written {
        replies,
        tally,
        whole,
    }
}

/// Begins all writes that can begin, until the writers have ended and no write is under way.
pub fn flush_all<C: Ledger, S: Ledger, T: Ledger, G: Gate, R: Wait>(
    rt: &R,
    desk: &Mutex<Desk<C, S, T>>,
    bell: &Bell,
    gate: &G,
    to: Sender<Parcel>,
    mut tally: Tally<S>,
) -> Flushed<S> {
    let mut whole = true;
    let mut call = 0u64;
    for _ in rt.forever() {
        let sight = bell.look(rt);
        if sight.stopped {
            break;
        }
        call = call.wrapping_add(1);
        gate.before(Actor::Flusher, call);
        let sent = desk.lock(rt).send(&mut tally);
        gate.after(Actor::Flusher, call);
        match sent {
            Ok(Some(flight)) => {
                if to.send(rt, Parcel::new(flight)).is_err() {
                    break;
                }
            }
            Ok(None) => {
                if sight.writers == 0 && sight.landed == tally.count() {
                    break;
                }
                bell.wait_past(rt, sight.rings);
            }
            Err(_) => {
                whole = false;
                break;
            }
        }
    }
    Flushed { tally, whole }
}
