//! Patches, and how far each has come.
use crate::lists::{Bytes, Numbers};
use crate::numbers::{BlockNo, PatchNo};
use std::alloc::{Allocator, Global};
use std::marker::Model;

/// Whether a patch's undo bytes may be dropped. It is the maker's leave: a patch that may still have to be taken back
/// keeps them all the same (Featherstitch's hard patches; that theirs are durable or hard patches of the same block is a
/// rule of our own).
#[derive(Clone, Copy, Debug, PartialEq, Eq)]
pub enum Undo {
    Keep,
    MayDrop,
}

/// How far a patch has come: it is in memory, in a write under way, or on the disk.
#[derive(Clone, Copy, Debug, PartialEq, Eq)]
pub enum Mark {
    Memory,
    Flight,
    Durable,
}

/// A change of one block: the bytes that it puts there from `start` on, and the patches that it names as going to the
/// disk before it, or with it.
#[derive(Debug, Drop)]
pub struct Patch<A: Allocator = Global> {
    pub no: PatchNo,
    pub block: BlockNo,
    pub start: usize,
    pub bytes: Bytes<A>,
    pub after: Numbers<A>,
    pub undo: Undo,
}

impl<A: Allocator> Model for Patch<A> {
    ghost use Rattle.patch_model.specs.Patch.{Patch as ThePatch};

    ghost Value = { ThePatch };

    ghost view = { λ p. record {
      no = p.no;
      block = p.block;
      start = p.start;
      bytes = p.bytes;
      after = p.after;
      undo = p.undo;
    } };
}
