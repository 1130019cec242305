//! A disk in memory under a cache with groups.
ghost use Rattle.std.specs.Prelude.{◌≡◌, ◌<◌, ◌≤◌, ◌+◌, Some, IfOk, MatchOption, length, slice_range};
ghost use Rattle.patch_cache.specs.Asks.{ask_of, View};
ghost use Rattle.patch_group.specs.Asks.{Plain};
ghost use Rattle.patch_group.specs.Runs.{group_ask_of};
ghost use Rattle.patch_script.specs.declared.forms.Line.TheVariants.{Show, Disk, Sync};
ghost use Rattle.patch_replay.specs.Answering.{IsAskAnswered, IsAnswered, HasComeTo};
ghost use Rattle.patch_replay.specs.CachedDisk.{IsAt};
ghost use Rattle.patch_replay.specs.World.{World, start, moves_of};

use crate::cores::Core;
use crate::line_answers::{answer_of_ask, answer_of_sync_refusal};
use patch_cache::{Ask, Cache, Flights, Move};
use patch_device::{Device, MemDevice, load};
use patch_group::{GroupAsk, Groups, sync};
use patch_model::{
    BLOCK, BlockNo, Bytes, Ending, GroupNo, Items, MAX_BLOCKS, Numbers, OutOfMemory, PatchNo,
    RefusalKind, Refuses, laws as model_laws,
};
use patch_plans::laws as plan_laws;
use patch_script::{Answer, Line, Span};
use std::alloc::{AllocError, Global};

/// A disk in memory, its cache, the groups of its patches, and the writes that were begun and not completed. It can't be let
/// go: it is closed.
pub struct CachedDisk {
    cache: Cache,
    flights: Flights,
    groups: Groups,
    device: MemDevice,
}

impl Ending for CachedDisk {}

impl CachedDisk {
    /// So many blocks of zeros, 1 to 4,096, with no patch and no group.
    pub fn new(alloc: Global, blocks: u32) -> Result<CachedDisk, OutOfMemory>
        requires some { 0 < blocks }
        requires few { blocks ≤ MAX_BLOCKS }
        ensures { IfOk result (λ disk. IsAt disk (start blocks)) }
    {
        plan_laws::order_is_kept();
        let mut device = MemDevice::new(alloc, blocks)?;
        let Ok(zeros) = load(alloc, &mut device) else {
            return Err(OutOfMemory);
        };
        let cache = Cache::open(alloc, zeros)?;
        Ok(CachedDisk {
            cache,
            flights: Flights::new(alloc),
            groups: Groups::new(alloc),
            device,
        })
    }

    /// Gives up the writes that are not completed.
    pub fn close(self) {
        let CachedDisk {
            cache,
            flights,
            groups,
            device,
        } = self;
        flights.abandon();
        drop(device);
        drop(cache);
        drop(groups);
    }

    /// Answers an ask.
    fn ask(&mut self, ask: GroupAsk) -> Result<Answer, OutOfMemory>
        ensures { (w : World) → IsAt self.old w → IfOk result (λ answer.
            HasComeTo (IsAskAnswered w (group_ask_of ask) answer) (IsAt self.new)) }
    {
        model_laws::steps_extend();
        model_laws::images_stay();
        let answer = self
            .groups
            .answer(&mut self.cache, &mut self.flights, &mut self.device, ask);
        answer_of_ask(answer)
    }

    /// Answers an ask of the cache.
    fn ask_cache(&mut self, ask: Ask) -> Result<Answer, OutOfMemory>
        ensures { (w : World) → IsAt self.old w → IfOk result (λ answer.
            HasComeTo (IsAskAnswered w (Plain (ask_of ask)) answer) (IsAt self.new)) }
    {
        self.ask(GroupAsk::Plain(ask))
    }

    /// Brings the patches of a group to the disk.
    fn sync(&mut self, group: GroupNo) -> Result<Answer, OutOfMemory>
        ensures { (w : World) → IsAt self.old w → IfOk result (λ answer.
            HasComeTo (IsAnswered w (Sync group) answer) (IsAt self.new)) }
    {
        let synced = sync(
            &self.groups,
            &mut self.cache,
            &mut self.flights,
            &mut self.device,
            group,
        );
        match synced {
            Ok(()) => Ok(Answer::Synced),
            Err(refusal) => answer_of_sync_refusal(refusal),
        }
    }

    fn show(&self, alloc: Global, span: Span) -> Result<Answer, OutOfMemory>
        ensures { (w : World) → IsAt self.now w → IfOk result (λ answer. IsAnswered w (Show span) answer w) }
    {
        match self
            .cache
            .read(span.block, span.start as usize, span.len as usize)
        {
            Ok(bytes) => Ok(Answer::Shown(Bytes::from_slice(alloc, bytes)?)),
            Err(refusal) => Ok(Answer::Refused(refusal.refusal())),
        }
    }

    fn show_disk(&mut self, alloc: Global, span: Span) -> Result<Answer, OutOfMemory>
        ensures answer { (w : World) → IsAt self.old w → IfOk result (λ answer. IsAnswered w (Disk span) answer w) }
        ensures same { (w : World) → IsAt self.old w → IsAt self.new w }
    {
        let mut block = [0; BLOCK];
        if self.device.read(number_of(span.block), &mut block).is_err() {
            return Ok(Answer::Refused(RefusalKind::NoSuchBlock.bare()));
        }
        match part(&block, span.start, span.len) {
            Some(bytes) => Ok(Answer::OnDisk(Bytes::from_slice(alloc, bytes)?)),
            None => Ok(Answer::Refused(RefusalKind::OutOfBlock.bare())),
        }
    }
}

impl Core for CachedDisk {
    ghost IsAt = { IsAt };

    fn answer(&mut self, alloc: Global, line: Line) -> Result<Answer, OutOfMemory> {
        match line {
            Line::Patch {
                block,
                start,
                bytes,
                after,
                undo,
                writer,
            } => self.ask(GroupAsk::Patch {
                writer,
                block,
                start: start as usize,
                bytes,
                after,
                undo,
            }),
            Line::Merge { a, b } => self.ask_cache(Ask::Merge { a, b }),
            Line::Send(block) => self.ask_cache(Ask::Send { block }),
            Line::Complete(block) => self.ask_cache(Ask::Complete { block }),
            Line::View { take, back, span } => self.ask_cache(view(alloc, &take, &back, span)?),
            Line::Show(span) => self.show(alloc, span),
            Line::Disk(span) => self.show_disk(alloc, span),
            Line::Group => self.ask(GroupAsk::Group),
            Line::Engage { writer, group } => self.ask(GroupAsk::Engage { writer, group }),
            Line::Disengage { writer, group } => self.ask(GroupAsk::Disengage { writer, group }),
            Line::Depend { group, on } => self.ask(GroupAsk::Depend { group, on }),
            Line::Close(group) => self.ask(GroupAsk::Close { group }),
            Line::Pending(group) => self.ask(GroupAsk::Pending { group }),
            Line::Sync(group) => self.sync(group),
        }
    }
}

/// All takes in their order, and then the puts back in theirs.
fn moves_in_order(
    alloc: Global,
    take: &[PatchNo],
    back: &[PatchNo],
) -> Result<Vec<Move>, AllocError>
    ensures { IfOk result (λ moves. moves.items ≡ moves_of take.now back.now) }
{
    let takes = take.iter().map(|no| Move::Take(*no));
    let backs = back.iter().map(|no| Move::Back(*no));
    takes.chain(backs).collect(alloc)
}

/// The view that a line asks for.
fn view(alloc: Global, take: &Numbers, back: &Numbers, span: Span) -> Result<Ask, OutOfMemory>
    ensures { IfOk result (λ ask. ask_of ask ≡ View span.block (moves_of take.now back.now) span.start span.len) }
{
    let moves = moves_in_order(alloc, take.as_slice(), back.as_slice())?;
    Ok(Ask::View {
        block: span.block,
        moves: Items::from_vec(moves),
        start: span.start as usize,
        len: span.len as usize,
    })
}

fn number_of(block: BlockNo) -> u32
    ensures { result ≡ block }
{
    block.0
}

/// `len` of the bytes, from `from` on, where there are so many.
fn part(bytes: &[u8], from: u32, len: u32) -> Option<&[u8]>
    ensures { MatchOption result (length bytes.now < from + len)
        (λ part. (from + len ≤ length bytes.now) × (part.now ≡ slice_range bytes.now from (from + len))) }
{
    let from = from as usize;
    bytes.get(from..from + len as usize)
}
