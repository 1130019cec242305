//! Two classes of a block made one.
ghost use Rattle.std.specs.Prelude.{◌≡◌, ◌-◌, ◌<◌, ◌≤◌, length, IfOk, ℕ, true, false, IsTrue, IsFalse};
ghost use Rattle.patch_stacks.specs.State.{follows, IsRunEnd, run_moved_down, IsJoint, IsJointAt, has_places};
ghost use Rattle.patch_stacks.specs.Rearranged.{IsGathered};
ghost use Rattle.patch_stacks.specs.Changes.{Settles, JoinsPlaces, JoinsAt};

use crate::stacks::Stack;
use crate::turning::{take_out, turn_run_down};
use patch_images::forget;
use patch_model::{OutOfMemory, PatchNo};
use patch_records::Drawn;
use std::alloc::{Allocator, Global};
use std::marker::Model;

/// Two classes of a block as one record, drawn up by [`joint`](Stack::joint) and not yet in place.
#[derive(Drop)]
pub struct Joint<A: Allocator = Global> {
    low: usize,
    high: usize,
    /// None where the lower class takes the higher one in without memory.
    drawn: Option<Drawn<A>>,
}

impl<A: Allocator> Model for Joint<A> {
    ghost use Rattle.patch_stacks.specs.State.{Joint as Drawn};

    ghost Value = { Drawn };

    ghost view = { λ j. record { low = j.low; high = j.high; drawn = j.drawn } };
}

impl<A: Allocator> Stack<A> {
    /// Whether the class at `k` depends directly on one from `from` up to `to`. The last ones are looked at first: where classes rest each on
    /// the one before it, that is enough.
    fn follows_some(&self, from: usize, to: usize, k: usize) -> bool
        requires down { from ≤ to }
        requires upto { to ≤ k }
        requires within { k < length self.now.classes }
        ensures no { IsFalse result → (m : ℕ) → from ≤ m → m < to → follows self.now k m ≡ false }
        ensures yes { IsTrue result → (m : ℕ) × (from ≤ m) × (m < to) × (follows self.now k m ≡ true) }
    {
        let class = &self.classes[k];
        let below = &self.classes[from..to];
        for passed in 0..below.len() {
            if class.rests_on(&below[below.len() - 1 - passed]) {
                return true;
            }
        }
        false
    }

    /// Where a run of classes ends that can go down together: the place from `k` on, at most `high`, of the first class that depends
    /// directly on one from `front` up to `k`. Here D rests on A, and C on B:
    ///
    ///     A B C D H    A is at `front`, B at `k`, H at `high`
    ///     A B C D H    B and C depend on none from `front` up to `k`, where A stands alone
    ///     A B C D H    D does, and its place is the answer
    fn run_end(&self, front: usize, k: usize, high: usize) -> usize
        requires down { front ≤ k }
        requires less { k < high }
        requires within { high ≤ length self.now.classes }
        ensures { IsRunEnd self.now front k high result }
    {
        for at in k..high {
            if self.follows_some(front, k, at) {
                return at;
            }
        }
        high
    }

    /// Moves the classes from `k` up to `stop` down to the place `front`, past classes on which none of them depends:
    ///
    ///     A X B C D    A is at `front`, B at `k`, D at `stop`
    ///     B A X C D    B went below A and X
    ///     B C A X D    so did C; all at once it is one turn of the four
    fn move_run_down(&mut self, front: usize, k: usize, stop: usize)
        requires down { front ≤ k }
        requires up { k ≤ stop }
        requires within { stop ≤ length self.old.classes }
        requires free { (j m : ℕ) → k ≤ j → j < stop → front ≤ m → m < k → follows self.old j m ≡ false }
        ensures { self.new ≡ run_moved_down self.old front k (stop - k) }
    {
        if k == stop {
            return;
        }
        turn_run_down(self.classes.as_mut_slice(), front, k, stop);
        self.members = self.members.in_disorder();
        self.taken = self.taken.spread(self.classes.len());
        self.flying = self.flying.spread(self.classes.len());
        forget(&mut self.image);
    }

    /// Brings the class at `low` up to the one at `high`: what lies between and doesn't depend on it, directly or through
    /// others, is moved below it, run by run. Answers its new place. Here B rests on A, D on B, and C and E on neither:
    ///
    ///     A B C D E H    the lowest record is the first, A is at `low` and H at `high`
    ///     C A B D E H    C went below A and B; D follows B, so it stays above them
    ///     C E A B D H    E went below all three, and A's new place is 2
    fn gather(&mut self, low: usize, high: usize) -> usize
        requires less { low < high }
        requires within { high < length self.old.classes }
        ensures { IsGathered self.old self.new low result high }
    {
        let mut front = low;
        let mut k = low + 1;
        while k < high {
            let stop = self.run_end(front, k, high);
            if stop == k {
                k += 1;
            } else {
                self.move_run_down(front, k, stop);
                front += stop - k;
                k = stop;
            }
        }
        front
    }

    /// Draws up the classes at two places as one.
    fn joint_at(&self, low: usize, high: usize) -> Result<Joint<A>, OutOfMemory>
    where
        A: Clone,
        requires first { low < length self.now.classes }
        requires second { high < length self.now.classes }
        ensures { IfOk result (λ joint. IsJointAt self.now low high joint) }
    {
        let class = &self.classes[low];
        let drawn = class.drawn_up(self.bytes.allocator(), &self.classes[high])?;
        Ok(Joint { low, high, drawn })
    }

    /// Puts the record that was drawn up of the classes at two places in the place of the lower one.
    fn settle(&mut self, low: usize, high: usize, drawn: Option<Drawn<A>>)
        requires less { low < high }
        requires within { high < length self.old.classes }
        ensures bytes { self.new.bytes ≡ self.old.bytes }
        ensures settled { Settles self.old low high drawn self.new }
    {
        let upper = take_out(&mut self.classes, high);
        let lower = &mut self.classes[low];
        let greater = lower.greater_name(&upper);
        let is_of_both = lower.become_both(drawn, &upper);
        let is_taken = lower.is_taken();
        let is_flying = lower.is_flying();
        self.members = self.members.joined(is_of_both, greater);
        self.taken = self.taken.spread_over(self.classes.len(), is_taken);
        self.flying = self.flying.spread_over(self.classes.len(), is_flying);
        forget(&mut self.image);
        drop(upper);
    }

    /// Puts the record of the classes at two places in place of both: in that of the lower one, where the higher one depends on none
    /// between them; else the lower one is brought up to it, with all that rests on it, and it goes there. Here B rests on A, and H on C:
    ///
    ///     A B C H    A and H are to be one, which can't go below C
    ///     C A B H    C went below A
    ///     C M B      M is A and H; H doesn't rest on B, since no third class lies between the two on a path
    fn join_at(&mut self, low: usize, high: usize, drawn: Option<Drawn<A>>)
        requires less { low < high }
        requires within { high < length self.old.classes }
        ensures bytes { self.new.bytes ≡ self.old.bytes }
        ensures joined { JoinsPlaces self.old low high drawn self.new }
    {
        if !self.follows_some(low + 1, high, high) {
            self.settle(low, high, drawn);
            return;
        }
        let front = self.gather(low, high);
        self.settle(front, high, drawn);
    }

    /// Draws up the classes of two patches as one. Both may be taken back, their spans meet or touch, and no third class lies
    /// on a path from one to the other. None where they aren't two classes of the block. The lists of the higher class go
    /// behind the lower one's where these have room for them, and rise then: that copies the higher class's numbers alone, when
    /// the joint is put in place; and where the lower class saved the bytes of both, it takes no memory. Else a merge copies the numbers
    /// of both, and makes room for as many again.
    pub fn joint(&self, a: PatchNo, b: PatchNo) -> Result<Option<Joint<A>>, OutOfMemory>
    where
        A: Clone,
        ensures { IfOk result (λ joint. IsJoint self.now a b joint) }
    {
        let Some(i) = self.place_of(a) else {
            return Ok(None);
        };
        let Some(j) = self.place_of(b) else {
            return Ok(None);
        };
        if i == j {
            return Ok(None);
        }
        let joint = self.joint_at(i.min(j), i.max(j))?;
        Ok(Some(joint))
    }

    /// Puts a joint that was drawn up of this block in place. It takes no memory, and changes no byte. No joint changes nothing,
    /// nor does one of places that the block hasn't.
    pub fn join_by(&mut self, joint: Option<Joint<A>>)
        ensures elsewhere { has_places self.old joint ≡ false → self.new ≡ self.old }
        ensures bytes { self.new.bytes ≡ self.old.bytes }
        ensures joined { JoinsAt self.old joint self.new }
    {
        if let Some(joint) = joint {
            let Joint { low, high, drawn } = joint;
            // A joint has two places, one below the other; a block that changed since it was drawn up may lack them.
            if low < high && high < self.len() {
                self.join_at(low, high, drawn);
            }
        }
    }
}
