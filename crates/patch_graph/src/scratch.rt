//! Room for searches, which `add` makes.
ghost use Rattle.std.specs.Prelude.{◌≡◌, ◌<◌, ◌≤◌, length, max, OnOk, OnErr};
ghost use Rattle.patch_graph.specs.Marks.{AreClear};

use std::alloc::{AllocError, Allocator, Global};
use std::marker::Model;

/// How many keys room is made for at once.
const STEP: usize = 64;

/// Room for two searches among as many classes: which of them each met, in what order. When the one is whole, the other's is room for
/// what is looked for in what was met: for a search among it, or for its dead ends. Between two questions nothing is marked.
#[derive(Drop)]
pub struct Scratch<A: Allocator = Global> {
    pub marks: Vec<bool, A>,
    pub queue: Vec<usize, A>,
    pub met: Vec<bool, A>,
    pub found: Vec<usize, A>,
}

impl<A: Allocator> Model for Scratch<A> {
    ghost use Rattle.std.specs.Prelude.{◌≤◌, ℕ, length};
    ghost use Rattle.patch_graph.specs.Marks.{AreClear};

    ghost Value = { ℕ };

    ghost view = { λ r. length r.marks.items };

    ghost invariant = { λ r. (length r.marks.items ≤ length r.queue.items) × (length r.marks.items ≤ length r.met.items)
        × (length r.met.items ≤ length r.found.items) × AreClear r.marks.items × AreClear r.met.items };
}

impl<A: Allocator + Copy> Scratch<A> {
    /// Room for no class.
    pub fn new(alloc: A) -> Scratch<A>
        ensures { result ≡ 0 }
    {
        Scratch {
            marks: Vec::new(alloc),
            queue: Vec::new(alloc),
            met: Vec::new(alloc),
            found: Vec::new(alloc),
        }
    }
}

impl<A: Allocator> Scratch<A> {
    /// Makes room for a class at the key, and for some that come later.
    pub fn reserve(&mut self, key: usize) -> Result<(), AllocError>
        ensures enough { OnOk result (key < self.new) }
        ensures kept { self.old ≤ self.new }
    {
        if key < self.marks.len() {
            return Ok(());
        }
        match key.checked_add(STEP) {
            Some(count) => self.grow(count),
            None => Err(AllocError),
        }
    }

    /// Makes room for so many classes.
    fn grow(&mut self, count: usize) -> Result<(), AllocError>
        ensures enough { OnOk result (count ≤ self.new) }
        ensures kept { self.old ≤ self.new }
    {
        lengthen_queue(&mut self.queue, count)?;
        lengthen_queue(&mut self.found, count)?;
        lengthen(&mut self.met, count)?;
        lengthen(&mut self.marks, count)
    }
}

/// Makes a row of marks this long, if it is shorter.
fn lengthen<A: Allocator>(marks: &mut Vec<bool, A>, count: usize) -> Result<(), AllocError>
    ensures enough { OnOk result (count ≤ length marks.new.items) }
    ensures kept { length marks.old.items ≤ length marks.new.items }
    ensures bounded { length marks.new.items ≤ max (length marks.old.items) count }
    ensures clear { AreClear marks.old.items → AreClear marks.new.items }
{
    if marks.len() < count {
        marks.resize(count, false)
    } else {
        Ok(())
    }
}

/// Makes a queue this long, if it is shorter.
fn lengthen_queue<A: Allocator>(queue: &mut Vec<usize, A>, count: usize) -> Result<(), AllocError>
    ensures enough { OnOk result (count ≤ length queue.new.items) }
    ensures kept { length queue.old.items ≤ length queue.new.items }
{
    if queue.len() < count {
        queue.resize(count, 0)
    } else {
        Ok(())
    }
}
