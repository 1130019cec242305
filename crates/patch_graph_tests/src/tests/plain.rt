//! The classes of a graph in plain lists. What lies between two of them is found by one search through all that the upper one
//! leads to, where dead ends are struck out: so `Graph::between` did before it searched from both sides.
use patch_model::PatchNo;
use std::alloc::{AllocError, Global};

// How many blocks there may be.
const BLOCKS: usize = 4;

// A class: its name, its block, its patches, and what these name or wrote over.
#[derive(Drop)]
struct PlainClass {
    name: PatchNo,
    block: usize,
    members: Vec<PatchNo>,
    after: Vec<PatchNo>,
}

/// The classes by their keys, the key of each number's class, and the last writer of each byte, of all blocks by turns.
#[derive(Drop)]
pub struct Plain {
    classes: Vec<Option<PlainClass>>,
    keys: Vec<usize>,
    writers: Vec<Option<PatchNo>>,
    alloc: Global,
}

// Whether a key is marked.
fn is_marked(marks: &[bool], key: usize) -> bool {
    match marks.get(key) {
        Some(marked) => *marked,
        None => false,
    }
}

// Marks a key, or takes the mark off it.
fn set_mark(marks: &mut [bool], key: usize, mark: bool) {
    if key < marks.len() {
        marks[key] = mark;
    }
}

// Copies the marks of these keys, but for one key.
fn copy_without(keys: &[usize], marks: &[bool], dead_ends: &mut [bool], to: usize) {
    for key in keys {
        if is_marked(marks, *key) && *key != to {
            set_mark(dead_ends, *key, true);
        }
    }
}

// Whether the key is of a class between: marked, no dead end, and neither end.
fn lies(marks: &[bool], dead_ends: &[bool], from: usize, to: usize, key: usize) -> bool {
    is_marked(marks, key) && !is_marked(dead_ends, key) && (key != from && key != to)
}

// The lesser name, of those that there are.
fn lesser(a: Option<PatchNo>, b: Option<PatchNo>) -> Option<PatchNo> {
    match (a, b) {
        (Some(x), Some(y)) => Some(if x.0 < y.0 { x } else { y }),
        (Some(x), None) => Some(x),
        (None, other) => other,
    }
}

// Puts a class into another one.
fn take_in(class: &mut PlainClass, other: &PlainClass) -> Result<(), AllocError> {
    class.members.extend_from_slice(other.members.as_slice())?;
    class.after.extend_from_slice(other.after.as_slice())?;
    class.name = PatchNo(class.name.0.min(other.name.0));
    Ok(())
}

// What is asked of the classes.
impl Plain {
    /// No class.
    pub fn new(alloc: Global) -> Plain {
        Plain {
            classes: Vec::new(alloc),
            keys: Vec::new(alloc),
            writers: Vec::new(alloc),
            alloc,
        }
    }

    // The key of a live patch's class.
    fn find(&self, no: PatchNo) -> Option<usize> {
        let key = *self.keys.get(no.0 as usize)?;
        self.class_at(key)?;
        Some(key)
    }

    // The class at a key. There is none any more where it was put into another one, or forgotten.
    fn class_at(&self, key: usize) -> Option<&PlainClass> {
        match self.classes.get(key) {
            Some(Some(class)) => Some(class),
            _ => None,
        }
    }

    // What the class at a key depends on.
    fn after_at(&self, key: usize) -> &[PatchNo] {
        match self.class_at(key) {
            Some(class) => class.after.as_slice(),
            None => &[],
        }
    }

    // The name of the class at a key.
    fn name_at(&self, key: usize) -> Option<PatchNo> {
        match self.class_at(key) {
            Some(class) => Some(class.name),
            None => None,
        }
    }

    /// The name of a live patch's class.
    pub fn class_of(&self, no: PatchNo) -> Option<PatchNo> {
        self.name_at(self.find(no)?)
    }

    // Whether the class at the key has the name of the last patch that was made: nothing depends on such a class.
    fn is_newest(&self, key: usize) -> bool {
        match self.class_at(key) {
            Some(class) => self.keys.len().checked_sub(1) == Some(class.name.0 as usize),
            None => false,
        }
    }

    // Whether the class at the key depends on no live one.
    fn is_leaf(&self, key: usize) -> bool {
        self.after_at(key).iter().all(|no| self.find(*no).is_none())
    }

    // Whether the number leads to one of the two keys, to none, or to a class that depends on no live one.
    fn ends_at(&self, from: usize, to: usize, no: PatchNo) -> bool {
        match self.find(no) {
            Some(key) => key == from || (key == to || self.is_leaf(key)),
            None => true,
        }
    }

    // Whether the class at the one key depends directly on no class but that at the other and such as depend on no live one.
    fn rests_on_leaves(&self, from: usize, to: usize) -> bool {
        self.after_at(from)
            .iter()
            .all(|no| self.ends_at(from, to, *no))
    }

    // Marks the class of a number and puts it at the queue's end, unless it is marked. The new end.
    fn visit(&self, no: PatchNo, marks: &mut [bool], queue: &mut [usize], tail: usize) -> usize {
        let Some(key) = self.find(no) else {
            return tail;
        };
        if is_marked(marks, key) || tail >= queue.len() {
            return tail;
        }
        set_mark(marks, key, true);
        queue[tail] = key;
        tail + 1
    }

    // Marks what the class at the key depends on directly, unless it is that at the key `to`. The new end of the queue.
    fn look(
        &self,
        to: usize,
        key: usize,
        marks: &mut [bool],
        queue: &mut [usize],
        tail: usize,
    ) -> usize {
        if key == to {
            return tail;
        }
        let mut end = tail;
        for no in self.after_at(key) {
            end = self.visit(*no, marks, queue, end);
        }
        end
    }

    // Marks what the class at `from` leads to, and itself, but not what is reached through the key `to` alone. The marked ones
    // are the first of the queue, as many as are returned.
    fn search(&self, from: usize, to: usize, marks: &mut [bool], queue: &mut [usize]) -> usize {
        if queue.is_empty() {
            return 0;
        }
        set_mark(marks, from, true);
        queue[0] = from;
        let mut tail = 1;
        for head in 0..queue.len() {
            if head >= tail {
                break;
            }
            tail = self.look(to, queue[head], marks, queue, tail);
        }
        tail
    }

    // Whether the key is marked, and its class depends on a live one that isn't.
    fn is_unmet(&self, marks: &[bool], key: usize) -> bool {
        let mut after = self.after_at(key).iter();
        is_marked(marks, key) && after.any(|no| self.is_open(marks, *no))
    }

    // Whether the number leads to a class that isn't marked.
    fn is_open(&self, marks: &[bool], no: PatchNo) -> bool {
        match self.find(no) {
            Some(key) => !is_marked(marks, key),
            None => false,
        }
    }

    // Takes the mark off each class, of these keys, whose dependencies aren't all marked. Whether it took any.
    fn strike(&self, keys: &[usize], marks: &mut [bool]) -> bool {
        let mut changed = false;
        for key in keys {
            if self.is_unmet(marks, *key) {
                set_mark(marks, *key, false);
                changed = true;
            }
        }
        changed
    }

    // Takes marks off until each marked class depends on marked ones alone.
    fn settle(&self, keys: &[usize], marks: &mut [bool]) {
        for _ in 0..=keys.len() {
            if !self.strike(keys, marks) {
                return;
            }
        }
    }

    // The least name of a class, of these keys, that is marked, no dead end, and neither end.
    fn least_name(
        &self,
        keys: &[usize],
        marks: &[bool],
        dead_ends: &[bool],
        from: usize,
        to: usize,
    ) -> Option<PatchNo> {
        let mut least = None;
        for key in keys {
            if lies(marks, dead_ends, from, to, *key) {
                least = lesser(least, self.name_at(*key));
            }
        }
        least
    }

    // The least name of a third class on a path from the class at the one key to that at the other. Of the classes that are found
    // from the first one, those are dead ends that don't lead to the second: they are what is left when each that leads out of
    // them is struck out.
    fn least_between(
        &self,
        from: usize,
        to: usize,
        marks: &mut [bool],
        dead_ends: &mut [bool],
        queue: &mut [usize],
    ) -> Option<PatchNo> {
        let room = queue.len();
        let count = self.search(from, to, marks, queue).min(room);
        let found = &mut queue[..count];
        if !is_marked(marks, to) {
            return None;
        }
        found.reverse();
        copy_without(found, marks, dead_ends, to);
        self.settle(found, dead_ends);
        self.least_name(found, marks, dead_ends, from, to)
    }

    /// The least name of a third live class on a path from the class of the one live patch to that of the other.
    pub fn between(&self, a: PatchNo, b: PatchNo) -> Result<Option<PatchNo>, AllocError> {
        let (Some(from), Some(to)) = (self.find(a), self.find(b)) else {
            return Ok(None);
        };
        if self.is_newest(to) || self.rests_on_leaves(from, to) {
            return Ok(None);
        }
        let count = self.classes.len();
        let mut marks = vec![in self.alloc; false; count]?;
        let mut dead_ends = vec![in self.alloc; false; count]?;
        let mut queue = vec![in self.alloc; 0; count]?;
        Ok(self.least_between(
            from,
            to,
            marks.as_mut_slice(),
            dead_ends.as_mut_slice(),
            queue.as_mut_slice(),
        ))
    }
}

// What changes them.
impl Plain {
    // Where the last writer of a byte of a block is noted.
    fn place_of(block: usize, byte: usize) -> usize {
        byte.saturating_mul(BLOCKS)
            .saturating_add(block.min(BLOCKS))
    }

    // Notes who wrote a byte of a block last. The one before.
    fn write(
        &mut self,
        block: usize,
        byte: usize,
        no: PatchNo,
    ) -> Result<Option<PatchNo>, AllocError> {
        let place = Plain::place_of(block, byte);
        if place >= self.writers.len() {
            self.writers.resize(place.saturating_add(1), None)?;
        }
        match self.writers.get_mut(place) {
            Some(writer) => Ok(writer.replace(no)),
            None => Ok(None),
        }
    }

    // The numbers that a patch of this span names, and of each of its bytes the patch that wrote it last.
    fn dependencies(
        &mut self,
        no: PatchNo,
        block: usize,
        start: usize,
        stop: usize,
        names: &[PatchNo],
    ) -> Result<Vec<PatchNo>, AllocError> {
        let mut after = Vec::from_slice(self.alloc, names)?;
        for byte in start..stop {
            if let Some(writer) = self.write(block, byte, no)? {
                after.push(writer)?;
            }
        }
        Ok(after)
    }

    /// Puts in a class of one patch of this span, which names earlier ones.
    pub fn add(
        &mut self,
        block: usize,
        start: usize,
        stop: usize,
        names: &[PatchNo],
    ) -> Result<(), AllocError> {
        let no = PatchNo(u32::try_from(self.keys.len()).unwrap_or(u32::MAX));
        self.keys.push(self.classes.len())?;
        let members = vec![in self.alloc; no]?;
        let after = self.dependencies(no, block, start, stop, names)?;
        self.classes.push(Some(PlainClass {
            name: no,
            block,
            members,
            after,
        }))?;
        Ok(())
    }

    // How many members the class at the key has.
    fn members_at(&self, key: usize) -> usize {
        match self.class_at(key) {
            Some(class) => class.members.len(),
            None => 0,
        }
    }

    // Whether there are two classes of one block at these keys.
    fn may_join(&self, keep: usize, gone: usize) -> bool {
        match (self.class_at(keep), self.class_at(gone)) {
            (Some(class), Some(other)) => keep != gone && class.block == other.block,
            _ => false,
        }
    }

    // Has these numbers lead to another key.
    fn redirect(&mut self, members: &[PatchNo], key: usize) {
        for no in members {
            if let Some(place) = self.keys.get_mut(no.0 as usize) {
                *place = key;
            }
        }
    }

    // Puts the class at the key `gone` into that at the key `keep`.
    fn join(&mut self, keep: usize, gone: usize) -> Result<(), AllocError> {
        if !self.may_join(keep, gone) {
            return Ok(());
        }
        let Some(place) = self.classes.get_mut(gone) else {
            return Ok(());
        };
        let Some(other) = place.take() else {
            return Ok(());
        };
        self.redirect(other.members.as_slice(), keep);
        match self.classes.get_mut(keep) {
            Some(Some(class)) => take_in(class, &other),
            _ => Ok(()),
        }
    }

    /// Makes one class of the classes of two patches, where they are two of one block.
    pub fn merge(&mut self, a: PatchNo, b: PatchNo) -> Result<(), AllocError> {
        let (Some(first), Some(second)) = (self.find(a), self.find(b)) else {
            return Ok(());
        };
        if self.members_at(first) < self.members_at(second) {
            self.join(second, first)
        } else {
            self.join(first, second)
        }
    }

    /// Forgets the class of a patch, with all its patches.
    pub fn forget(&mut self, no: PatchNo) {
        if let Some(key) = self.find(no) {
            if let Some(place) = self.classes.get_mut(key) {
                *place = None;
            }
        }
    }
}
