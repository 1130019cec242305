//! What links answer, computed anew each time.
use std::alloc::{AllocError, Global};

/// A live class: its patches, its block, whether it is in flight, and what its patches depend on.
#[derive(Drop)]
pub struct SlowClass {
    pub members: Vec<u32>,
    pub block: u32,
    pub flying: bool,
    pub after: Vec<u32>,
}

/// The live classes.
#[derive(Drop)]
pub struct Slow {
    pub classes: Vec<SlowClass>,
    pub alloc: Global,
}

fn has(list: &[u32], no: u32) -> bool {
    list.iter().any(|other| *other == no)
}

fn is_in(set: &[bool], place: usize) -> bool {
    match set.get(place) {
        Some(mark) => *mark,
        None => false,
    }
}

fn put(set: &mut [bool], place: usize, mark: bool) {
    if place < set.len() {
        set[place] = mark;
    }
}

impl Slow {
    /// The place of the class of a patch.
    pub fn place_of(&self, no: u32) -> Option<usize> {
        let mut place = 0;
        for class in self.classes.iter() {
            if has(class.members.as_slice(), no) {
                return Some(place);
            }
            place = place.wrapping_add(1);
        }
        None
    }

    /// Whether a class of the block is in flight.
    pub fn is_flying(&self, block: u32) -> bool {
        self.classes
            .iter()
            .any(|class| class.block == block && class.flying)
    }

    fn is_kept_out(&self, place: usize, class: &SlowClass, set: &[bool]) -> bool {
        for no in class.after.iter() {
            if let Some(other) = self.place_of(*no) {
                if other != place && !is_in(set, other) {
                    return true;
                }
            }
        }
        false
    }

    // Whether any was struck out.
    fn strike(&self, set: &mut [bool]) -> bool {
        let mut place = 0;
        let mut any = false;
        for class in self.classes.iter() {
            if is_in(set, place) && self.is_kept_out(place, class, set) {
                put(set, place, false);
                any = true;
            }
            place = place.wrapping_add(1);
        }
        any
    }

    /// Which classes may be sent with the block.
    pub fn ready(&self, block: u32) -> Result<Vec<bool>, AllocError> {
        let mut set = Vec::new(self.alloc);
        for class in self.classes.iter() {
            set.push(class.block == block && !class.flying)?;
        }
        for _ in 0..self.classes.len() {
            if !self.strike(set.as_mut_slice()) {
                break;
            }
        }
        Ok(set)
    }

    /// The numbers of these, rising.
    pub fn ready_numbers(&self, block: u32) -> Result<Vec<u32>, AllocError> {
        let set = self.ready(block)?;
        let mut all = Vec::new(self.alloc);
        let mut place = 0;
        for class in self.classes.iter() {
            if is_in(set.as_slice(), place) {
                all.extend_from_slice(class.members.as_slice())?;
            }
            place = place.wrapping_add(1);
        }
        all.sort()?;
        Ok(all)
    }

    /// Puts in a class of one patch.
    pub fn add(&mut self, no: u32, block: u32, after: &[u32]) -> Result<(), AllocError> {
        let class = SlowClass {
            members: Vec::from_slice(self.alloc, &[no])?,
            block,
            flying: false,
            after: Vec::from_slice(self.alloc, after)?,
        };
        self.classes.push(class)?;
        Ok(())
    }

    /// Puts in flight what may be sent with the block.
    pub fn fly(&mut self, block: u32) -> Result<(), AllocError> {
        let set = self.ready(block)?;
        let mut place = 0;
        for class in self.classes.iter_mut() {
            if is_in(set.as_slice(), place) {
                class.flying = true;
            }
            place = place.wrapping_add(1);
        }
        Ok(())
    }

    /// Forgets what is in flight of the block.
    pub fn land(&mut self, block: u32) {
        self.classes
            .retain(|class| !(class.flying && class.block == block));
    }

    /// Whether a chain of classes leads from the one place to the other, through a third one at least.
    fn leads_around(&self, from: usize, to: usize) -> Result<bool, AllocError> {
        let mut met = Vec::new(self.alloc);
        for _ in 0..self.classes.len() {
            met.push(false)?;
        }
        put(met.as_mut_slice(), from, true);
        for _ in 0..self.classes.len() {
            self.spread(met.as_mut_slice(), to);
        }
        let mut place = 0;
        for class in self.classes.iter() {
            if place != from && is_in(met.as_slice(), place) && self.depends(class, to) {
                return Ok(true);
            }
            place = place.wrapping_add(1);
        }
        Ok(false)
    }

    fn depends(&self, class: &SlowClass, place: usize) -> bool {
        class
            .after
            .iter()
            .any(|no| self.place_of(*no) == Some(place))
    }

    // Adds what those that were met depend on, but for one.
    fn spread(&self, met: &mut [bool], but: usize) {
        let mut place = 0;
        for class in self.classes.iter() {
            if is_in(met, place) {
                self.meet(class, met, but);
            }
            place = place.wrapping_add(1);
        }
    }

    fn meet(&self, class: &SlowClass, met: &mut [bool], but: usize) {
        for no in class.after.iter() {
            if let Some(other) = self.place_of(*no) {
                if other != but {
                    put(met, other, true);
                }
            }
        }
    }

    fn are_alike(&self, one: usize, other: usize) -> bool {
        match (self.classes.get(one), self.classes.get(other)) {
            (Some(a), Some(b)) => { one != other && !a.flying && !b.flying && a.block == b.block }
            _ => false,
        }
    }

    /// Whether the classes of two patches are two of one block, both in memory.
    pub fn may_join(&self, one: u32, other: u32) -> bool {
        match (self.place_of(one), self.place_of(other)) {
            (Some(a), Some(b)) => self.are_alike(a, b),
            _ => false,
        }
    }

    /// Whether a class made of theirs would be in a ring.
    pub fn makes_ring(&self, one: u32, other: u32) -> Result<bool, AllocError> {
        match (self.place_of(one), self.place_of(other)) {
            (Some(a), Some(b)) => Ok(self.leads_around(a, b)? || self.leads_around(b, a)?),
            _ => Ok(false),
        }
    }

    // Takes the class of a patch out.
    fn take(&mut self, no: u32) -> Option<SlowClass> {
        let place = self.place_of(no)?;
        if place < self.classes.len() {
            Some(self.classes.remove(place))
        } else {
            None
        }
    }

    /// Makes the classes of two patches one.
    pub fn join(&mut self, keep: u32, gone: u32) -> Result<(), AllocError> {
        let Some(other) = self.take(gone) else {
            return Ok(());
        };
        let Some(place) = self.place_of(keep) else {
            return Ok(());
        };
        if let Some(class) = self.classes.get_mut(place) {
            class.members.extend_from_slice(other.members.as_slice())?;
            class.after.extend_from_slice(other.after.as_slice())?;
        }
        Ok(())
    }
}
