//! The register of the live classes: where each is found.
ghost use Rattle.std.specs.Prelude.{◌≡◌, ◌<◌, ℕ, [], None};
ghost use Rattle.std.specs.Option.{option_map, option_copied};
ghost use Rattle.patch_links.specs.State.{find, class_at};
ghost use Rattle.patch_graph.specs.Showing.{shown};

use crate::classes::{LiveClass, shown};
use crate::skylines::Skylines;
use patch_links::{Class, Links};
use patch_model::{Mark, PatchNo};
use std::alloc::{Allocator, Global};
use std::marker::Model;

/// How many patches were made, the live classes, and the skyline of each block.
#[derive(Drop)]
pub struct Register<A: Allocator = Global> {
    pub made: u32,
    pub links: Links<A>,
    pub skylines: Skylines<A>,
}

impl<A: Allocator> Model for Register<A> {
    ghost use Rattle.std.specs.Prelude.{◌≤◌};
    ghost use Rattle.patch_graph.specs.State.{Graph as Seen};
    ghost use Rattle.patch_graph.specs.Skyline.{lines_of, trimmed};

    ghost Value = { Seen };

    ghost view = { λ r. record { made = r.made; slots = r.links.slots; numbers = r.links.numbers; tops = trimmed (lines_of r.skylines.items) } };

    ghost invariant = { λ r. r.links.made ≤ r.made };
}

impl<A: Allocator + Copy> Register<A> {
    /// No patch yet.
    pub fn new(alloc: A) -> Register<A>
        ensures { result ≡ record { made = 0; slots = []; numbers = []; tops = [] } }
    {
        Register {
            made: 0,
            links: Links::new(alloc),
            skylines: Skylines::new(alloc),
        }
    }
}

impl<A: Allocator> Register<A> {
    /// How many patches were made.
    pub fn made(&self) -> u32
        ensures { result ≡ self.now.made }
    {
        self.made
    }

    /// The key of a live patch's class.
    pub fn find(&self, no: PatchNo) -> Option<usize>
        ensures { result ≡ find self.now.numbers no }
    {
        self.links.find(no)
    }

    /// A number below which no patch is live.
    pub fn lowest(&self) -> u32
        ensures { (n : ℕ) → n < result → find self.now.numbers n ≡ None }
    {
        self.links.lowest()
    }

    /// The class at a key.
    pub fn class_at(&self, key: usize) -> Option<&Class<A>>
        ensures { option_copied result ≡ class_at self.now.slots key }
    {
        self.links.class_at(key)
    }

    /// The name of the class at a key.
    pub fn name_at(&self, key: usize) -> Option<PatchNo>
        ensures { result ≡ option_map (λ c. c.name) (class_at self.now.slots key) }
    {
        match self.class_at(key) {
            Some(class) => Some(class.name),
            None => None,
        }
    }

    /// The mark of the class at a key.
    pub fn mark_at(&self, key: usize) -> Option<Mark>
        ensures { result ≡ option_map (λ c. c.mark) (class_at self.now.slots key) }
    {
        match self.class_at(key) {
            Some(class) => Some(class.mark),
            None => None,
        }
    }

    /// What the class at a key shows.
    pub fn shown_at(&self, key: usize) -> Option<LiveClass>
        ensures { result ≡ option_map shown (class_at self.now.slots key) }
    {
        match self.class_at(key) {
            Some(class) => Some(shown(class)),
            None => None,
        }
    }
}
