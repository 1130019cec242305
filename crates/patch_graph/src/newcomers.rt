//! A patch that is to be added.
ghost use Rattle.std.specs.Prelude.{◌≡◌};

use patch_links::Class;
use patch_model::PatchNo;
use std::alloc::{Allocator, Global};
use std::marker::Model;

/// A patch that was drawn up by [`draw_up`](crate::Graph::draw_up): the class that it will be, with what it depends on.
#[derive(Drop)]
pub struct Newcomer<A: Allocator = Global> {
    class: Class<A>,
}

impl<A: Allocator> Model for Newcomer<A> {
    ghost use Rattle.patch_links.specs.State.{Class as Seen};

    ghost Value = { Seen };

    ghost view = { λ n. n.class };
}

impl<A: Allocator> Newcomer<A> {
    /// The patch of this class.
    pub(crate) fn of(class: Class<A>) -> Newcomer<A>
        ensures { result ≡ class }
    {
        Newcomer { class }
    }

    /// The number that the patch gets.
    pub fn no(&self) -> PatchNo
        ensures { result ≡ self.now.name }
    {
        self.class.name
    }

    /// Whether the patch is hard.
    pub fn is_hard(&self) -> bool
        ensures { result ≡ self.now.hard }
    {
        self.class.hard
    }

    /// Its class.
    pub(crate) fn into_class(self) -> Class<A>
        ensures { result ≡ self }
    {
        self.class
    }
}
