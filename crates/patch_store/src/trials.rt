//! Extents as some moves would leave them, before any of them is made.
ghost use Rattle.std.specs.Prelude.{◌≤◌};

/// An extent, and how far it would be filled.
#[derive(Clone, Copy)]
pub(crate) struct Filled {
    pub(crate) extent: u32,
    pub(crate) offset: u32,
}

/// Which extent would be current, and which would be empty. It takes no memory, and has nothing of the other extents.
#[derive(Drop)]
pub(crate) struct Trial<'s> {
    pub(crate) current: Option<Filled>,
    /// The lowest first.
    pub(crate) empty: &'s [u16],
    /// How many bytes an extent has.
    pub(crate) largest: u32,
    ghost short: { largest ≤ 262144 },
}
