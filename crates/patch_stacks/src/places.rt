//! A range of places among a block's records.
ghost use Rattle.std.specs.Prelude.{◌≡◌};
ghost use Rattle.patch_stacks.specs.Places.{no_places, with_places, spread, spread_over, below};

/// The places from the first up to the second, without it.
#[derive(Clone, Copy)]
pub(crate) struct Places {
    pub(crate) from: usize,
    pub(crate) to: usize,
}

impl Places {
    pub(crate) fn none() -> Places
        ensures { result ≡ no_places }
    {
        Places { from: 0, to: 0 }
    }

    /// With those from one place up to another, and what lies between.
    pub(crate) fn with(self, from: usize, to: usize) -> Places
        ensures { result ≡ with_places self from to }
    {
        if self.from < self.to {
            Places {
                from: self.from.min(from),
                to: self.to.max(to),
            }
        } else {
            Places { from, to }
        }
    }

    /// All of so many, unless there is none.
    pub(crate) fn spread(self, all: usize) -> Places
        ensures { result ≡ spread self all }
    {
        if self.from < self.to {
            Places { from: 0, to: all }
        } else {
            self
        }
    }

    /// All of so many, unless there is none and none more comes.
    pub(crate) fn spread_over(self, all: usize, is_one_more: bool) -> Places
        ensures { result ≡ spread_over self all is_one_more }
    {
        if is_one_more {
            Places { from: 0, to: all }
        } else {
            self.spread(all)
        }
    }

    /// Those below a place.
    pub(crate) fn below(self, stop: usize) -> Places
        ensures { result ≡ below self stop }
    {
        let to = self.to.min(stop);
        Places {
            from: self.from.min(to),
            to,
        }
    }
}
