//! What answers lines.
ghost use Rattle.std.specs.Prelude.{IfOk};
ghost use Rattle.patch_replay.specs.Answering.{IsAnswered, HasComeTo};
ghost use Rattle.patch_replay.specs.World.{World};

use patch_model::OutOfMemory;
use patch_script::{Answer, Line};
use std::alloc::Global;

/// What answers the lines of a script, one after another.
pub trait Core {
    /// The core is where this world has come.
    ghost IsAt: { Self → World → Type 0 };

    /// Answers a line. Want of memory leaves the core unfit for use.
    fn answer(&mut self, alloc: Global, line: Line) -> Result<Answer, OutOfMemory>
        ensures { (w : World) → IsAt self.old w → IfOk result (λ answer.
            HasComeTo (IsAnswered w line answer) (IsAt self.new)) };
}
