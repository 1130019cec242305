//! How an engine begins anew, so that it is never spent.
ghost use Rattle.std.specs.Prelude.{◌≡◌, None, Some, OnOk, OnErr};
ghost use Rattle.patch_model.specs.Execution.{Execution};
ghost use Rattle.patch_model.specs.Renewed.{renewed};
ghost use Rattle.patch_engine.specs.Meaning.{IsEngineOf};
ghost use Rattle.patch_engine.specs.Refusals.{why_not_begun_anew, live_cause};

use crate::engines::Engine;
use patch_cache::Live;
use patch_model::laws as model_laws;
use patch_plans::laws as plan_laws;
use std::alloc::Allocator;

impl<A: Allocator + Copy> Engine<A> {
    /// Begins anew where no patch is in memory or in flight, and each group is closed or was never engaged: the numbers of patches,
    /// of writes and of groups begin at 0 again. The resident blocks stay, with their bytes. It takes no memory.
    pub fn renew(&mut self) -> Result<(), Live>
        ensures done { (run : Execution) → IsEngineOf self.old run → OnOk result
            ((why_not_begun_anew run self.old.groups ≡ None) × IsEngineOf self.new (renewed run)) }
        ensures blocks { self.new.cache.blocks ≡ self.old.cache.blocks }
        ensures cause { (run : Execution) → IsEngineOf self.old run → OnErr result
            (why_not_begun_anew run self.old.groups ≡ Some live_cause) }
        ensures refused { (run : Execution) → IsEngineOf self.old run → OnErr result (self.new ≡ self.old) }
    {
        model_laws::flights_are_single();
        plan_laws::order_is_kept();
        if self.cache.live() > 0 {
            return Err(Live);
        }
        self.groups.renew()?;
        // Never refused in an engine that represents an execution: no patch is live. Of no other is anything promised.
        self.cache.renew()?;
        Ok(())
    }
}
