//! Whether an array has any extent.
ghost use Rattle.std.specs.Prelude.{ℕ, IsTrue, ◌↔◌};
ghost use Rattle.array.specs.Arrays.{config};
ghost use Rattle.array.specs.Configuration.{Configured};

use crate::tables::Array;

impl Array {
    /// Whether no group is configured.
    pub fn is_empty(&self) -> bool
        ensures { IsTrue result ↔ ((g : ℕ) → Configured (config self.now).groups g → ⊥) }
    {
        self.groups.iter().all(|slot| slot.is_none())
    }
}
