//! A group: its members, their marks, and its geometry.
ghost use Rattle.std.specs.Prelude.{◌≡◌, ℕ, ◌+◌, ◌<◌, ◌≤◌, length, ◌≢◌};
ghost use Rattle.group.specs.Group.{member};

use crate::member::Member;
use layout::geometry::{Geometry, MOST_MEMBERS};

// No heap here: room for the most members, and `active` gives those that there are.

/// A group of up to 8 members, on different drives. What holds of it whatever the bus stands in its type.
#[derive(Clone, Copy, PartialEq, Eq, Debug)]
pub struct Group {
    pub(crate) number: usize,
    pub(crate) geometry: Geometry,
    pub(crate) members: [Member; MOST_MEMBERS],
    ghost eight: { length members ≡ 8 },
    ghost apart: { (i j : ℕ) → (i < j) × (j < geometry.members) → (member members i).drive ≢ (member members j).drive },
    ghost ends: { (i : ℕ) → i < geometry.members → (member members i).start + geometry.rows ≤ 65536 },
    ghost marked: { (i : ℕ) → i < geometry.members → (member members i).mark ≤ geometry.rows },
}

impl Group {
    pub fn number(&self) -> usize
        ensures { result ≡ self.now.number }
    {
        self.number
    }

    pub fn geometry(&self) -> Geometry
        ensures { result ≡ self.now.geometry }
    {
        self.geometry
    }
}
