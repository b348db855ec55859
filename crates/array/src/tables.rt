//! The tables of an array.
ghost use Rattle.std.specs.Prelude.{◌≡◌, length};
ghost use Rattle.array.specs.Configuration.{configuration};
ghost use Rattle.array.specs.Tables.{ExtentsApart, RunsFilled, RunsGrouped, RunsInside, RunsApart, Numbered};

use crate::slot::GroupSlot;
use crate::volume::Volume;

/// The most groups of an array.
pub const MOST_GROUPS: usize = 8;

/// The most volume sets of an array.
pub const MOST_VOLUMES: usize = 16;

// Not one generic struct for both tables: the check does not prove a derived Clone of a struct with an array of its type
// parameter. `scan::entry` looks a number up in either.

/// What is configured: up to 8 groups and 16 volume sets. What holds of the tables whatever the bus stands in the type.
#[derive(Clone, Copy)]
pub struct Array {
    pub(crate) groups: [Option<GroupSlot>; MOST_GROUPS],
    pub(crate) volumes: [Option<Volume>; MOST_VOLUMES],
    ghost eight: { length groups ≡ 8 },
    ghost sixteen: { length volumes ≡ 16 },
    ghost numbered: { Numbered groups },
    ghost extents: { ExtentsApart (configuration groups volumes) },
    ghost filled: { RunsFilled (configuration groups volumes) },
    ghost grouped: { RunsGrouped (configuration groups volumes) },
    ghost inside: { RunsInside (configuration groups volumes) },
    ghost runs: { RunsApart (configuration groups volumes) },
}
