//! A volume set as the array keeps it.
ghost use Rattle.std.specs.Prelude.{◌≤◌};

/// The most runs of a volume set.
pub const MOST_RUNS: usize = 4;

/// A block of a volume set: any numbers at all.
#[derive(Clone, Copy, PartialEq, Eq, Debug)]
pub struct VolumeBlock {
    pub volume: usize,
    pub block: usize,
}

/// A run of protected blocks of a group: any numbers at all.
#[derive(Clone, Copy, PartialEq, Eq, Debug)]
pub struct Run {
    pub group: usize,
    pub first: usize,
    pub count: usize,
}

// No heap here: room for the most runs, and `active` gives those that there are.

/// One to four runs, joined in order, and whether writes are enabled.
#[derive(Clone, Copy)]
pub struct Volume {
    pub(crate) runs: [Run; MOST_RUNS],
    pub(crate) count: usize,
    pub(crate) writes: bool,
    ghost some: { 1 ≤ count },
    ghost few: { count ≤ 4 },
}
