//! What is asked of an array, and what it answers. Numbers are as the caller gave them: the checks judge them.
use array::refusal::Refused;
use array::volume::Run;
use bus::BlockAddress;
use layout::extent::ExtentRow;

// Volume set and block are two fields, and no `VolumeBlock`: the law's definitions take a call apart by its numbers.

/// One call. The buffer of a call that has one stands beside it.
#[derive(Clone, Copy, PartialEq, Eq, Debug)]
pub enum Call<'a> {
    /// Makes a group by the method with this code, on these extents.
    // The code is any number, as its caller gave it: what is no method's is for the checks to refuse.
    MakeGroup {
        group: usize,
        code: usize,
        depth: usize,
        extents: &'a [ExtentRow],
    },
    DeleteGroup {
        group: usize,
    },
    /// Makes a volume set of these runs.
    MakeVolume {
        volume: usize,
        runs: &'a [Run],
    },
    DeleteVolume {
        volume: usize,
    },
    /// Enables or disables writes of one volume set, or of all.
    WriteControl {
        volume: Option<usize>,
        enabled: bool,
    },
    /// Asks how many blocks a volume set has.
    Size {
        volume: usize,
    },
    /// Asks where a block of a volume set lies.
    Map {
        volume: usize,
        block: usize,
    },
    /// Reads a block of a volume set into the front of the buffer.
    Read {
        volume: usize,
        block: usize,
    },
    /// Writes the front of the buffer to a block of a volume set.
    Write {
        volume: usize,
        block: usize,
    },
}

/// What an accepted call answers.
#[derive(Clone, Copy, PartialEq, Eq, Debug)]
pub enum Value {
    Done,
    Blocks(usize),
    At(BlockAddress),
}

/// What a call answers: accepted with a value, or refused.
pub type Answer = Result<Value, Refused>;
