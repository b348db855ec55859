//! Why a call is refused.
ghost use Rattle.std.specs.Prelude.{◌≡◌, IsTrue, MatchResult};
ghost use Rattle.std.specs.Bool.{IsFalse};
ghost use Rattle.array.specs.Refusals.{number_of, sense_of, plain};
ghost use Rattle.array.specs.declared.refusal.Refusal.TheVariants.{Field};

use crate::kind::UnknownMethod;
use crate::volume::VolumeBlock;
use bus::BlockAddress;

/// The check that failed. One number can have two senses.
#[derive(Clone, Copy, PartialEq, Eq, Debug)]
pub enum Refusal {
    /// A number is outside its rule: method, members, depth, rows, counts, the length of a list.
    Field,
    /// A drive is not on the bus.
    NoDrive,
    /// A group or volume set is not configured, or not free where it is to be made.
    NotConfigured,
    /// The buffer is too short.
    ShortBuffer,
    /// An extent, a run or a block lies outside.
    Outside,
    /// Extents or runs are assigned or overlap, members share a drive, a deleted group has runs.
    Conflict,
    /// A drive is broken, or broke.
    Broken,
    /// Writes are disabled.
    WritesDisabled,
    /// The block to be read is lost.
    LostReading,
    /// The block to be written is lost, or its row was.
    LostWriting,
}

/// What a host is told of a refusal.
#[derive(Clone, Copy, PartialEq, Eq, Debug)]
pub struct Sense {
    pub key: u8,
    pub code: u8,
    pub qualifier: u8,
}

// Two variants and no option of a block of a volume set: faults are enums from the bus up, and the variant says how far this one
// came.

/// The drive that a refusal names, with all that is known of it.
#[derive(Clone, Copy, PartialEq, Eq, Debug)]
pub enum Fault {
    /// The drive, and its block which is the member's block of the row.
    OfRow {
        group: usize,
        row: usize,
        member: usize,
        at: BlockAddress,
    },
    /// The same, met on the way to a block of a volume set.
    OfBlock {
        of: VolumeBlock,
        group: usize,
        row: usize,
        member: usize,
        at: BlockAddress,
    },
}

/// A refused call: the check that failed, and the drive to blame where drives have to do with it.
#[derive(Clone, Copy, PartialEq, Eq, Debug)]
pub struct Refused {
    pub refusal: Refusal,
    pub fault: Option<Fault>,
}

impl Refusal {
    // No From: `u8::from(refusal)` would not say which number; nor has the enum numbers of its own, since two of them share one.

    /// The number of the check.
    pub fn number(self) -> u8
        ensures { result ≡ number_of self }
    {
        match self {
            Refusal::Field => 3,
            Refusal::NoDrive => 4,
            Refusal::NotConfigured => 5,
            Refusal::ShortBuffer => 6,
            Refusal::Outside => 7,
            Refusal::Conflict => 8,
            Refusal::Broken => 9,
            Refusal::WritesDisabled => 10,
            Refusal::LostReading | Refusal::LostWriting => 11,
        }
    }

    /// Its sense; none where no command of a host leads to it.
    pub fn sense(self) -> Option<Sense>
        ensures { result ≡ sense_of self }
    {
        let (key, code) = match self {
            Refusal::Field | Refusal::ShortBuffer => (0x05, 0x24),
            Refusal::NoDrive => (0x05, 0x25),
            Refusal::NotConfigured => (0x05, 0x68),
            Refusal::Outside => (0x05, 0x21),
            Refusal::Conflict | Refusal::Broken => return None,
            Refusal::WritesDisabled => (0x07, 0x27),
            Refusal::LostReading => (0x03, 0x11),
            Refusal::LostWriting => (0x03, 0x0c),
        };
        Some(Sense {
            key,
            code,
            qualifier: 0,
        })
    }
}

// With no drive to blame.
impl From<Refusal> for Refused {
    ghost from_gives = { λ x y. y ≡ plain x };

    fn from(refusal: Refusal) -> Refused {
        Refused {
            refusal,
            fault: None,
        }
    }
}

// A method is a number of the call.
impl From<UnknownMethod> for Refused {
    ghost from_gives = { λ _ y. y ≡ plain Field };

    fn from(_: UnknownMethod) -> Refused {
        Refusal::Field.into()
    }
}

// Refused by `refusal`, with no drive to blame, unless the check holds.
pub(crate) fn ensure(holds: bool, refusal: Refusal) -> Result<(), Refused>
    ensures { MatchResult result (λ _. IsTrue holds) (λ x. IsFalse holds × (x ≡ plain refusal)) }
{
    if holds { Ok(()) } else { Err(refusal.into()) }
}
