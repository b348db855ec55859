ghost use Rattle.std.specs.Prelude.{◌≡◌, ℕ, Result as Res};
ghost use Rattle.group.specs.declared.fault.RowFault.{RowFault as TheFault};
ghost use Rattle.group.specs.Seen.{seen};
ghost use Rattle.group.specs.Faults.{group_number};

use bus::{BlockAddress, BusFault};

/// Why a request at a row was refused, with the member that is to blame.
#[derive(Clone, Copy, PartialEq, Eq, Debug)]
pub enum RowFault {
    /// The row is lost, and this member is missing: more are than the method tolerates.
    Lost {
        member: usize,
        row: usize,
    },
    /// The member's drive failed.
    Failed {
        fault: BusFault,
        member: usize,
        row: usize,
    },
}

// A trait, as `Result` is not ours: the question mark hands a drive's fault on, with its row and member, by one word.

/// A drive's answer, seen from the row that asked: `bus.write(..).at_row(member, row)?`.
pub trait AtRow<T>: Sized {
    ghost at: { Self → ℕ → ℕ → Res T TheFault };

    fn at_row(self, member: usize, row: usize) -> Result<T, RowFault>
        ensures { result ≡ at self member row };
}

impl<T: Drop> AtRow<T> for Result<T, BusFault> {
    ghost at = { λ s i r. seen i r s };

    fn at_row(self, member: usize, row: usize) -> Result<T, RowFault> {
        self.map_err(|fault| RowFault::Failed { fault, member, row })
    }
}

/// Why a call on a group was refused.
#[derive(Clone, Copy, PartialEq, Eq, Debug)]
pub enum GroupFault {
    /// The method has no group of so few members.
    OutOfRule,
    /// The buffer is shorter than a block.
    Short,
    /// There is no such block, member or row, or it lies beyond its drive.
    Outside,
    /// The member is rebuilt already, up to its end.
    Whole,
    /// The row is lost; this member, whose block of the row this is, is missing.
    Lost {
        group: usize,
        row: usize,
        member: usize,
        at: BlockAddress,
    },
    /// The drive of this member failed.
    Failed {
        group: usize,
        row: usize,
        member: usize,
        fault: BusFault,
    },
}

impl GroupFault {
    // No From: `u8::from(fault)` would not say which number that is.

    /// The number of the refusal.
    pub fn number(self) -> u8
        ensures { result ≡ group_number self }
    {
        match self {
            GroupFault::OutOfRule => 3,
            GroupFault::Short => 6,
            GroupFault::Outside => 7,
            GroupFault::Whole => 8,
            GroupFault::Lost { .. } => 11,
            GroupFault::Failed { fault, .. } => fault.number(),
        }
    }
}
