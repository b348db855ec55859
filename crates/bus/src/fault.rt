ghost use Rattle.std.specs.Prelude.{◌≡◌};
ghost use Rattle.bus.specs.Numbers.{number_of, address_of, drive_of, block_of, renumbered};

use crate::address::BlockAddress;

// Why a request was refused, with the block that it named. An enum and no struct of a cause and a block: all faults from here
// up are enums that `?` hands on.
#[derive(Clone, Copy, PartialEq, Eq, Debug)]
pub enum BusFault {
    // There is no such drive.
    NoDrive(BlockAddress),
    // The buffer is not one block long.
    Length(BlockAddress),
    // The drive has no such block.
    Range(BlockAddress),
    // The drive was broken already, or broke in this request.
    Broken(BlockAddress),
}

impl BusFault {
    // No From: `u8::from(fault)` would not say which number that is.

    // The number of the refusal.
    pub fn number(self) -> u8
        ensures { result ≡ number_of self }
    {
        match self {
            BusFault::NoDrive(_) => 4,
            BusFault::Length(_) => 6,
            BusFault::Range(_) => 7,
            BusFault::Broken(_) => 9,
        }
    }

    // The block that the request named.
    pub fn at(self) -> BlockAddress
        ensures { result ≡ address_of self }
    {
        match self {
            BusFault::NoDrive(at) | BusFault::Length(at) => at,
            BusFault::Range(at) | BusFault::Broken(at) => at,
        }
    }

    pub fn drive(self) -> usize
        ensures { result ≡ drive_of self }
    {
        self.at().drive
    }

    pub fn block(self) -> usize
        ensures { result ≡ block_of self }
    {
        self.at().block
    }

    // The same fault of another drive. Each case stays what it is, so it is named on both sides.
    pub fn at_drive(self, d: usize) -> BusFault
        ensures { result ≡ renumbered d self }
    {
        let at = BlockAddress {
            drive: d,
            ..self.at()
        };
        match self {
            BusFault::NoDrive(_) => BusFault::NoDrive(at),
            BusFault::Length(_) => BusFault::Length(at),
            BusFault::Range(_) => BusFault::Range(at),
            BusFault::Broken(_) => BusFault::Broken(at),
        }
    }
}
