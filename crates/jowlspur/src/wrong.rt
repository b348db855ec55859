// What is wrong with a line that is not carried out.
ghost use Rattle.std.specs.Prelude.{◌≡◌};
ghost use Rattle.jowlspur.specs.Wrongs.{wrong_of};
ghost use Rattle.jowlspur.specs.Printing.{complaint};
ghost use Rattle.jowlspur.specs.declared.wrong.Wrong.TheVariants.{NoMemory};

use script::BytesFault;
use std::alloc::AllocError;

#[derive(Clone, Copy, PartialEq, Eq, Debug)]
pub enum Wrong {
    Unknown,
    Missing,
    Surplus,
    Number,
    Bytes,
    TooLong,
    Access,
    NoBus,
    NoMemory,
}

impl From<BytesFault> for Wrong {
    ghost from_gives = { λ fault wrong. wrong ≡ wrong_of fault };

    fn from(fault: BytesFault) -> Wrong {
        match fault {
            BytesFault::Malformed => Wrong::Bytes,
            BytesFault::TooLong => Wrong::TooLong,
            BytesFault::NoMemory => Wrong::NoMemory,
        }
    }
}

impl From<AllocError> for Wrong {
    ghost from_gives = { λ _ wrong. wrong ≡ NoMemory };

    fn from(_: AllocError) -> Wrong {
        Self::NoMemory
    }
}

impl Wrong {
    // Bytes and no `Display`: `write!` to a `Vec` does not say what stands there when it fails.
    pub fn text(self) -> &'static [u8]
        ensures { result.now ≡ complaint self }
    {
        match self {
            Wrong::Unknown => b"unknown word",
            Wrong::Missing => b"a word is missing",
            Wrong::Surplus => b"a word too many",
            Wrong::Number => b"not a number from 0 to 18446744073709551615",
            Wrong::Bytes => b"not a byte string",
            Wrong::TooLong => b"a buffer is at most 1048576 bytes",
            Wrong::Access => b"accesses are counted from 1",
            Wrong::NoBus => b"there is no bus yet",
            Wrong::NoMemory => b"no memory",
        }
    }
}
