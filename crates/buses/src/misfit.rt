ghost use Rattle.std.specs.Prelude.{◌≡◌};
ghost use Rattle.buses.specs.Fitting.{misfit_number};

// Why a bus can't be made as it is asked for.
#[derive(Clone, Copy, PartialEq, Eq, Debug)]
pub enum Misfit {
    // More than 16 drives.
    Count,
    // A capacity that is not 1 to 65,536 blocks.
    Capacity,
    // Bytes that the drives don't fill exactly.
    Bytes,
}

impl Misfit {
    // No From: `u8::from(misfit)` would not say which number that is.

    // The number of the refusal.
    pub fn number(self) -> u8
        ensures { result ≡ misfit_number self }
    {
        match self {
            Misfit::Count | Misfit::Capacity | Misfit::Bytes => 3,
        }
    }
}
