//! Why a call is refused.
ghost use Rattle.std.specs.Prelude.{◌≡◌};
ghost use Rattle.layout.specs.Refusals.{number_of};

/// Why a call is refused; each refusal has the number of the check that failed.
#[derive(Clone, Copy, PartialEq, Eq, Debug)]
pub enum Refusal {
    /// Members, depth or rows are not within their rules.
    OutOfRule,
    /// A block, member or row lies outside.
    Outside,
}

impl Refusal {
    // No From: `u8::from(refusal)` would not say which number that is.

    /// The number of the check that failed.
    pub fn number(&self) -> u8
        ensures { result ≡ number_of self.now }
    {
        match self {
            Refusal::OutOfRule => 3,
            Refusal::Outside => 7,
        }
    }
}
