//! The methods of redundancy by kind: which method a group has, known only as the program runs.
ghost use Rattle.std.specs.Prelude.{◌≡◌, ◌<◌, ◌≤◌};
ghost use Rattle.layout.specs.Places.{Fits, PlaceOf, protected};
ghost use Rattle.layout.specs.Refusals.{Answered, AnsweredBoth};
ghost use Rattle.layout.specs.declared.refusal.Refusal.TheVariants.{Outside};
ghost use Rattle.std.specs.Option.{ok_or};
ghost use Rattle.array.specs.Kinds.{method, method_of, method_code, unknown};

use layout::geometry::{Geometry, Place};
use layout::mirror::Mirror;
use layout::parity::Parity;
use layout::refusal::Refusal;
use layout::unprotected::Unprotected;

// Five functions of a group have one arm for each method. A trait with a method that is generic in the method of redundancy
// would be no plainer: it wants a struct and an impl for each of the five, whose clauses are then members of the trait. A
// macro for the arms would save lines, and hide which function is called.

/// How the check blocks of a group come from its user blocks.
#[derive(Clone, Copy, PartialEq, Eq, Debug)]
pub enum MethodKind {
    /// There are none.
    NoRedundancy,
    /// Every member holds the same block.
    Copy,
    /// The bytewise exclusive or.
    Xor,
}

/// A code that is no supported method's.
#[derive(Clone, Copy, PartialEq, Eq, Debug)]
pub struct UnknownMethod(pub usize);

// By the code of the standard's table.
impl TryFrom<usize> for MethodKind {
    type Error = UnknownMethod;

    ghost try_from_gives = { λ code r. r ≡ ok_or (method_of code) (unknown code) };

    fn try_from(code: usize) -> Result<MethodKind, UnknownMethod> {
        match code {
            0 => Ok(MethodKind::NoRedundancy),
            1 => Ok(MethodKind::Copy),
            2 => Ok(MethodKind::Xor),
            _ => Err(UnknownMethod(code)),
        }
    }
}

// The code of the standard's table.
impl From<MethodKind> for usize {
    ghost from_gives = { λ kind code. code ≡ method_code kind };

    fn from(kind: MethodKind) -> usize {
        match kind {
            MethodKind::NoRedundancy => 0,
            MethodKind::Copy => 1,
            MethodKind::Xor => 2,
        }
    }
}

impl MethodKind {
    /// The geometry of a group by this method; refused as `Geometry::new` does.
    pub fn geometry(self, members: usize, depth: usize, rows: usize) -> Result<Geometry, Refusal>
        ensures { AnsweredBoth (Fits (method self) members depth rows) (rows ≤ 65536) (λ g. (g.members ≡ members) × (g.depth ≡ depth) × (g.rows ≡ rows)) result }
    {
        match self {
            MethodKind::NoRedundancy => Geometry::new::<Unprotected>(members, depth, rows),
            MethodKind::Copy => Geometry::new::<Mirror>(members, depth, rows),
            MethodKind::Xor => Geometry::new::<Parity>(members, depth, rows),
        }
    }

    /// How many protected blocks a group of this geometry has.
    pub fn protected_blocks(self, geometry: &Geometry) -> usize
        ensures { result ≡ protected (method self) geometry.now.members geometry.now.rows }
    {
        match self {
            MethodKind::NoRedundancy => geometry.protected_blocks::<Unprotected>(),
            MethodKind::Copy => geometry.protected_blocks::<Mirror>(),
            MethodKind::Xor => geometry.protected_blocks::<Parity>(),
        }
    }

    /// The place of protected block `q`.
    pub fn locate(self, geometry: &Geometry, q: usize) -> Result<Place, Refusal>
        ensures { Answered (q < protected (method self) geometry.now.members geometry.now.rows) (PlaceOf (method self) geometry.now.members geometry.now.depth geometry.now.rows q) Outside result }
    {
        match self {
            MethodKind::NoRedundancy => geometry.locate::<Unprotected>(q),
            MethodKind::Copy => geometry.locate::<Mirror>(q),
            MethodKind::Xor => geometry.locate::<Parity>(q),
        }
    }
}
