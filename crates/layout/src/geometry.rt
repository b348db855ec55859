//! The geometry of a group, and the place of every block.
ghost use Rattle.std.specs.Prelude.{◌≡◌, ◌+◌, ◌*◌, ◌/◌, ◌%◌, ◌<◌, ◌≤◌, ◌↔◌, true, IsTrue, MatchOption};
ghost use Rattle.layout.specs.declared.refusal.Refusal.TheVariants.{OutOfRule, Outside};
ghost use Rattle.layout.specs.Refusals.{Answered, AnsweredBoth};
ghost use Rattle.layout.specs.Places.{Fits, PlaceOf, OnePlaceEach, HeldAt, protected};

use crate::method::Method;
use crate::refusal::Refusal;

/// The most members of a group.
pub const MOST_MEMBERS: usize = 8;

// Whether a group by the method `M` may have `n` members, for the work on rows; the check of a geometry asks it itself.
pub(crate) fn members_fit<M: Method>(n: usize) -> bool
    ensures { IsTrue result ↔ ((M.Method.LEAST ≤ n) × (n ≤ 8)) }
{
    (M::LEAST..=MOST_MEMBERS).contains(&n)
}

/// The most blocks to the depth of a strip.
pub const MOST_DEPTH: usize = 64;

/// The most rows of a group.
pub const MOST_ROWS: usize = 65536;

/// The place of a protected block.
#[derive(Clone, Copy, PartialEq, Eq, Debug)]
pub struct Place {
    /// Its home.
    pub member: usize,
    /// Its row.
    pub row: usize,
    /// The strip of the row.
    pub strip: usize,
    /// Which user block of the row it is.
    pub slot: usize,
}

/// The members, the stripe depth and the rows of a group.
#[derive(Clone, Copy, PartialEq, Eq, Debug)]
pub struct Geometry {
    members: usize,
    depth: usize,
    rows: usize,
    ghost some_members: { 1 ≤ members },
    ghost few_members: { members ≤ 8 },
    ghost some_depth: { 1 ≤ depth },
    ghost small_depth: { depth ≤ 64 },
    ghost some_rows: { 1 ≤ rows },
    ghost few_rows: { rows ≤ 65536 },
    ghost whole_strips: { rows % depth ≡ 0 },
}

impl Geometry {
    /// Whether a group by the method `M` may have these numbers: `members` from the method's least to 8, `depth` from 1 to
    /// 64, and at least one row, in a multiple of the depth times the strips of a cycle.
    pub fn check<M: Method>(members: usize, depth: usize, rows: usize) -> Result<(), Refusal>
        ensures { Answered (Fits M.Method members depth rows) (λ _. Unit {0}) OutOfRule result }
    {
        let members_fit = (M::LEAST..=MOST_MEMBERS).contains(&members);
        if !members_fit || !(1..=MOST_DEPTH).contains(&depth) || rows == 0 {
            return Err(Refusal::OutOfRule);
        }
        let unit = depth * M::cycle_of(members);
        if !rows.is_multiple_of(unit) {
            return Err(Refusal::OutOfRule);
        }
        Ok(())
    }

    /// The geometry of a group by the method `M`. Rows that pass the check, but are more than an extent can have, are
    /// outside.
    pub fn new<M: Method>(members: usize, depth: usize, rows: usize) -> Result<Geometry, Refusal>
        ensures { AnsweredBoth (Fits M.Method members depth rows) (rows ≤ 65536) (λ g. (g.members ≡ members) × (g.depth ≡ depth) × (g.rows ≡ rows)) result }
    {
        Geometry::check::<M>(members, depth, rows)?;
        if rows > MOST_ROWS {
            return Err(Refusal::Outside);
        }
        Ok(Geometry {
            members,
            depth,
            rows,
        })
    }

    /// How many members there are.
    pub fn members(&self) -> usize
        ensures { result ≡ self.now.members }
    {
        self.members
    }

    /// The stripe depth: how many rows a strip has.
    pub fn depth(&self) -> usize
        ensures { result ≡ self.now.depth }
    {
        self.depth
    }

    /// How many rows there are.
    pub fn rows(&self) -> usize
        ensures { result ≡ self.now.rows }
    {
        self.rows
    }

    /// The strip of a row.
    pub fn strip_of(&self, row: usize) -> usize
        ensures { result ≡ row / self.now.depth }
    {
        row / self.depth
    }

    /// How many protected blocks there are.
    pub fn protected_blocks<M: Method>(&self) -> usize
        ensures { result ≡ protected M.Method self.now.members self.now.rows }
    {
        M::width_of(self.members) * self.rows
    }

    /// The place of protected block `q`. Every protected block has one place, inside the extents, that is no check
    /// block; no two have the same; and every other block of a member is check data.
    pub fn locate<M: Method>(&self, q: usize) -> Result<Place, Refusal>
        ensures place { Answered (q < protected M.Method self.now.members self.now.rows) (PlaceOf M.Method self.now.members self.now.depth self.now.rows q) Outside result }
        ensures each { OnePlaceEach M.Method self.now.members self.now.depth self.now.rows }
    {
        if q >= self.protected_blocks::<M>() {
            return Err(Refusal::Outside);
        }
        let width = M::width_of(self.members);
        let strip = q / (self.depth * width);
        let slot = q % (self.depth * width) / self.depth;
        Ok(Place {
            member: M::home_of(self.members, strip, slot),
            row: strip * self.depth + q % self.depth,
            strip,
            slot,
        })
    }

    /// Which protected block the block of a member in a row is; none where it is check data.
    pub fn held_at<M: Method>(&self, member: usize, row: usize) -> Result<Option<usize>, Refusal>
        ensures { Answered ((member < self.now.members) × (row < self.now.rows)) (HeldAt M.Method self.now.members self.now.depth self.now.rows member row) Outside result }
    {
        if member >= self.members || row >= self.rows {
            return Err(Refusal::Outside);
        }
        let strip = self.strip_of(row);
        let ahead = strip * (self.depth * M::width_of(self.members));
        let slot = slot_at::<M>(self.members, strip, member);
        Ok(slot.map(|slot| ahead + (slot * self.depth + row % self.depth)))
    }
}

/// Which user block of a row in strip `t` member `m` of `n` holds, if it holds one.
fn slot_at<M: Method>(n: usize, t: usize, m: usize) -> Option<usize>
    requires { (1 ≤ n) × ((n ≤ 8) × (m < n)) }
    ensures { MatchOption result (M.Method.check n t m ≡ true) (λ p. (p < M.Method.width n) × (M.Method.home n t p ≡ m)) }
{
    (0..M::width_of(n)).find(|p| M::home_of(n, t, *p) == m)
}
