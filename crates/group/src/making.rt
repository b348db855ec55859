//! Making a group.
ghost use Rattle.std.specs.Prelude.{◌≡◌, ℕ, ◌<◌, length, set, MatchBool, MatchOption, MatchResult, ◌≢◌};
ghost use Rattle.group.specs.Filling.{extent};
ghost use Rattle.group.specs.Group.{member as memberOf};
ghost use Rattle.group.specs.Making.{Fits, MadeTo, Movable, Unmovable};

use crate::member::Member;
use crate::record::Group;
use layout::extent::{Extent, ExtentRow, MOST_BLOCKS};
use layout::geometry::{Geometry, MOST_MEMBERS};

// Whether one of the rows is on drive `d`.
fn drive_taken(extents: &[ExtentRow], d: usize) -> bool
    ensures { MatchBool result ((i : ℕ) × (i < length extents.now) × ((extent extents.now i).drive ≡ d)) ((i : ℕ) → i < length extents.now → (extent extents.now i).drive ≢ d) }
{
    extents.iter().any(|row| row.drive == d)
}

impl Group {
    /// Group `number` on these extents, each of as many blocks as the group has rows, every member whole; none where
    /// they are not as many as the members, not sound, not of that count or not on different drives.
    pub fn new(number: usize, geometry: Geometry, extents: &[ExtentRow]) -> Option<Group>
        ensures { MatchOption result (Fits extents.now geometry → ⊥) (λ g. Fits extents.now geometry × (g.number ≡ number) × (g.geometry ≡ geometry) × MadeTo extents.now g.members geometry.members) }
    {
        if extents.len() != geometry.members() {
            return None;
        }
        let mut members = [Member {
            drive: 0,
            start: 0,
            mark: 0,
        }; MOST_MEMBERS];
        for (i, row) in extents.iter().enumerate() {
            Extent::new(*row)?;
            if row.count != geometry.rows() || drive_taken(&extents[0..i], row.drive) {
                return None;
            }
            members[i] = Member {
                drive: row.drive,
                start: row.start,
                mark: row.count,
            };
        }
        Some(Group {
            number,
            geometry,
            members,
        })
    }
}

/// Why a member may not move.
#[derive(Clone, Copy, PartialEq, Eq, Debug)]
pub enum MoveRefusal {
    /// There is no such member.
    NoMember,
    /// The rows would end beyond block 65,536.
    PastEnd,
    /// Another member is on that drive.
    DriveTaken,
}

// Whether a member but `i` is on drive `d`.
fn other_on(members: &[Member], i: usize, d: usize) -> bool
    ensures { MatchBool result ((j : ℕ) × (j < length members.now) × (j ≢ i) × ((memberOf members.now j).drive ≡ d)) ((j : ℕ) → j < length members.now → (j ≢ i) → (memberOf members.now j).drive ≢ d) }
{
    members
        .iter()
        .enumerate()
        .any(|(j, member)| j != i && member.drive == d)
}

impl Group {
    /// Moves member `i` to the blocks from `start` on of `drive`, none of them rebuilt; refused, and nothing changed, where
    /// there is no such member, the rows would end beyond block 65,536, or another member is on that drive.
    pub fn move_member(&mut self, i: usize, drive: usize, start: usize) -> Result<(), MoveRefusal>
        ensures cases { MatchResult result (λ _. Movable self.old.geometry.members self.old.geometry.rows self.old.members i drive start × (self.new.members ≡ set self.old.members i (record { drive = drive; start = start; mark = 0 }))) (λ e. Unmovable self.old.geometry.members self.old.geometry.rows self.old.members i drive start e × (Movable self.old.geometry.members self.old.geometry.rows self.old.members i drive start → ⊥) × (self.new.members ≡ self.old.members)) }
        ensures same { (self.new.number ≡ self.old.number) × (self.new.geometry ≡ self.old.geometry) }
    {
        if i >= self.geometry.members() {
            return Err(MoveRefusal::NoMember);
        }
        if start > MOST_BLOCKS - self.geometry.rows() {
            return Err(MoveRefusal::PastEnd);
        }
        if other_on(self.active(), i, drive) {
            return Err(MoveRefusal::DriveTaken);
        }
        self.members[i] = Member {
            drive,
            start,
            mark: 0,
        };
        Ok(())
    }
}
