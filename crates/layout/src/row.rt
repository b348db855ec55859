//! The work on a row in memory, by any method: marks of its check blocks, and recovering, encoding and replacing.
ghost use Rattle.std.specs.Prelude.{◌≡◌, ℕ, ◌<◌, true, Ok, length, slice_index_or};
ghost use Rattle.layout.specs.Rows.{RightSize, RecoversRow, EncodesRow, ReplacesUser};

use crate::block::{Block, count_missing};
use crate::geometry::{MOST_MEMBERS, members_fit};
use crate::method::Method;

// Marks stand beside blocks here too, for the reason that `Method` gives.

/// Why a row stays as it is.
#[derive(Clone, Copy, PartialEq, Eq, Debug)]
pub enum RowError {
    /// The method can't have a row of so many members.
    Size,
    /// There are not as many marks as members.
    Marks,
    /// More members are missing than the method tolerates.
    Missing,
    /// The row has no such user block.
    NoBlock,
}

/// Marks the members that hold check blocks in strip `t`.
pub fn mark_checks<M: Method>(t: usize, marks: &mut [bool])
    ensures { (m : ℕ) → m < length marks.old → slice_index_or marks.new m true ≡ M.Method.check (length marks.old) t m }
{
    let n = marks.len();
    for (m, mark) in marks.iter_mut().enumerate() {
        *mark = M::is_check(n, t, m);
    }
}

/// Fills in the blocks of the members that are missing, of a row in strip `t`, if the others are enough; else the row
/// stays as it is.
pub fn recover_row<M: Method>(
    t: usize,
    blocks: &mut [Block],
    missing: &[bool],
) -> Result<(), RowError>
    ensures { RecoversRow M.Method t missing.now blocks.old blocks.new result }
{
    let n = blocks.len();
    if !members_fit::<M>(n) {
        return Err(RowError::Size);
    }
    if missing.len() != n {
        return Err(RowError::Marks);
    }
    if count_missing(missing) > M::tolerance_of(n) {
        return Err(RowError::Missing);
    }
    M::recover(t, blocks, missing);
    Ok(())
}

// Makes the check blocks of a row that the method can have; `marks` is room for their marks.
fn encode_in<M: Method>(t: usize, blocks: &mut [Block], marks: &mut [bool])
    requires size { RightSize M.Method blocks.old }
    requires room { length marks.old ≡ length blocks.old }
    ensures { EncodesRow M.Method t blocks.old blocks.new (Ok tt) }
{
    mark_checks::<M>(t, marks);
    M::recover(t, blocks, marks);
}

/// Makes the check blocks of a row in strip `t` from its user blocks. A row of a number of members that the method
/// does not have stays as it is.
pub fn encode_row<M: Method>(t: usize, blocks: &mut [Block]) -> Result<(), RowError>
    ensures { EncodesRow M.Method t blocks.old blocks.new result }
{
    let n = blocks.len();
    if !members_fit::<M>(n) {
        return Err(RowError::Size);
    }
    // No heap here: room for the marks of as many members as a row can have.
    let mut marks = [false; MOST_MEMBERS];
    encode_in::<M>(t, blocks, &mut marks[..n]);
    Ok(())
}

/// The row, in strip `t`, in which user block `p` is `new`: all its blocks, from those of the members that are not
/// missing, if these are enough; else it stays as it is.
pub fn replace_user<M: Method>(
    t: usize,
    blocks: &mut [Block],
    missing: &[bool],
    p: usize,
    new: &Block,
) -> Result<(), RowError>
    ensures { ReplacesUser M.Method t missing.now p new.now blocks.old blocks.new result }
{
    let n = blocks.len();
    if p >= M::width_of(n) {
        return Err(RowError::NoBlock);
    }
    recover_row::<M>(t, blocks, missing)?;
    let home = M::home_of(n, t, p);
    blocks[home] = *new;
    encode_row::<M>(t, blocks)
}
