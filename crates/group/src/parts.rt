// What is in memory of a row.
ghost use Rattle.std.specs.Prelude.{◌≡◌, ℕ, ◌<◌, ◌≤◌, true, false, MatchOption, [], length, slice_index_or, slice_set};
ghost use Rattle.layout.specs.Blocks.{missing_count};
ghost use Rattle.group.specs.Sweeps.{FromRow};

use layout::block::{Block, count_missing};
use layout::geometry::MOST_MEMBERS;
use layout::method::Method;
use layout::row::replace_user;
use std::marker::PhantomData;

// No heap here: who works on a row has room for as many members as a group can have, and lends it; the parts are as much of
// it as there are members. A struct with the room in it would be copied, 4 KiB, wherever it is moved. The marks are no
// options of blocks, since a method recovers a row of plain blocks.

// The blocks of a row, in a strip, and marks of the members that were not read.
#[derive(Drop)]
pub(crate) struct Parts<'p, M: Method> {
    pub(crate) strip: usize,
    pub(crate) blocks: &'p mut [Block],
    pub(crate) unread: &'p mut [bool],
    method: PhantomData<M>,
    ghost enough: { M.Method.LEAST ≤ length blocks.now },
    ghost few: { length blocks.now ≤ 8 },
    ghost marked: { length unread.now ≡ length blocks.now },
}

// The member that holds user block `p` of a row in strip `t`.
pub(crate) fn place<M: Method>(n: usize, t: usize, p: usize) -> usize
    requires { (M.Method.LEAST ≤ n) × ((n ≤ 8) × (p < M.Method.width n)) }
    ensures { result ≡ M.Method.home n t p }
{
    M::home_of(n, t, p)
}

impl<'p, M: Method> Parts<'p, M> {
    // Nothing was read, of `count` members; `blocks` and `unread` are room for what will be.
    pub(crate) fn new(
        count: usize,
        strip: usize,
        blocks: &'p mut [Block; MOST_MEMBERS],
        unread: &'p mut [bool; MOST_MEMBERS],
    ) -> Parts<'p, M>
        requires enough { M.Method.LEAST ≤ count }
        requires few { count ≤ 8 }
        ensures count { length result.blocks.now ≡ count }
        ensures strip { result.strip ≡ strip }
        ensures none { (k : ℕ) → slice_index_or result.unread.now k true ≡ true }
    {
        let blocks = &mut blocks[..count];
        let unread = &mut unread[..count];
        unread.fill(true);
        Parts {
            strip,
            blocks,
            unread,
            method: PhantomData,
        }
    }

    // How many members were not read.
    pub(crate) fn unread(&self) -> usize
        ensures { result ≡ missing_count self.now.unread.now }
    {
        count_missing(self.unread)
    }

    // The member `i` was read.
    pub(crate) fn put(&mut self, i: usize, block: Block)
        requires { i < length self.old.blocks.now }
        ensures strip { self.new.strip ≡ self.old.strip }
        ensures blocks { self.new.blocks.now ≡ slice_set self.old.blocks.now i block }
        ensures unread { self.new.unread.now ≡ slice_set self.old.unread.now i false }
    {
        self.blocks[i] = block;
        self.unread[i] = false;
    }

    // The parts, if enough were read.
    pub(crate) fn known(self) -> Option<Known<'p, M>>
        ensures { MatchOption result (M.Method.tolerance (length self.entry.blocks.now) < missing_count self.entry.unread.now) (λ k. k.parts ≡ self.entry) }
    {
        if self.unread() > M::tolerance_of(self.blocks.len()) {
            return None;
        }
        Some(Known { parts: self })
    }
}

// Parts of a row of which enough were read to know the others.
#[derive(Drop)]
pub(crate) struct Known<'p, M: Method> {
    parts: Parts<'p, M>,
    ghost enough: { missing_count parts.unread.now ≤ M.Method.tolerance (length parts.blocks.now) },
}

impl<'p, M: Method> Known<'p, M> {
    // The block of member `m`.
    pub(crate) fn block(self, m: usize) -> &'p Block
        requires { m < length self.parts.blocks.now }
        ensures { FromRow M.Method (length self.entry.parts.blocks.now) self.entry.parts.strip self.entry.parts.unread.now self.entry.parts.blocks.now (λ us. result.now ≡ slice_index_or (M.Method.row (length self.entry.parts.blocks.now) self.entry.parts.strip us) m []) }
    {
        let Parts {
            strip,
            blocks,
            unread,
            ..
        } = self.parts;
        M::recover(strip, blocks, unread);
        &blocks[m]
    }

    // User block `p`.
    pub(crate) fn user(self, p: usize) -> &'p Block
        requires { p < M.Method.width (length self.parts.blocks.now) }
        ensures { FromRow M.Method (length self.entry.parts.blocks.now) self.entry.parts.strip self.entry.parts.unread.now self.entry.parts.blocks.now (λ us. result.now ≡ slice_index_or us p []) }
    {
        let home = place::<M>(self.parts.blocks.len(), self.parts.strip, p);
        self.block(home)
    }

    // All blocks of the row with another user block `p`.
    pub(crate) fn replaced(self, p: usize, new: &Block) -> &'p [Block]
        requires { p < M.Method.width (length self.parts.blocks.now) }
        ensures count { length result.now ≡ length self.entry.parts.blocks.now }
        ensures row { FromRow M.Method (length self.entry.parts.blocks.now) self.entry.parts.strip self.entry.parts.unread.now self.entry.parts.blocks.now (λ us. result.now ≡ M.Method.row (length self.entry.parts.blocks.now) self.entry.parts.strip (slice_set us p new.now)) }
    {
        let Parts {
            strip,
            blocks,
            unread,
            ..
        } = self.parts;
        // It is not refused: enough were read, and the row has the block.
        let _ = replace_user::<M>(strip, blocks, unread, p, new);
        blocks
    }
}
