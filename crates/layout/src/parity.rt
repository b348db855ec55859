//! The method XOR: one check block to a row, the exclusive or of the row's user blocks, on a member that rotates.
ghost use Rattle.std.specs.Prelude.{◌≡◌, ◌%◌};
ghost use Rattle.layout.specs.Methods.{xor_width, xor_cycle, xor_home, xor_check, xor_row, xor_tolerance};
ghost use Rattle.layout.specs.XorLaw.{xor_sound};

use crate::block::{Block, first_missing, xor_block, xor_others};
use crate::method::Method;

/// The method XOR. One member may be missing.
#[derive(Clone, Copy, PartialEq, Eq, Debug)]
pub struct Parity;

/// The check member of strip `t` with `n` members.
pub fn parity_member(n: usize, t: usize) -> usize
    ensures { result ≡ t % n }
{
    t.checked_rem(n).unwrap_or(t)
}

impl Method for Parity {
    const LEAST: usize = 3;

    ghost LEAST = { 3 };

    ghost width = { xor_width };

    ghost cycle = { xor_cycle };

    ghost home = { xor_home };

    ghost check = { xor_check };

    ghost row = { xor_row };

    ghost tolerance = { xor_tolerance };

    ghost sound = { xor_sound };

    fn tolerance_of(_n: usize) -> usize {
        1
    }

    fn width_of(n: usize) -> usize {
        n.saturating_sub(1)
    }

    fn cycle_of(n: usize) -> usize {
        n
    }

    fn home_of(n: usize, t: usize, p: usize) -> usize {
        let c = parity_member(n, t);
        if p < c { p } else { p.saturating_add(1) }
    }

    fn is_check(n: usize, t: usize, m: usize) -> bool {
        m == parity_member(n, t)
    }

    fn update(
        _n: usize,
        _t: usize,
        _p: usize,
        _m: usize,
        old: &Block,
        new: &Block,
        block: &mut Block,
    ) {
        xor_block(block, old);
        xor_block(block, new);
    }

    fn recover(_t: usize, blocks: &mut [Block], missing: &[bool]) {
        // Where no mark says that a member is missing, the member after the marks counts as the first, if there is one.
        let m = first_missing(missing).unwrap_or(missing.len());
        if m < blocks.len() {
            let block = xor_others(blocks, m);
            blocks[m] = block;
        }
    }
}
