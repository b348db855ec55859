//! The method copy: every member holds the same block.
ghost use Rattle.layout.specs.Methods.{copy_width, one_strip, copy_home, copy_check, copy_row, copy_tolerance};
ghost use Rattle.layout.specs.CopyLaw.{copy_sound};

use crate::block::{Block, first_present};
use crate::method::Method;

/// The method copy. All members but one may be missing.
#[derive(Clone, Copy, PartialEq, Eq, Debug)]
pub struct Mirror;

impl Method for Mirror {
    const LEAST: usize = 2;

    ghost LEAST = { 2 };

    ghost width = { copy_width };

    ghost cycle = { one_strip };

    ghost home = { copy_home };

    ghost check = { copy_check };

    ghost row = { copy_row };

    ghost tolerance = { copy_tolerance };

    ghost sound = { copy_sound };

    fn tolerance_of(n: usize) -> usize {
        n.saturating_sub(1)
    }

    fn width_of(_n: usize) -> usize {
        1
    }

    fn cycle_of(_n: usize) -> usize {
        1
    }

    fn home_of(_n: usize, _t: usize, _p: usize) -> usize {
        0
    }

    fn is_check(_n: usize, _t: usize, m: usize) -> bool {
        0 < m
    }

    fn update(
        _n: usize,
        _t: usize,
        _p: usize,
        _m: usize,
        _old: &Block,
        new: &Block,
        block: &mut Block,
    ) {
        *block = *new;
    }

    fn recover(_t: usize, blocks: &mut [Block], missing: &[bool]) {
        // Where no mark says that a member is present, the member after the marks counts as the first, if there is one.
        let from = first_present(missing).unwrap_or(missing.len());
        if from < blocks.len() {
            let block = blocks[from];
            blocks.fill(block);
        }
    }
}
