//! The method none: every member holds user blocks, and there is no check data.
ghost use Rattle.layout.specs.Methods.{none_width, one_strip, none_home, none_check, none_row, none_tolerance};
ghost use Rattle.layout.specs.NoneLaw.{none_sound};

use crate::block::Block;
use crate::method::Method;

/// The method none. It tolerates no missing member.
#[derive(Clone, Copy, PartialEq, Eq, Debug)]
pub struct Unprotected;

impl Method for Unprotected {
    const LEAST: usize = 1;

    ghost LEAST = { 1 };

    ghost width = { none_width };

    ghost cycle = { one_strip };

    ghost home = { none_home };

    ghost check = { none_check };

    ghost row = { none_row };

    ghost tolerance = { none_tolerance };

    ghost sound = { none_sound };

    fn tolerance_of(_n: usize) -> usize {
        0
    }

    fn width_of(n: usize) -> usize {
        n
    }

    fn cycle_of(_n: usize) -> usize {
        1
    }

    fn home_of(_n: usize, _t: usize, p: usize) -> usize {
        p
    }

    fn is_check(_n: usize, _t: usize, _m: usize) -> bool {
        false
    }

    fn update(
        _n: usize,
        _t: usize,
        _p: usize,
        _m: usize,
        _old: &Block,
        _new: &Block,
        _block: &mut Block,
    ) {}

    fn recover(_t: usize, _blocks: &mut [Block], _missing: &[bool]) {}
}
