//! What a method of redundancy is.
ghost use Rattle.std.specs.Prelude.{◌≡◌, ℕ, Bool, List};
ghost use Rattle.layout.specs.Methods.{Sound, Recovers, Updates, capped};

use crate::block::Block;

// `n` and `t` are no struct: `width_of`, `cycle_of` and `tolerance_of` have no strip, and `recover` has `n` from its row.
// `blocks` and `missing` are no slice of options: a recovered row is plain blocks, and where too many are missing no call fills
// them in, so that each reader would have to take a block out of an option that may be empty.

/// A method of redundancy: where the user blocks of a row lie, how its check blocks come from them, and how many
/// members may be missing. No call asks anything of its caller: a call of numbers that no group has answers by the
/// same definition.
pub trait Method {
    /// The least number of members.
    const LEAST: usize;

    // The same, for contracts.
    ghost LEAST: { ℕ };

    // With n members: how many user blocks a row has.
    ghost width: { ℕ → ℕ };

    // With n members: after how many strips the check members come round.
    ghost cycle: { ℕ → ℕ };

    // With n members, in strip t: the member that holds user block p of a row.
    ghost home: { ℕ → ℕ → ℕ → ℕ };

    // With n members, in strip t: whether member m holds a check block.
    ghost check: { ℕ → ℕ → ℕ → Bool };

    // With n members, in strip t: the blocks of all members, from the user blocks.
    ghost row: { ℕ → ℕ → List (List ℕ) → List (List ℕ) };

    // With n members: how many may be missing.
    ghost tolerance: { ℕ → ℕ };

    /// How many of `n` members may be missing.
    fn tolerance_of(n: usize) -> usize
        ensures { result ≡ tolerance n };

    /// How many user blocks a row of `n` members has.
    fn width_of(n: usize) -> usize
        ensures { result ≡ width n };

    /// After how many strips the check members come round, with `n` members.
    fn cycle_of(n: usize) -> usize
        ensures { result ≡ cycle n };

    /// The member that holds user block `p` of a row in strip `t`.
    fn home_of(n: usize, t: usize, p: usize) -> usize
        ensures { result ≡ capped (home n t p) };

    /// Whether member `m` holds a check block in strip `t`.
    fn is_check(n: usize, t: usize, m: usize) -> bool
        ensures { result ≡ check n t m };

    /// Brings the check block of member `m` from the user block `old` at `p` to `new`.
    fn update(n: usize, t: usize, p: usize, m: usize, old: &Block, new: &Block, block: &mut Block)
        ensures { Updates LEAST width check row n t p m old.now new.now block.old block.new };

    /// Fills in the blocks of the members that are missing, in a row in strip `t`.
    fn recover(t: usize, blocks: &mut [Block], missing: &[bool])
        ensures { Recovers LEAST width row tolerance t missing.now blocks.old blocks.new };

    // Of its places and rows; and with no more members missing than tolerated, the others determine every block of a row.
    ghost sound: { Sound LEAST width cycle home check row tolerance };
}
