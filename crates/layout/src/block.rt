//! Blocks of 512 bytes, their bytewise exclusive or, and marks of missing members.
ghost use Rattle.std.specs.Prelude.{SomeIff, ◌≡◌, ℕ, ◌<◌, [], length, replicate, slice_index, slice_set};
ghost use Rattle.layout.specs.Blocks.{xor, xor_all, mixed, missing_count, first_missing, first_present, XorLaws};

/// The bytes of a block.
pub type Block = [u8; 512];

/// That the bytes of a slice fit their type, as a fact for proofs.
pub fn bytes_fit(s: &[u8])
    ensures { (j : ℕ) → slice_index s.now j < 256 }
{}

/// Each byte of `dst` becomes its exclusive or with that of `src`; a byte beyond the end of `src` stays.
pub fn xor_into(dst: &mut [u8], src: &[u8])
    ensures { dst.new ≡ mixed dst.old src.now }
{
    // Both are cut to the shorter length first: no byte beyond is gone over, and the loop tests no index, so clang makes it SSE.
    // No zip: of the adapters of `iter_mut` only under `enumerate` does the check know `dst` in the loop.
    let n = dst.len().min(src.len());
    let src = &src[..n];
    for (i, byte) in dst[..n].iter_mut().enumerate() {
        *byte ^= src[i];
    }
}

/// The same at whole blocks.
pub fn xor_block(dst: &mut Block, src: &Block)
    ensures { dst.new ≡ xor dst.old src.now }
{
    xor_into(dst, src);
}

/// The exclusive or of all blocks but the one at `m`.
pub fn xor_others(blocks: &[Block], m: usize) -> Block
    ensures { result ≡ xor (replicate 512 0) (xor_all (slice_set blocks.now m [])) }
{
    let mut all = [0; 512];
    for (i, block) in blocks.iter().enumerate() {
        if i != m {
            xor_block(&mut all, block);
        }
    }
    all
}

/// How many members are marked as missing.
pub fn count_missing(missing: &[bool]) -> usize
    ensures { result ≡ missing_count missing.now }
{
    missing.iter().filter(|gone| **gone).count()
}

// Two searches and not one by the mark that is looked for: each is one line, and names what it finds.

/// The first missing member, if there is one.
pub fn first_missing(missing: &[bool]) -> Option<usize>
    ensures { SomeIff result (first_missing missing.now < length missing.now) (first_missing missing.now) }
{
    missing.iter().position(|gone| *gone)
}

/// The first member that is not missing, if there is one.
pub fn first_present(missing: &[bool]) -> Option<usize>
    ensures { SomeIff result (first_present missing.now < length missing.now) (first_present missing.now) }
{
    missing.iter().position(|gone| !*gone)
}

/// The laws of the exclusive or hold.
#[tactic(auto, using(crate::specs::XorBytes::xor_laws))]
pub fn xor_laws_stand()
    ensures { XorLaws }
{}
