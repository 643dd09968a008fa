//! The block of a segment that begins at a word, without a division, since every reference that is marked needs it.
//!
//! For blocks of d words, the distance of the word from the segment's first word is multiplied by 65,536 / d, rounded up. The
//! product without its 16 lowest binary digits is the number of the block that holds the word. These digits are below the
//! factor exactly if the block begins at the word. In at most 4,096 words, rounding errors stay below the factor.
ghost use Rattle.std.specs.Prelude.{ℕ, ◌≡◌, ◌≢◌, ◌*◌, ◌<◌, ◌≤◌, IfSome, IfNone};
ghost use Rattle.nmgc_object.specs.{Words.block_size, declared.size.TheConstants.MAX_BLOCK_WORDS};

use nmgc_object::size::MAX_CLASS;

// For each class, 65,536 divided by the words of a block and rounded up.
static RECIPROCALS: [u32; MAX_CLASS as usize + 1] = [
    16384, 13108, 10923, 9363, 8192, 7282, 6554, 5958, 5462, 5042, 4682, 4370, 4096, 2048, 1024,
    512, 256, 128, 64, 32, 16,
];

/// Returns the number of the block that begins `offset` words into a segment with blocks of the class, or `None` exactly if
/// none does. The number may be past the segment's last block. Takes no memory, and constant time.
pub fn block_at_offset(offset: u32, class: u8) -> Option<u32>
    requires offset { offset < MAX_BLOCK_WORDS }
    requires class { class ≤ MAX_CLASS }
    ensures some { IfSome result (λ block. offset ≡ block * block_size class) }
    ensures none { IfNone result ((block : ℕ) → offset ≢ block * block_size class) }
{
    let factor = RECIPROCALS[usize::from(class)];
    let product = offset * factor;
    let digits = product % 65536;
    if digits < factor {
        Some(product >> 16)
    } else {
        None
    }
}
