//! Counts of a byte in a word, lane by lane: `add_matches`.

ghost use Rattle.std.specs.Prelude.{◌≡◌, ℕ, ◌+◌, ◌-◌, ◌<◌, ◌≤◌, ◌^◌, ◌⊎◌, All, length, slice_index};
ghost use Rattle.check_lanes.specs.Counted.{counted, matched};

use std::simd::prelude::*;

/// How many places one step over lanes takes.
const LANES: usize = 16;

/// Adds 1 at each of the 16 places from `at` on where the word has the byte.
fn add_lanes(counts: &mut [u32], word: &[u8], byte: u8, at: usize)
    requires lengths { length counts.old ≡ length word.now }
    requires lanes { at + 16 ≤ length counts.old }
    requires room { (k : ℕ) → at ≤ k → k < at + 16 → slice_index counts.old k < 2 ^ 32 - 1 }
    ensures length { length counts.new ≡ length counts.old }
    ensures lanes { (k : ℕ) → at ≤ k → k < at + 16
        → slice_index counts.new k ≡ slice_index counts.old k + matched byte (slice_index word.now k) }
    ensures others { (k : ℕ) → (k < at) ⊎ (at + 16 ≤ k)
        → slice_index counts.new k ≡ slice_index counts.old k }
{
    let letters: u32x16 = u8x16::from_slice(&word[at..]).cast();
    let matches = letters.simd_eq(u32x16::splat(u32::from(byte)));
    let more = matches.select(u32x16::splat(1), u32x16::splat(0));
    let sums = u32x16::from_slice(&counts[at..]) + more;
    sums.copy_to_slice(&mut counts[at..]);
}

/// Adds 1 at each place where the word has the byte.
///
/// The counts are as many as the word's letters, and each is below 2^32 - 1.
pub fn add_matches(counts: &mut [u32], word: &[u8], byte: u8)
    requires lengths { length counts.old ≡ length word.now }
    requires room { All (λ n. n < 2 ^ 32 - 1) counts.old }
    ensures counts { counts.new ≡ counted counts.old word.now byte }
    ensures length { length counts.new ≡ length counts.old }
{
    let mut at = 0;
    'lanes: while counts.len() - at >= LANES {
        add_lanes(counts, word, byte, at);
        at += LANES;
    }
    for place in at..counts.len() {
        if word[place] == byte {
            counts[place] += 1;
        }
    }
}
