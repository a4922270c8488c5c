// Blocks, their owners, and the ranks of keys.

ghost use Rattle.std.specs.Prelude.{◌≡◌, ◌↔◌, ℕ, ◌<◌, ◌≤◌, IsTrue};
ghost use Rattle.hp_cuts.specs.declared.cuts.Span.{Span as SpecSpan};
ghost use Rattle.hp_cuts.specs.Blocks.{block_start, Owns, AreBlocks, holds};
ghost use Rattle.hp_cuts.specs.Targets.{target_of};

/// The places from one up to another, which is left out.
#[derive(Clone, Copy, Debug, PartialEq, Eq)]
pub struct Span {
    /// The first place, from 0.
    pub from: u64,
    /// The place behind the last.
    pub until: u64,
}

/// The place, from 0, at which the block of a rank begins in an array of this length; that of the rank past the last is the
/// length. With q the quotient of the length by the ranks and m the remainder, the first m blocks have q + 1 places, the
/// others q.
pub fn start(rank: u32, length: u64, ranks: u32) -> u64
    requires rank { rank ≤ ranks }
    requires some { 1 ≤ ranks }
    requires few { ranks ≤ 32 }
    ensures { result ≡ block_start rank length ranks }
{
    let ranks = u64::from(ranks);
    let rank = u64::from(rank);
    rank * (length / ranks) + rank.min(length % ranks)
}

/// The rank whose block holds a place of an array of this length.
pub fn owner(place: u64, length: u64, ranks: u32) -> u32
    requires inside { place < length }
    requires some { 1 ≤ ranks }
    requires few { ranks ≤ 32 }
    ensures owns { Owns place length ranks result }
    ensures alone { (other : ℕ) → Owns place length ranks other → other ≡ result }
{
    let count = u64::from(ranks);
    let short = length / count;
    let longer = length % count * short + length % count;
    let rank = if place < longer {
        place / (short + 1)
    } else {
        length % count + (place - longer) / short
    };
    rank as u32
}

/// The places that two ranges share; where there are none, both ends are one.
pub fn overlap(a: Span, b: Span) -> Span
    requires first { a.from ≤ a.until }
    requires second { b.from ≤ b.until }
    ensures ordered { result.from ≤ result.until }
    ensures shared { (place : ℕ) → IsTrue (holds result place) ↔ (IsTrue (holds a place) × IsTrue (holds b place)) }
{
    let from = a.from.max(b.from);
    let until = a.until.min(b.until);
    Span {
        from,
        until: until.max(from),
    }
}

/// The rank to which the rows of a key go: the key times 0x9E3779B97F4A7C15 (2^64 by the golden ratio, an odd number that
/// spreads neighbouring keys), of it the upper half of the product's low 64 bits, modulo the ranks.
pub fn target(key: i64, ranks: u32) -> u32
    requires some { 1 ≤ ranks }
    requires few { ranks ≤ 32 }
    ensures exact { result ≡ target_of ranks key }
    ensures rank { result < ranks }
{
    let spread = key.cast_unsigned().wrapping_mul(0x9E37_79B9_7F4A_7C15);
    ((spread >> 32) % u64::from(ranks)) as u32
}

/// The blocks of all ranks cover the array one after the other: they rise from 0 to the length, and each place has one
/// owner and no other.
pub fn block_laws()
    ensures blocks { (length ranks : ℕ) → 1 ≤ ranks → AreBlocks length ranks }
{}
