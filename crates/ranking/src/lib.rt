// Which of two servers outranks the other, from what a method measured of each, and the best server so
// far as a loop keeps it. What a choice over a set is, and its laws, are in specs/ and proofs/.

#![tactic(auto)]

ghost use Rattle.std.specs.Prelude.{◌≡◌, ◌+◌, ◌*◌, ◌^◌, ℕ, Bool};
ghost use Rattle.ranking.specs.Best.{kept};
ghost use Rattle.ranking.specs.Methods.{heavier as heavier-of, nearer as nearer-of};

// Whether server a outranks server b by weight, as HRW and the row table rank.
// Stays (4): as tuples an HRW pick among 64 servers takes a fifth more instructions than with two comparisons, as one number it takes fewer.
pub fn heavier(weight_a: u32, a: u32, weight_b: u32, b: u32) -> bool
    ensures { result ≡ heavier-of weight_a a weight_b b }
{
    ranked(weight_b, b) < ranked(weight_a, a)
}

// A weight with its server behind it, as one number.
fn ranked(weight: u32, server: u32) -> u64
    ensures { result ≡ weight * 2 ^ 32 + server }
{
    u64::from(weight) * 4294967296 + u64::from(server)
}

// Whether server a outranks server b by clockwise distance, as the ring ranks.
pub fn nearer(distance_a: u32, a: u32, distance_b: u32, b: u32) -> bool
    ensures { result ≡ nearer-of distance_a a distance_b b }
{
    if distance_a == distance_b {
        return a > b;
    }
    distance_a < distance_b
}

// What a method gives a packet without a record: the choice over the working servers, and whether it is unsafe.
#[derive(Clone, Copy, PartialEq, Eq)]
pub struct Pick {
    pub server: u32,
    pub flag: bool,
}

// A server with what a method measured of it, its weight or its distance: the best that a loop has met, or
// one more.
#[derive(Clone, Copy, PartialEq, Eq)]
pub struct Best {
    pub server: u32,
    pub measure: u32,
}

// A way to rank servers by what was measured of them.
pub trait Ranks {
    ghost outranks: { ℕ → ℕ → ℕ → ℕ → Bool };

    // Whether server a outranks server b.
    fn outranks(a: Best, b: Best) -> bool
        ensures { result ≡ outranks a.measure a.server b.measure b.server };
}

// By weight, as HRW and the row table rank.
pub struct ByWeight;

impl Ranks for ByWeight {
    ghost outranks = { heavier-of };

    fn outranks(a: Best, b: Best) -> bool {
        heavier(a.measure, a.server, b.measure, b.server)
    }
}

// By clockwise distance, as the ring ranks.
pub struct ByDistance;

impl Ranks for ByDistance {
    ghost outranks = { nearer-of };

    fn outranks(a: Best, b: Best) -> bool {
        nearer(a.measure, a.server, b.measure, b.server)
    }
}

// The best so far, none before the first server, or one more server, whichever outranks the other.
#[tactic(auto, unfolding(crate::specs::Best::kept))]
pub fn keep<R: Ranks>(best: Option<Best>, more: Best) -> Best
    ensures { result ≡ kept R.outranks best more }
{
    match best {
        Some(best) if !R::outranks(more, best) => best,
        _ => more,
    }
}
