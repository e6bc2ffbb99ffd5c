// Work on whole spans of bytes or other numbers: a caller lends the part of its buffer that is meant.

#![tactic(auto)]

ghost use Rattle.std.specs.Prelude.{◌≡◌};
ghost use Rattle.std.specs.List.{list_all};
ghost use Rattle.spans.specs.Spans.{all_zero, zeroed, closed, closed_with, shifted};

// Whether every place of a span holds x. All are read, with no early end: so they go many at a time.
pub fn all_are<T: Copy + PartialEq>(s: &[T], x: T) -> bool
    ensures { result ≡ list_all (λ y. T.eq y x) s.now }
{
    let mut all = true;
    for &y in s {
        all &= y == x;
    }
    all
}

// Whether every byte of a span is zero.
pub fn all_zero(s: &[u8]) -> bool
    ensures { result ≡ all_zero s.now }
{
    all_are(s, 0)
}

// Zeroes a span.
pub fn clear(s: &mut [u8])
    ensures { s.new ≡ zeroed s.old }
{
    s.fill(0);
}

// Closes the gap that the first k bytes of a span are: the rest moves to the front, zeros come in behind.
pub fn close(s: &mut [u8], k: usize)
    ensures { s.new ≡ closed k s.old }
{
    close_with(s, k, 0);
}

// Closes the gap that the first k places of a span are: the rest moves to the front, as many of x come in behind.
#[tactic(auto, using(std::proofs::lemmas::List::take_more_set, std::proofs::lemmas::List::replicate_more))]
pub fn close_with<T: Copy>(s: &mut [T], k: usize, x: T)
    ensures { s.new ≡ closed_with x k s.old }
{
    let rest = s.len().saturating_sub(k);
    shift(s, k);
    for place in &mut s[rest..] {
        *place = x;
    }
}

// Moves what follows the first k places of a span to its front; the last k places stay.
pub fn shift<T: Copy>(s: &mut [T], k: usize)
    ensures { s.new ≡ shifted k s.old }
{
    if k <= s.len() {
        s.copy_within(k.., 0);
    }
}
