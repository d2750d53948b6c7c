// Tests of a whole list.
ghost use Rattle.std.specs.Prelude.{◌≡◌};
ghost use Rattle.base.specs.Lists.{every, below, rising};

use crate::Number;

// No element ends the pass, so that the compiler takes several at a time.
fn part_below<T: Number>(s: &[T], bound: usize) -> bool
    ensures { result ≡ every (λ x. below bound (T.value x)) s.now }
{
    let mut all = true;
    for x in s {
        all &= x.is_below(bound);
    }
    all
}

// A part at a time: one with an element that is not below ends the pass, so that a refusal costs no pass over the rest.
pub fn all_below<T: Number>(s: &[T], bound: usize) -> bool
    ensures { result ≡ every (λ x. below bound (T.value x)) s.now }
{
    for part in s.chunks(1024) {
        if !part_below(part, bound) {
            return false;
        }
    }
    true
}

// By index: a slower call is a defect, and with the library's `is_sorted` here and numbers widened to 64 bits above, a matrix's check took about
// three times its time.
pub fn never_falls(s: &[u32]) -> bool
    ensures { result ≡ rising s.now }
{
    for i in 1..s.len() {
        if s[i - 1] > s[i] {
            return false;
        }
    }
    true
}
