// What is left of an XOR's literals when each is replaced by its lead: a set of at most four nets, and the signs.

ghost use Rattle.std.specs.Prelude.{◌≡◌, List, ◌∷◌, ℕ, ◌<◌};
ghost use Rattle.clauses.specs.Code.{net};
ghost use Rattle.rules.specs.Answer.{lead_of};
ghost use Rattle.closure.specs.Xors.{toggled, odd_nets, packed, Digits, others, rest_of, Packable};

use crate::lead::lead_of;
use clauses::sign::is_inverse;

// The nets of odd count, 16 bits for each in ascending order, and whether the number of inverses is odd.
#[derive(Clone, Copy)]
pub struct Rest {
    pub key: u64,
    pub odd: bool,
}

// A packed set with net w put in, or taken out if it was in.
fn toggle(w: u64, key: u64) -> u64
    requires { (w < 65536) × (key < 281474976710656) }
    ensures one { key < 1 → result < 65536 }
    ensures two { key < 65536 → result < 4294967296 }
    ensures three { key < 4294967296 → result < 281474976710656 }
    ensures nets { (l : List ℕ) → Digits l → key ≡ packed l → result ≡ packed (toggled w l) }
{
    if key == 0 {
        return w;
    }
    let low = key % 65536;
    let rest = key / 65536;
    if w == low {
        return rest;
    }
    if w < low {
        return key * 65536 + w;
    }
    toggle(w, rest) * 65536 + low
}

impl Rest {
    // With one more literal, whose lead is given.
    fn with(self, lead: u32) -> Rest
        requires { (net lead < 65536) × (self.key < 281474976710656) }
        ensures { (f : ℕ → ℕ) (x : ℕ) (xs : List ℕ) → f x ≡ lead → Digits (odd_nets f xs) → self ≡ rest_of f xs → result ≡ rest_of f (x ∷ xs) }
    {
        let w = (lead / 2) as u64;
        Rest {
            key: if w == 0 {
                self.key
            } else {
                toggle(w, self.key)
            },
            odd: is_inverse(lead) != self.odd,
        }
    }
}

// What is left of the literals at n places from b on, that at place p aside.
pub fn rest_of(codes: &[u32], old: &[u32], b: usize, n: usize, p: usize) -> Rest
    requires { Packable old.now codes.now b n p }
    ensures { result ≡ rest_of (lead_of old.now) (others codes.now p b n) }
{
    let mut r = Rest { key: 0, odd: false };
    for q in b..b + n {
        if q != p {
            r = r.with(lead_of(old, codes[q]));
        }
    }
    r
}
