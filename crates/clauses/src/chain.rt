// Chains of numbers by buckets.

ghost use Rattle.std.specs.Prelude.{◌≡◌, ◌+◌, ◌<◌, length, get_or, set};

// Puts number m before the others of bucket b.
pub fn link(b: usize, m: usize, heads: &mut [u32], next: &mut [u32])
    requires { (b < length heads.old) × (m < length next.old) × (m < 4294967295) }
    ensures heads { heads.new ≡ set heads.old b (m + 1) }
    ensures next { next.new ≡ set next.old m (get_or heads.old b 0) }
{
    next[m] = heads[b];
    heads[b] = (m + 1) as u32;
}
