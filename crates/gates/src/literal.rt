// Literals inverted by a mask.

ghost use Rattle.std.specs.Prelude.{◌≡◌};
ghost use Rattle.clauses.specs.Sign.{flip, is_inverse};

// The literal, inverted if the mask's lowest bit is set.
pub fn flipped(x: u32, mask: u32) -> u32
    ensures { result ≡ flip (is_inverse mask) x }
{
    x ^ (mask % 2)
}
