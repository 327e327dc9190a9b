// Signs of literals.

ghost use Rattle.std.specs.Prelude.{◌≡◌};
ghost use Rattle.clauses.specs.Code.{negate};
ghost use Rattle.clauses.specs.Sign.{flip, is_inverse};

// The inverse of a literal or a constant.
pub fn inverse(x: u32) -> u32
    ensures { result ≡ negate x }
{
    if x % 2 == 0 { x + 1 } else { x - 1 }
}

// Whether the literal is an inverse.
#[tactic(auto, unfolding(crate::specs::Sign::is_inverse))]
pub fn is_inverse(code: u32) -> bool
    ensures { result ≡ is_inverse code }
{
    code % 2 == 1
}

// The literal, inverted where `minus` is set.
pub fn flipped(minus: bool, code: u32) -> u32
    ensures { result ≡ flip minus code }
{
    if minus { inverse(code) } else { code }
}
