// What a mark says of its place: the tests of the finder's contract.

ghost use Rattle.std.specs.Prelude.{◌≡◌};
ghost use Rattle.gates.specs.Found.{is_and, is_select_next, is_select_after, is_xor, is_pair};

// At a literal's place: it is the output of an AND of its clause.
pub fn is_and(mark: u8) -> bool
    ensures { result ≡ is_and mark }
{
    mark % 2 == 1
}

// Its inverse is the select of an ITE whose output is the inverse of the next literal.
pub fn is_select_next(mark: u8) -> bool
    ensures { result ≡ is_select_next mark }
{
    mark / 2 % 2 == 1
}

// .. of the literal after the next.
pub fn is_select_after(mark: u8) -> bool
    ensures { result ≡ is_select_after mark }
{
    mark / 4 % 2 == 1
}

// At the end of a clause: it stands for an XOR.
pub fn is_xor(mark: u8) -> bool
    ensures { result ≡ is_xor mark }
{
    mark == 1
}

// It has two literals, and the clause of their inverses is present too.
pub fn is_pair(mark: u8) -> bool
    ensures { result ≡ is_pair mark }
{
    mark == 2
}
