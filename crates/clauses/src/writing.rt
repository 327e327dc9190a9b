// Bytes and numbers put into a lent buffer, one after another.

ghost use Rattle.std.specs.Prelude.{◌≡◌, ◌∷◌, [], ◌+◌, ◌<◌, ◌≤◌, length};
ghost use Rattle.clauses.specs.Number.{decimal, field};
ghost use Rattle.clauses.specs.Writing.{Wrote};

// Puts one byte; the place after it.
pub fn put(text: &mut [u8], at: usize, b: u8) -> usize
    requires { at < length text.old }
    ensures { Wrote text.old at (b ∷ []) text.new result }
{
    text[at] = b;
    at + 1
}

// Puts bytes; the place after them.
pub fn put_bytes(text: &mut [u8], at: usize, bytes: &[u8]) -> usize
    requires { at + length bytes.now ≤ length text.old }
    ensures { Wrote text.old at bytes.now text.new result }
{
    let end = at + bytes.len();
    text[at..end].copy_from_slice(bytes);
    end
}

// Puts a number in decimal; the place after it.
#[tactic(auto, using(crate::proofs::Decimals::lengths))]
pub fn put_decimal(text: &mut [u8], at: usize, n: u64) -> usize
    requires { at + length (decimal n) ≤ length text.old }
    ensures { Wrote text.old at (decimal n) text.new result }
{
    let last = 48 + ((n % 10) as u8);
    if n < 10 {
        return put(text, at, last);
    }
    let next = put_decimal(text, at, n / 10);
    put(text, next, last)
}

// Puts a number in decimal and one byte after it; the place after both.
pub fn put_word(text: &mut [u8], at: usize, n: u64, b: u8) -> usize
    requires { at + length (field n b) ≤ length text.old }
    ensures { Wrote text.old at (field n b) text.new result }
{
    let next = put_decimal(text, at, n);
    put(text, next, b)
}

// How many digits a number has.
#[tactic(auto, using(crate::proofs::Decimals::lengths))]
pub fn decimal_length(n: u64) -> usize
    ensures { result ≡ length (decimal n) }
{
    if n < 10 {
        return 1;
    }
    decimal_length(n / 10) + 1
}
