// The signature of an AND: the sum of the hashes of the different leads at its inputs' places, F left out. Equal sets have equal signatures.

ghost use Rattle.std.specs.Prelude.{◌≡◌, ◌<◌, length};
ghost use Rattle.closure.specs.Holding.{Blank, Low};
ghost use Rattle.closure.specs.Inputs.{HoldsInputs, SummedInputs};
ghost use Rattle.closure.specs.Matching.{Placed, hash_of, share_of, Signature, spread_of};
ghost use Rattle.closure.specs.KeptAnds.{KeyOf};

use crate::inputs::Inputs;
use crate::lead::lead_of;

// The hash of a lead, 0 for F. There are two primes, since the sums of a polynomial modulo one are equal for many different sets.
fn hash_of(y: u32) -> u64
    ensures { result ≡ hash_of y }
{
    let x = y as u64 * 2654435761 % 4294967291;
    let square = x * x % 4294967291;
    square * square % 4503599627370449
}

// What the lead y adds to a signature: its hash, unless it is held.
fn share(held: &[bool], y: u32) -> u64
    requires { y < length held.now }
    ensures { result ≡ share_of held.now y }
{
    if held[y as usize] { 0 } else { hash_of(y) }
}

// A signature's hash. Signatures alone that are equal modulo the number of buckets stay so when their sets lose or get the same lead.
fn spread_of(s: u64) -> u64
    ensures { result ≡ spread_of s }
{
    (s % 4294967291) * (s % 4294967279) % 4503599627370449
}

impl Inputs<'_> {
    // Holds their leads, and sums the hashes of the different ones.
    fn hold_sum(&self, held: &mut [bool]) -> u64
        requires { Blank held.old }
        ensures held { HoldsInputs self.now held.new }
        ensures sum { SummedInputs self.now result }
    {
        let mut sum = 0;
        for q in self.start..self.end {
            if q != self.output {
                let y = lead_of(self.old, self.codes[q]);
                sum += share(held, y);
                held[y as usize] = true;
            }
        }
        sum
    }

    // Their signature.
    fn signature(&self, held: &mut [bool]) -> u64
        requires { Blank held.old }
        ensures signed { Signature self.now.codes.now self.now.old.now self.now.output result }
        ensures blank { Blank held.new }
    {
        let sum = self.hold_sum(held);
        self.release(held);
        sum
    }
}

// The key of the AND at p: the hash of its signature.
pub fn key_of(codes: &[u32], old: &[u32], p: usize, held: &mut [bool]) -> u64
    requires { Placed codes.now p × Low codes.now old.now × Blank held.old }
    ensures key { KeyOf codes.now old.now p result }
    ensures blank { Blank held.new }
{
    spread_of(Inputs::of(codes, old, p).signature(held))
}
