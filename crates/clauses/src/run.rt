// Runs of items that pass a test.

ghost use Rattle.std.specs.Prelude.{◌≡◌, Bool, ◌+◌, length, drop};
ghost use Rattle.clauses.specs.Bytes.{front};
ghost use Rattle.clauses.specs.Scanning.{Computes};

// The end of the run of items that pass the test, from a place on; the run may be empty. The place is counted by hand: with a `for`
// over places, reading and printing take 7 percent more time.
#[tactic(auto, using(crate::proofs::Runs::runs))]
pub fn run_end<T: Copy, F: Fn(T) -> bool>(items: &[T], at: usize, test: F) -> usize
    requires { F.IsAlwaysCallable test }
    ensures { (p : T → Bool) → Computes (F.post test) p → result ≡ at + length (front p (drop at items.now)) }
{
    let mut i = at;
    while i < items.len() && test(items[i]) {
        i += 1;
    }
    i
}
