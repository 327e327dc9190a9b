// How many gates of each kind have been found: three numbers, lent to one increment for each kind.

ghost use Rattle.std.specs.Prelude.{◌≡◌, ◌+◌, ◌<◌};
ghost use Rattle.gates.specs.Running.{with_ands, with_xors, with_ites};

#[derive(Clone, Copy, Default)]
pub struct Counts {
    pub ands: u32,
    pub xors: u32,
    pub ites: u32,
}

// n ANDs more.
pub fn add_ands(counts: &mut Counts, n: u32)
    requires { counts.old.ands + n < 4294967296 }
    ensures { counts.new ≡ with_ands counts.old n }
{
    counts.ands += n;
}

// n XORs more.
pub fn add_xors(counts: &mut Counts, n: u32)
    requires { counts.old.xors + n < 4294967296 }
    ensures { counts.new ≡ with_xors counts.old n }
{
    counts.xors += n;
}

// n ITEs more.
pub fn add_ites(counts: &mut Counts, n: u32)
    requires { counts.old.ites + n < 4294967296 }
    ensures { counts.new ≡ with_ites counts.old n }
{
    counts.ites += n;
}
