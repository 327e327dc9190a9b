// A clause of a literal row, walked literal by literal up to its zero.

ghost use Rattle.std.specs.Prelude.{◌≡◌, pos, get_or};
ghost use Rattle.clauses.specs.Walk.{advanced};

// A literal row and a place in it.
#[derive(Clone, Copy)]
pub struct Walk<'a> {
    pub row: &'a [i32],
    pub at: usize,
}

// The next literal, or 0 at the clause's end, and past the row's. The walk goes on behind it.
pub fn next<'s, 'a>(walk: &'s mut Walk<'a>) -> i32
    ensures { (result ≡ get_or walk.old.row.now walk.old.at (pos 0)) × (walk.new ≡ advanced walk.old) }
{
    let Some(literal) = walk.row.get(walk.at) else {
        return 0;
    };
    walk.at += 1;
    *literal
}
