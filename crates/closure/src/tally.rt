// The tally of a round that is being made.

ghost use Rattle.std.specs.Prelude.{◌≡◌, ◌<◌};
ghost use Rattle.closure.specs.Joining.{fewer, join_state};

use crate::lead::{lead_of, replace_all};

// The groups left, the joins made, and whether T and F have been joined.
#[derive(Clone, Copy)]
pub struct Tally {
    pub groups: u32,
    pub joins: u32,
    pub clash: bool,
}

impl Tally {
    // One join made: one group less.
    fn fewer(self) -> Tally
        requires { self.joins < 4294967295 }
        ensures { result ≡ fewer self }
    {
        Tally {
            groups: self.groups.saturating_sub(1),
            joins: self.joins + 1,
            ..self
        }
    }

    // Joins the groups of a and b in a row of leads.
    pub fn join(self, leads: &mut [u32], a: u32, b: u32) -> Tally
        requires { self.joins < 4294967295 }
        ensures { record { row = leads.new; tally = result } ≡ join_state leads.old self a b }
    {
        let x = lead_of(leads, a);
        let y = lead_of(leads, b);
        if self.clash || x == y {
            return self;
        }
        if x / 2 == y / 2 {
            return Tally {
                clash: true,
                ..self
            };
        }
        if x / 2 < y / 2 {
            replace_all(leads, y, x);
        } else {
            replace_all(leads, x, y);
        }
        self.fewer()
    }
}
