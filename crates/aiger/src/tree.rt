// The literals seen so far, in a digital search tree: a node has a literal, and the bits of a literal's net, from the lowest on, lead from
// the root to its node. So a search takes at most a step for each bit of a net, and one, whatever the literals are.
//
// Node i has the literal keys[i]. A slot of links holds 0, or a node counted from 1: slot 0 the root, slots 2i + 1 and 2i + 2 the nodes
// below node i.

ghost use Rattle.std.specs.Prelude.{◌≡◌, not, cond, [], ◌∷◌, ◌++◌, ◌<◌, length};
ghost use Rattle.clauses.specs.Listing.{mem};
ghost use Rattle.aiger.specs.Line.{is_new};
ghost use Rattle.aiger.specs.Tree.{max_keys, Tree, Searched};

use clauses::limits::MAX_TEXT;
use std::marker::Model;

// A literal of a text takes two bytes or more.
const MAX_KEYS: usize = MAX_TEXT / 2;

const LINKS: usize = 2 * MAX_KEYS + 1;

// The literals, in the order in which they were added.
#[derive(Drop)]
pub struct LiteralTree {
    keys: [u32; MAX_KEYS],
    links: [u16; LINKS],
    len: usize,
}

impl Model for LiteralTree {
    ghost use Rattle.std.specs.Prelude.{List, ℕ, take};
    ghost use Rattle.aiger.specs.Tree.{Tree};

    ghost Value = { List ℕ };

    ghost view = { λ t. take t.len t.keys };

    ghost invariant = { λ t. Tree t.len t.keys t.links };
}

// Looks for x among the first n keys: if it is not there, the empty slot where it belongs.
fn find(x: u32, n: usize, keys: &[u32], links: &[u16]) -> Option<usize>
    requires { Tree n keys.now links.now }
    ensures { Searched x n keys.now links.now result }
{
    let mut slot: usize = 0;
    let mut rest = x / 2;
    let mut node = links[0] as usize;
    while 0 < node {
        if keys[node - 1] == x {
            return None;
        }
        slot = 2 * node - 1 + (rest % 2) as usize;
        rest = rest / 2;
        node = links[slot] as usize;
    }
    Some(slot)
}

impl LiteralTree {
    pub fn new() -> LiteralTree
        ensures { result ≡ [] }
    {
        LiteralTree {
            keys: [0; MAX_KEYS],
            links: [0; LINKS],
            len: 0,
        }
    }

    // Adds x, unless it is there; whether it is new.
    fn add(&mut self, x: u32) -> bool
        requires { length self.old < max_keys }
        ensures value { result ≡ not (mem x self.old) }
        ensures after { self.new ≡ cond result (self.old ++ (x ∷ [])) self.old }
    {
        let Some(slot) = find(x, self.len, &self.keys, &self.links) else {
            return false;
        };
        self.keys[self.len] = x;
        self.len += 1;
        self.links[slot] = self.len as u16;
        true
    }

    // Adds the literal of a net, unless it is there; whether it is a net's and new.
    #[tactic(auto, unfolding(crate::specs::Line::is_new))]
    pub fn add_new(&mut self, x: u32) -> bool
        requires { length self.old < max_keys }
        ensures value { result ≡ is_new self.old x }
        ensures after { self.new ≡ cond result (self.old ++ (x ∷ [])) self.old }
    {
        x % 2 == 0 && x != 0 && self.add(x)
    }
}
