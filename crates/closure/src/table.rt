// A table of keys: slots in the order of entry, and a chain of slots for each bucket.

ghost use Rattle.std.specs.Prelude.{◌≡◌, true, ℕ, ◌+◌, ◌<◌, ◌≤◌, get_or};
ghost use Rattle.closure.specs.Table.{Table, LastSlot, ChainFrom};

use clauses::chain::link;

// The first `count` slots have a key and a value each, and are chained by the buckets of their keys; links are slots counted from 1, and 0 ends a chain.
#[derive(Drop)]
pub struct KeyTable<const SLOTS: usize, const BUCKETS: usize> {
    pub keys: [u64; SLOTS],
    pub values: [u32; SLOTS],
    pub next: [u32; SLOTS],
    pub heads: [u32; BUCKETS],
    pub count: usize,
    pub ghost chained: { Table count keys next heads },
}

impl<const SLOTS: usize, const BUCKETS: usize> KeyTable<SLOTS, BUCKETS> {
    ghost use Rattle.closure.specs.Entered.{Entered};

    // A table with no slot taken.
    pub fn new() -> Self
        requires { 0 < BUCKETS }
        ensures { result.count ≡ 0 }
    {
        KeyTable {
            keys: [0; SLOTS],
            values: [0; SLOTS],
            next: [0; SLOTS],
            heads: [0; BUCKETS],
            count: 0,
        }
    }

    // No slot is taken any more.
    pub fn clear(&mut self)
        ensures { self.new.count ≡ 0 }
    {
        self.heads.fill(0);
        self.count = 0;
    }

    // Whether there is room for n more.
    pub fn has_room(&self, n: usize) -> bool
        ensures { result ≡ true → self.now.count + n ≤ SLOTS }
    {
        n <= SLOTS - self.count
    }

    // The last slot with the key in a chain from slot `from` on, counted from 1.
    fn last_along(&self, from: usize, key: u64) -> Option<usize>
        requires { (bound : ℕ) × ChainFrom self.now.keys self.now.next key bound from }
        ensures { (bound : ℕ) → ChainFrom self.now.keys self.now.next key bound from → LastSlot self.now.keys key bound result }
    {
        let mut k = from;
        while 0 < k {
            if self.keys[k - 1] == key {
                return Some(k - 1);
            }
            k = self.next[k - 1] as usize;
        }
        None
    }

    // The last slot with a key.
    pub fn last_slot(&self, key: u64) -> Option<usize>
        ensures { LastSlot self.now.keys key self.now.count result }
    {
        let b = (key % (BUCKETS as u64)) as usize;
        self.last_along(self.heads[b] as usize, key)
    }

    // The slot before slot k with the same key.
    pub fn slot_before(&self, k: usize) -> Option<usize>
        requires { k < self.now.count }
        ensures { LastSlot self.now.keys (get_or self.now.keys k 0) k result }
    {
        self.last_along(self.next[k] as usize, self.keys[k])
    }

    // Gives a key and its value the next slot.
    pub fn enter(&mut self, key: u64, value: u32)
        requires { (self.old.count < SLOTS) × (self.old.count < 4294967295) }
        ensures { Entered key value self.old self.new }
    {
        let b = (key % (BUCKETS as u64)) as usize;
        self.keys[self.count] = key;
        self.values[self.count] = value;
        link(b, self.count, &mut self.heads, &mut self.next);
        self.count += 1;
    }
}
