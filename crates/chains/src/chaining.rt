// Chains of the first bearers of keys: walked, and one more station put in front.
ghost use Rattle.std.specs.Prelude.{◌≡◌, Bool, true, ℕ, ◌-◌, ◌≤◌};
ghost use Rattle.files.specs.Files.{HasRecord, most_stations};
ghost use Rattle.chains.specs.Chains.{Search, first_bearer, leads, Chains};
ghost use Rattle.chains.specs.Keys.{lookup, Chained, Begun, Startable};

use crate::keys::{Key, SLOTS, same_key, slot};
use files::lengths::MOST_STATIONS;

// A place for each number of a file's records.
pub const RECORD_NUMBERS: usize = MOST_STATIONS + 1;

// The chains of the first bearers of a key: the highest station of each slot's chain, and for each station the next lower one of its chain, or 0.
#[derive(Drop)]
pub struct Chain {
    pub heads: [u16; SLOTS],
    pub nexts: [u16; RECORD_NUMBERS],
}

// The first station before k that bears its key, or 0, where start is the highest in the chain of its slot.
fn walk(file: &[u8], key: Key, nexts: &[u16; RECORD_NUMBERS], start: u16, k: usize) -> u16
    requires has_record { HasRecord file.now k }
    requires le_k { (1 ≤ k) × (k ≤ most_stations) }
    requires startable { Startable key file.now nexts.now start k }
    ensures { (who : ℕ → Bool) → Begun key file.now nexts.now start k who → result ≡ first_bearer (lookup key who file.now) k }
{
    // No index is counted here: the way goes from a station to the next of its chain, and a range or an iterator is no plainer.
    let mut j = start;
    while j != 0 {
        let at = j as usize;
        if same_key(file, key, at, k) {
            return j;
        }
        j = nexts[at];
    }
    0
}

impl Chain {
    // The chains before any station.
    pub fn new() -> Chain
        ensures { (search : Search) → Chains search result 0 }
    {
        Chain {
            heads: [0; SLOTS],
            nexts: [0; RECORD_NUMBERS],
        }
    }

    // The first station before k that bears its key, or 0, where the stations before it are chained, whoever takes part.
    pub fn first_bearer(&self, file: &[u8], key: Key, k: usize) -> u16
        requires has_record { HasRecord file.now k }
        requires le_k { (1 ≤ k) × (k ≤ most_stations) }
        requires chained { Chained key file.now self.now (k - 1) }
        ensures { (who : ℕ → Bool) → Chains (lookup key who file.now) self.now (k - 1) → result ≡ first_bearer (lookup key who file.now) k }
    {
        let h = slot(file, key, k);
        walk(file, key, &self.nexts, self.heads[h], k)
    }

    // Puts station k, which leads its key, in front of the chain of its slot.
    pub fn lead(&mut self, file: &[u8], key: Key, k: usize)
        requires has_record { HasRecord file.now k }
        requires le_k { (1 ≤ k) × (k ≤ most_stations) }
        ensures { (who : ℕ → Bool) → leads (lookup key who file.now) k ≡ true → Chains (lookup key who file.now) self.old (k - 1)
            → Chains (lookup key who file.now) self.new k }
    {
        let h = slot(file, key, k);
        self.nexts[k] = self.heads[h];
        self.heads[h] = k as u16;
    }
}
