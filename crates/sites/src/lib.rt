// What is kept while the stations of one file are judged: their codes, and beside the first station of a site the first that stands elsewhere.
#![tactic(auto)]

ghost use Rattle.std.specs.Prelude.{◌≡◌, Bool, false, ℕ, List, ◌-◌, ◌≤◌};
ghost use Rattle.files.specs.Files.{HasRecord, most_stations};
ghost use Rattle.stations.specs.Stations.{code_at};
ghost use Rattle.standing.specs.Standing.{stand_alike};
ghost use Rattle.chains.specs.Chains.{first_bearer};
ghost use Rattle.chains.specs.Seconds.{Seconds};
ghost use Rattle.sites.specs.Kept.{Kept};
ghost use Rattle.sites.specs.Sites.{GoodTakesPart, at_site, Sites};

use chains::chaining::{Chain, RECORD_NUMBERS};
use stations::code;

// A place for the code of each number of a file,
pub const CODES: usize = RECORD_NUMBERS;

// and what stands there until its station is judged.
pub const UNJUDGED: u8 = 255;

// The codes that are kept, the chains of the first stations of sites, and beside each of them the first that stands elsewhere, or 0.
#[derive(Drop)]
pub struct KeptSites {
    pub codes: [u8; CODES],
    pub chain: Chain,
    pub seconds: [u16; RECORD_NUMBERS],
}

impl KeptSites {
    // What is kept before any station: no code, and no site.
    pub fn new() -> KeptSites
        ensures kept { (file : List ℕ) → Kept file result.codes }
        ensures sites { (file : List ℕ) (who : ℕ → Bool) → Sites file who result 0 }
    {
        KeptSites {
            codes: [UNJUDGED; CODES],
            chain: Chain::new(),
            seconds: [0; RECORD_NUMBERS],
        }
    }

    // Station k's code: the one that is kept, else judged and kept.
    pub fn kept_code(&mut self, file: &[u8], k: usize) -> u8
        requires has_record { HasRecord file.now k }
        requires k_le_most_stations { k ≤ most_stations }
        requires kept { Kept file.now self.old.codes }
        ensures value { result ≡ code_at file.now k }
        ensures kept_2 { Kept file.now self.new.codes }
        ensures rest { (self.new.chain ≡ self.old.chain) × (self.new.seconds ≡ self.old.seconds) }
    {
        let held = self.codes[k];
        if held != UNJUDGED {
            return held;
        }
        let own = code(file, k);
        self.codes[k] = own;
        own
    }

    // Keeps station k, which stands elsewhere than the first of its site, as the second if none is kept and it breaks no rule.
    pub fn note_second(&mut self, file: &[u8], leader: usize, k: usize)
        requires has_record { HasRecord file.now k }
        requires le_k { (1 ≤ k) × (k ≤ most_stations) × (1 ≤ leader) × (leader ≤ most_stations) }
        requires kept { Kept file.now self.old.codes }
        ensures kept_2 { Kept file.now self.new.codes }
        ensures rest { self.new.chain ≡ self.old.chain }
        ensures by_index { (who : ℕ → Bool) → GoodTakesPart file.now who k → first_bearer (at_site who file.now) k ≡ leader → stand_alike file.now leader k ≡ false
            → Seconds (at_site who file.now) (stand_alike file.now) self.old.seconds (k - 1) → Seconds (at_site who file.now) (stand_alike file.now) self.new.seconds k }
    {
        if self.seconds[leader] != 0 {
            return;
        }
        let own = self.kept_code(file, k);
        if own == 0 {
            self.seconds[leader] = k as u16;
        }
    }
}
