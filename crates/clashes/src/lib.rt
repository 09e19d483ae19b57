// Clashes: stations of one operator and site that say different places or heights.
#![tactic(auto)]

ghost use Rattle.std.specs.Prelude.{◌≡◌, Bool, ℕ, ◌-◌, ◌≤◌};
ghost use Rattle.files.specs.Files.{HasRecord, most_stations};
ghost use Rattle.chains.specs.Chains.{first_bearer};
ghost use Rattle.sites.specs.Kept.{Kept};
ghost use Rattle.sites.specs.Sites.{GoodTakesPart, at_site, first_elsewhere, Sites, SomeSites};

use chains::keys::Key;
use sites::KeptSites;
use standing::alike;

// Keeps station k as the first of its site, of which none is kept, if it breaks no rule.
fn lead_site(file: &[u8], sites: &mut KeptSites, k: usize)
    requires has_record { HasRecord file.now k }
    requires le_k { (1 ≤ k) × (k ≤ most_stations) }
    requires kept { Kept file.now sites.old.codes }
    ensures kept_2 { Kept file.now sites.new.codes }
    ensures by_index { (who : ℕ → Bool) → GoodTakesPart file.now who k → first_bearer (at_site who file.now) k ≡ 0 → Sites file.now who sites.old (k - 1)
        → Sites file.now who sites.new k }
{
    if sites.kept_code(file, k) == 0 {
        sites.chain.lead(file, Key::Site, k);
        sites.seconds[k] = 0;
    }
}

// The first station before k at its site that stands elsewhere, or 0: its clash, if it breaks no rule. Then station k's site is kept too. Its code is judged only where the answer for later ones needs it.
pub fn enter_site(file: &[u8], sites: &mut KeptSites, k: usize) -> u16
    requires has_record { HasRecord file.now k }
    requires le_k { (1 ≤ k) × (k ≤ most_stations) }
    requires kept { Kept file.now sites.old.codes }
    requires some_sites { SomeSites file.now sites.old (k - 1) }
    ensures kept_2 { Kept file.now sites.new.codes }
    ensures by_index { (who : ℕ → Bool) → GoodTakesPart file.now who k → Sites file.now who sites.old (k - 1)
        → (result ≡ first_elsewhere file.now who k) × Sites file.now who sites.new k }
{
    let found = sites.chain.first_bearer(file, Key::Site, k);
    if found == 0 {
        lead_site(file, sites, k);
        return 0;
    }
    let leader = found as usize;
    if alike(file, leader, k) {
        return sites.seconds[leader];
    }
    sites.note_second(file, leader, k);
    found
}
