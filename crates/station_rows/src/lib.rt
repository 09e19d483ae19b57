// A station's row: no other crate knows what a row holds.
#![tactic(auto)]

ghost use Rattle.std.specs.Prelude.{◌≡◌, Bool, true, cond, List, ◌∷◌, [], ℕ, ◌-◌, ◌≤◌, eqb};
ghost use Rattle.files.specs.Files.{HasRecord, most_stations};
ghost use Rattle.stations.specs.Stations.{site_at};
ghost use Rattle.forms.specs.Forms.{row_bytes};
ghost use Rattle.forms.specs.OwnForm.{form};
ghost use Rattle.sheet.specs.Sheets.{row_of};
ghost use Rattle.sheet.specs.Entered.{Entered, SomeEntered};

use crate::twins::enter_reference;
use chains::chaining::Chain;
use clashes::enter_site;
use forms::form::ROW_WIDTH;
use sites::KeptSites;

mod twins;

// A row's bytes: its code, its twin and its clash, high byte first.
fn row_bytes(code: u8, twin: u16, clash: u16) -> [u8; ROW_WIDTH]
    ensures { result ≡ row_bytes form code (twin ∷ clash ∷ []) }
{
    [
        code,
        (twin / 256) as u8,
        (twin % 256) as u8,
        (clash / 256) as u8,
        (clash % 256) as u8,
    ]
}

// The clash of a station with this code, where the first that stands elsewhere is known.
fn own_clash(own: u8, elsewhere: u16) -> u16
    ensures { result ≡ cond (eqb own 0) elsewhere 0 }
{
    if own == 0 { elsewhere } else { 0 }
}

// What is kept of the stations that are entered: the chains of the first bearers of 13X, and the sites.
#[derive(Drop)]
pub struct EnteredStations {
    pub references: Chain,
    pub sites: KeptSites,
}

impl EnteredStations {
    // What is kept before any station is entered.
    pub fn new() -> EnteredStations
        ensures { (file : List ℕ) (parts : ℕ → Bool) → ((i j : ℕ) → site_at file i ≡ site_at file j → parts i ≡ parts j) → Entered file parts result.references result.sites 0 }
    {
        EnteredStations {
            references: Chain::new(),
            sites: KeptSites::new(),
        }
    }

    // Enters station k, so that later ones find it; of those before it all that take part are entered.
    pub fn enter_station(&mut self, file: &[u8], k: usize)
        requires has_record { HasRecord file.now k }
        requires le_k { (1 ≤ k) × (k ≤ most_stations) }
        requires some_entered { SomeEntered file.now self.old.references self.old.sites (k - 1) }
        ensures { (parts : ℕ → Bool) → parts k ≡ true → Entered file.now parts self.old.references self.old.sites (k - 1)
            → Entered file.now parts self.new.references self.new.sites k }
    {
        enter_reference(file, &mut self.references, k);
        enter_site(file, &mut self.sites, k);
    }

    // Station k's row, where of those before it all that take part are entered; then it is entered too.
    pub fn station_row(&mut self, file: &[u8], k: usize) -> [u8; ROW_WIDTH]
        requires has_record { HasRecord file.now k }
        requires le_k { (1 ≤ k) × (k ≤ most_stations) }
        requires some_entered { SomeEntered file.now self.old.references self.old.sites (k - 1) }
        ensures { (parts : ℕ → Bool) → parts k ≡ true → Entered file.now parts self.old.references self.old.sites (k - 1)
            → (result ≡ row_of file.now k) × Entered file.now parts self.new.references self.new.sites k }
    {
        let own = self.sites.kept_code(file, k);
        let twin = enter_reference(file, &mut self.references, k);
        let elsewhere = enter_site(file, &mut self.sites, k);
        row_bytes(own, twin, own_clash(own, elsewhere))
    }
}
