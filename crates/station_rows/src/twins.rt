// Twins: the stations that bear one reference.
ghost use Rattle.std.specs.Prelude.{◌≡◌, Bool, true, ℕ, ◌-◌, ◌≤◌};
ghost use Rattle.files.specs.Files.{HasRecord, most_stations};
ghost use Rattle.chains.specs.Chains.{first_bearer, Chains};
ghost use Rattle.sheet.specs.Entered.{by_reference, ReferencesChained};

use chains::chaining::Chain;
use chains::keys::Key;

// The first station before k that takes part and bears its 13X, or 0; then station k is entered too.
pub(crate) fn enter_reference(file: &[u8], references: &mut Chain, k: usize) -> u16
    requires has_record { HasRecord file.now k }
    requires le_k { (1 ≤ k) × (k ≤ most_stations) }
    requires references_chained { ReferencesChained file.now references.old (k - 1) }
    ensures { (parts : ℕ → Bool) → parts k ≡ true → Chains (by_reference parts file.now) references.old (k - 1)
        → (result ≡ first_bearer (by_reference parts file.now) k) × Chains (by_reference parts file.now) references.new k }
{
    let found = references.first_bearer(file, Key::Reference, k);
    if found == 0 {
        references.lead(file, Key::Reference, k);
    }
    found
}
