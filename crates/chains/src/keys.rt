// The keys that stations are looked up by, as numbers, and who takes part.
ghost use Rattle.std.specs.Prelude.{◌≡◌, ◌+◌, ◌*◌, ◌<◌, length};
ghost use Rattle.columns.specs.Texts.{same};
ghost use Rattle.words.specs.Words.{word_of};
ghost use Rattle.files.specs.Files.{HasRecord};
ghost use Rattle.stations.specs.Stations.{reference_at, site_at};
ghost use Rattle.chains.specs.Chains.{slots};
ghost use Rattle.chains.specs.Keys.{key_at, reference_slot, slot_of};
ghost use Rattle.chains.specs.Scopes.{in_scope};

use files::lengths::RECORD_LENGTH;
use stations::reference;
use words::{equal_words, word};

// What stations are looked up by: all of 13X, or operator and site in it.
#[derive(Clone, Copy)]
pub enum Key {
    Reference,
    Site,
}

// Who takes part: all stations, or those of two sites, which are given as numbers.
#[derive(Clone, Copy)]
pub struct Scope {
    pub all: bool,
    pub one: u64,
    pub other: u64,
}

// How many slots there are, all of which but the last few are used.
pub const SLOTS: usize = 256;

// The place of operator and site in a record.
const SITE_START: usize = 209;

// What is above six bytes.
const ABOVE_SIX: u64 = 281474976710656;

// Station k's operator and site as one number.
pub fn site_number(file: &[u8], k: usize) -> u64
    requires { HasRecord file.now k }
    ensures { result ≡ word_of (site_at file.now k) }
{
    word(file, RECORD_LENGTH * k + SITE_START) % ABOVE_SIX
}

// Whether two stations bear one operator and site.
fn same_site(file: &[u8], i: usize, k: usize) -> bool
    requires { HasRecord file.now i × HasRecord file.now k }
    ensures { result ≡ same (site_at file.now i) (site_at file.now k) }
{
    site_number(file, i) == site_number(file, k)
}

// Whether two stations bear one 13X.
fn same_reference(file: &[u8], i: usize, k: usize) -> bool
    requires { HasRecord file.now i × HasRecord file.now k }
    ensures { result ≡ same (reference_at file.now i) (reference_at file.now k) }
{
    equal_words(reference(file, i), reference(file, k))
}

// Whether two stations bear one key.
pub(crate) fn same_key(file: &[u8], key: Key, i: usize, k: usize) -> bool
    requires { HasRecord file.now i × HasRecord file.now k }
    ensures { result ≡ same (key_at key file.now i) (key_at key file.now k) }
{
    match key {
        Key::Reference => same_reference(file, i, k),
        Key::Site => same_site(file, i, k),
    }
}

// The slot of a 13X, from all its bytes.
fn reference_slot(mine: &[u8]) -> usize
    requires { length mine.now ≡ 15 }
    ensures value { result ≡ reference_slot mine.now }
    ensures upper_bound { result < slots }
{
    ((word(mine, 0) / 2 + word(mine, 7) / 2) % 251) as usize
}

// The slot of station k's key.
pub(crate) fn slot(file: &[u8], key: Key, k: usize) -> usize
    requires { HasRecord file.now k }
    ensures value { result ≡ slot_of key (key_at key file.now k) }
    ensures upper_bound { result < slots }
{
    match key {
        Key::Reference => reference_slot(reference(file, k)),
        Key::Site => (site_number(file, k) % 251) as usize,
    }
}

// Whether a site takes part.
pub fn in_scope(scope: Scope, site: u64) -> bool
    ensures { result ≡ in_scope scope site }
{
    if scope.all {
        return true;
    }
    if site == scope.one {
        return true;
    }
    site == scope.other
}
