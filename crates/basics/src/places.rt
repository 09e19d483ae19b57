// The places of fields, from a table of first columns and lengths.
ghost use Rattle.std.specs.Prelude.{◌≡◌};
ghost use Rattle.basics.specs.Fields.{pairs, place_of};

use crate::Place;

// The place of field number k of a table, counted from 1; column 0 and no length where there is no such field.
pub fn place_in(places: &[[usize; 2]], k: usize) -> Place
    ensures { result ≡ place_of (pairs places.now) k }
{
    if k == 0 {
        return Place {
            first: 0,
            length: 0,
        };
    }
    if k > places.len() {
        return Place {
            first: 0,
            length: 0,
        };
    }
    let i = k - 1;
    let first = places[i][0];
    let length = places[i][1];
    Place { first, length }
}
