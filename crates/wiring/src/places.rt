// Where each edge stands among the entries of the wiring.
ghost use Rattle.std.specs.Prelude.{◌/◌, ◌≤◌, length};
ghost use Rattle.bits.specs.Window.{KeptFrom};
ghost use Rattle.wiring.specs.Checking.{Permuted};
ghost use Rattle.wiring.specs.Places.{PlacesNoted};

use crate::access::edge_at;

// Notes at each edge the entry of an accepted wiring where it stands.
pub fn note_places(wiring: &[u8], places: &mut [u16])
    requires permuted { Permuted (length wiring.now / 2) wiring.now }
    requires wiring_len_bound { length wiring.now / 2 ≤ 32768 }
    requires wiring_in_bounds { length wiring.now / 2 ≤ length places.old }
    ensures places_noted { PlacesNoted wiring.now places.new }
    ensures kept_from { KeptFrom (length wiring.now / 2) places.old places.new }
{
    let edges = wiring.len() / 2;
    for i in 0..edges {
        places[edge_at(wiring, i)] = i as u16;
    }
}
