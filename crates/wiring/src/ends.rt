// The two ends of every edge: its left vertex and its right vertex.
ghost use Rattle.bits.specs.Window.{KeptFrom};
ghost use Rattle.wiring.specs.Plan.{edge_of};
ghost use Rattle.wiring.specs.Ends.{Notable, Noted};

use crate::access::edge_at;

// For each entry its edge's left vertex, and for each edge its right vertex: those of an accepted wiring of so many edges, its left
// vertices of degree dl and its right ones of degree dr.
pub fn note_ends(
    wiring: &[u8],
    edges: usize,
    dl: usize,
    dr: usize,
    lefts: &mut [u16],
    rights: &mut [u16],
)
    requires { Notable edges dl dr wiring.now lefts.old rights.old }
    ensures noted { Noted (edge_of wiring.now) dl dr edges lefts.new rights.new }
    ensures lefts_kept { KeptFrom edges lefts.old lefts.new }
    ensures rights_kept { KeptFrom edges rights.old rights.new }
{
    for i in 0..edges {
        let edge = edge_at(wiring, i);
        lefts[i] = (edge / dl) as u16;
        rights[edge] = (i / dr) as u16;
    }
}
