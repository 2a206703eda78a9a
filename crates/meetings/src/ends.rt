// The ends of all edges, listed.
ghost use Rattle.meetings.specs.Walk.{Ends};

// For each entry its edge's left vertex, and for each edge its right vertex: nl left vertices of degree dl and nr right ones of degree dr.
#[derive(Clone, Copy)]
pub(crate) struct EdgeEnds<'a> {
    pub(crate) lefts: &'a [u16],
    pub(crate) rights: &'a [u16],
    pub(crate) nl: usize,
    pub(crate) nr: usize,
    pub(crate) dl: usize,
    pub(crate) dr: usize,
    pub(crate) ghost listed: { Ends nl nr dl dr lefts.now rights.now },
}
