//! The closure of edges: which types each type leads to by a chain of edges.

ghost use Rattle.std.specs.Prelude.{◌≡◌};
ghost use Rattle.types.specs.Closing.{closure};

use crate::edges::Edge;

pub mod fitting;
mod rounds;

/// Edges, and for each type the types that it leads to by a chain of them. The edges are closed once, when this is made.
#[derive(Clone, Copy)]
pub struct Closure<'a> {
    edges: &'a [Edge],
    reach: [u32; 32],
    ghost closed: { reach ≡ closure edges.now },
}
