//! Closing edges by Warshall's rounds: in each, what one type leads to is joined to all that lead to it.

ghost use Rattle.std.specs.Prelude.{◌≡◌, ◌<◌};
ghost use Rattle.types.specs.Closing.{noted, direct, joined, through, closure};

use crate::edges::Edge;
use crate::sets::{TYPES, TypeSet};

/// Notes the supertype of an edge between types.
fn note_edge(rows: &mut [u32; TYPES], edge: Edge)
    ensures { rows.new ≡ noted rows.old edge }
{
    if edge.subtype < 32 && edge.supertype < 32 {
        rows[edge.subtype as usize] |= 1 << edge.supertype;
    }
}

/// For each type the types that one edge leads to.
fn direct_supertypes(edges: &[Edge]) -> [u32; TYPES]
    ensures { result ≡ direct edges.now }
{
    let mut rows = [0; TYPES];
    // A loop, since a `fold` over an array of masks is not proved.
    for edge in edges {
        note_edge(&mut rows, *edge);
    }
    rows
}

/// A set of types, with all that the middle type leads to if that is in it.
fn join_through(row: u32, middle: u32, beyond: u32) -> u32
    ensures { result ≡ joined middle beyond row }
{
    if (TypeSet { mask: row }).has(middle) {
        row | beyond
    } else {
        row
    }
}

/// One round: every type that leads to the middle type leads to what that leads to.
fn lead_through(rows: &mut [u32; TYPES], middle: usize)
    requires { middle < 32 }
    ensures { rows.new ≡ through middle rows.old }
{
    let beyond = rows[middle];
    // A loop, since an array's `map` is not proved to give the list's.
    for row in rows.iter_mut() {
        *row = join_through(*row, middle as u32, beyond);
    }
}

/// For each type the types that it leads to by a chain of edges.
pub(super) fn close(edges: &[Edge]) -> [u32; TYPES]
    ensures { result ≡ closure edges.now }
{
    let mut rows = direct_supertypes(edges);
    for middle in 0..TYPES {
        lead_through(&mut rows, middle);
    }
    rows
}
