//! Predicates and atoms as rows of tables.

ghost use Rattle.std.specs.Prelude.{◌≡◌, map, slice_index};

use types::sets::TypeSet;

/// A predicate: the number of its arguments, and the types of each. Places from the arity on say nothing.
// Places in an array with their number beside it: the format of lent tables.
#[derive(Clone, Copy)]
pub struct Predicate {
    pub arity: u32,
    pub types: [TypeSet; 3],
}

/// The number of a predicate's arguments; 0 for a predicate that does not exist.
pub fn arity_of(predicates: &[Predicate], predicate: u32) -> u32
    ensures number_of_arguments { result ≡ slice_index (map (λ p. p.arity) predicates.now) predicate }
{
    predicates
        .get(predicate as usize)
        .map_or(0, |predicate| predicate.arity)
}

/// The term of the first parameter. Terms below it are objects.
pub const FIRST_PARAMETER: u32 = 64;

/// A predicate and its terms. Places from the predicate's arity on say nothing.
///
/// A term below 64 is an object; 64 + k is parameter k.
#[derive(Clone, Copy)]
pub struct Atom {
    pub predicate: u32,
    pub terms: [u32; 3],
}
