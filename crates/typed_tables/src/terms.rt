//! The terms of atoms, the objects of facts and the types of places, as many as there are.

ghost use Rattle.std.specs.Prelude.{◌≡◌, ◌≤◌, min, length, get_or, slice_index_or};
ghost use Rattle.typed_tables.specs.Atoms.{front, no_object, no_types, objects_of, parameters_of, places_of, terms_of};
ghost use Rattle.typed_tables.specs.Tables.{held};

use crate::tables::{Action, Atom, Fact, Object, Predicate, TypeSet, TypedTables};
use atoms::rows::arity_of;

/// The set of no types.
// What a row that does not exist has: the definitions are total.
pub(crate) const NO_TYPES: TypeSet = TypeSet { mask: 0 };

/// The first places of an array, at most all of them.
pub(crate) fn front_of<T, const N: usize>(array: &[T; N], count: u32) -> &[T]
    ensures first { (lacking : T) → result.now ≡ front (min count N) lacking array.now }
    ensures few { length result.now ≤ N }
{
    &array[..N.min(count as usize)]
}

/// The terms of an atom.
pub(crate) fn terms_of<'a>(tables: &TypedTables, atom: &'a Atom) -> &'a [u32]
    ensures { result.now ≡ terms_of (held tables.now) atom.now }
{
    front_of(&atom.terms, arity_of(tables.predicates, atom.predicate))
}

/// The objects of a fact.
pub(crate) fn objects_of<'a>(tables: &TypedTables, fact: &'a Fact) -> &'a [u32]
    ensures { result.now ≡ objects_of (held tables.now) fact.now }
{
    front_of(&fact.objects, arity_of(tables.predicates, fact.predicate))
}

/// The types of a predicate's places.
pub(crate) fn places_of(predicate: &Predicate) -> &[TypeSet]
    ensures { result.now ≡ places_of predicate.now }
{
    front_of(&predicate.types, predicate.arity)
}

/// The types of an action's parameters.
pub(crate) fn parameters_of(action: &Action) -> &[TypeSet]
    ensures { result.now ≡ parameters_of action.now }
{
    front_of(&action.types, action.parameters)
}

/// The set of types at a place of a list; none beyond its end.
pub(crate) fn types_at(sets: &[TypeSet], at: usize) -> TypeSet
    ensures { result ≡ slice_index_or sets.now at no_types }
{
    sets.get(at).copied().unwrap_or(NO_TYPES)
}

/// The types of an object; none for one that does not exist.
pub(crate) fn types_of_object(objects: &[Object], at: usize) -> TypeSet
    ensures { result ≡ (get_or objects.now at no_object).types }
{
    objects.get(at).map_or(NO_TYPES, |object| object.types)
}
