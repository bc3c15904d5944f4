//! The third checks: numbers that name something, sets of types that are not empty, an edge for each type, and names that keep the rule.

ghost use Rattle.std.specs.Prelude.{◌≡◌, position};
ghost use Rattle.typed_tables.specs.References.{bad_action_row, bad_edge, bad_fact, bad_goal, bad_object, bad_predicate, breaks_rule, edge_for_each_type, has_edge, references, undeclared};
ghost use Rattle.typed_tables.specs.Tables.{held};

use crate::scopes::Scope;
use crate::tables::{Edge, TypeSet, TypedTables};
use crate::terms::{objects_of, parameters_of, places_of};
use form::answers::{Decline, Fault};
use form::words::holds_words;
use rows::refusals::{refuse_row, refuse_table};
use rows::runs::part_of;

/// The most bytes of a name.
const LONGEST_NAME: usize = 48;

/// The first edge whose type is type 0 or does not exist, or whose supertype does not exist.
fn first_bad_edge(tables: &TypedTables) -> Option<usize>
    ensures { result ≡ position (bad_edge (held tables.now)) tables.now.edges.now }
{
    let types = tables.types;
    tables.edges.iter().position(|edge| {
        edge.subtype == 0 || edge.subtype >= types || edge.supertype >= types
    })
}

/// Whether a type has an edge.
fn has_edge(edges: &[Edge], subtype: u32) -> bool
    ensures { result ≡ has_edge edges.now subtype }
{
    edges.iter().any(|edge| edge.subtype == subtype)
}

/// Whether each type but type 0 has an edge.
fn has_edge_for_each(edges: &[Edge], types: u32) -> bool
    ensures { result ≡ edge_for_each_type edges.now types }
{
    (1..types).all(|subtype| has_edge(edges, subtype))
}

/// Whether one of the sets of types is empty or names a type that does not exist.
fn has_undeclared(tables: &TypedTables, sets: &[TypeSet]) -> bool
    ensures { result ≡ undeclared (held tables.now) sets.now }
{
    sets.iter().any(|set| !set.is_declared(tables.types))
}

/// Whether a name breaks the rule: one word of 1 to 48 bytes.
// Both forms' rules are one call of `holds_words`, with their own limits.
fn breaks_rule(name: &[u8]) -> bool
    ensures { result ≡ breaks_rule name.now }
{
    name.len() > LONGEST_NAME || !holds_words(name, 1)
}

/// The first object whose types or name are bad.
fn first_bad_object(tables: &TypedTables) -> Option<usize>
    ensures { result ≡ position (bad_object (held tables.now)) tables.now.objects.now }
{
    tables.objects.iter().position(|object| {
        !object.types.is_declared(tables.types) || breaks_rule(part_of(tables.names, object.name))
    })
}

/// The first predicate with a place whose types are bad.
fn first_bad_predicate(tables: &TypedTables) -> Option<usize>
    ensures { result ≡ position (bad_predicate (held tables.now)) tables.now.predicates.now }
{
    tables
        .predicates
        .iter()
        .position(|predicate| has_undeclared(tables, places_of(predicate)))
}

/// The first action whose name, types, formula or atoms are bad.
fn first_bad_action(tables: &TypedTables) -> Option<usize>
    ensures { result ≡ position (bad_action_row (held tables.now)) tables.now.actions.now }
{
    tables.actions.iter().position(|action| {
        let scope = Scope {
            tables,
            parameters: action.parameters,
        };
        breaks_rule(part_of(tables.names, action.name))
            || has_undeclared(tables, parameters_of(action))
            || scope.is_no_formula(action.formula)
            || scope.has_bad_atom(action.added)
            || scope.has_bad_atom(action.deleted)
    })
}

/// The first fact whose predicate or an object of which names nothing.
fn first_bad_fact(tables: &TypedTables) -> Option<usize>
    ensures { result ≡ position (bad_fact (held tables.now)) tables.now.facts.now }
{
    let scope = Scope {
        tables,
        parameters: 0,
    };
    tables.facts.iter().position(|fact| {
        scope.atom_names_nothing(fact.predicate, objects_of(tables, fact))
    })
}

/// Whether the goal is not one formula without parameters.
fn has_bad_goal(tables: &TypedTables) -> bool
    ensures { result ≡ bad_goal (held tables.now) tables.now.goal }
{
    let scope = Scope {
        tables,
        parameters: 0,
    };
    scope.is_no_formula(tables.goal.formula)
}

/// Checks that every number names something, that each type has an edge, and that every name keeps the rule.
pub(crate) fn check_references(tables: &TypedTables) -> Result<(), Fault>
    ensures { result ≡ references (held tables.now) }
{
    refuse_row(Decline::NamesNothing, 1, first_bad_edge(tables))?;
    refuse_table(
        Decline::NamesNothing,
        1,
        !has_edge_for_each(tables.edges, tables.types),
    )?;
    refuse_row(Decline::NamesNothing, 2, first_bad_object(tables))?;
    refuse_row(Decline::NamesNothing, 3, first_bad_predicate(tables))?;
    refuse_row(Decline::NamesNothing, 4, first_bad_action(tables))?;
    refuse_row(Decline::NamesNothing, 6, first_bad_fact(tables))?;
    refuse_row(Decline::NamesNothing, 7, has_bad_goal(tables).then_some(0))
}
