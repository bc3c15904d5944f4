//! The typed sample task: its tables, and lending them.

ghost use Rattle.std.specs.Prelude.{◌≡◌, true, is_ok};
ghost use Rattle.typed_tables.specs.Admission.{admission};
ghost use Rattle.typed_tables.specs.Tables.{held};
ghost use Rattle.typed_samples.specs.BallAndRooms.{ball_and_rooms_tables};
ghost use Rattle.typed_samples.specs.Lending.{lent_by};

use typed_tables::tables::{
    Action, Atom, Edge, Fact, Goal, Object, Predicate, Run, TypeSet, TypedTables,
};

const NONE: TypeSet = TypeSet { mask: 0b0000 };

const ROOM: TypeSet = TypeSet { mask: 0b0010 };

const THING: TypeSet = TypeSet { mask: 0b0100 };

const BALL: TypeSet = TypeSet { mask: 0b1000 };

/// The tables of a ball and two rooms, to be lent.
#[derive(Clone, Copy)]
pub struct Rooms {
    pub types: u32,
    pub edges: [Edge; 3],
    pub objects: [Object; 3],
    pub predicates: [Predicate; 2],
    pub actions: [Action; 2],
    pub atoms: [Atom; 2],
    pub facts: [Fact; 1],
    pub goal: Goal,
    pub formulas: [u32; 17],
    pub names: [u8; 21],
}

/// The tables of the sample, row by row.
fn sample_rows() -> Rooms
    ensures { lent_by result ≡ ball_and_rooms_tables }
{
    Rooms {
        types: 4,
        edges: [
            Edge {
                subtype: 1,
                supertype: 0,
            },
            Edge {
                subtype: 2,
                supertype: 0,
            },
            Edge {
                subtype: 3,
                supertype: 2,
            },
        ],
        objects: [
            Object {
                name: Run { start: 0, count: 4 },
                types: ROOM,
            },
            Object {
                name: Run { start: 4, count: 4 },
                types: ROOM,
            },
            Object {
                name: Run { start: 8, count: 4 },
                types: BALL,
            },
        ],
        predicates: [
            Predicate {
                arity: 2,
                types: [THING, ROOM, NONE],
            },
            Predicate {
                arity: 0,
                types: [NONE, NONE, NONE],
            },
        ],
        actions: [
            Action {
                name: Run {
                    start: 12,
                    count: 4,
                },
                parameters: 3,
                types: [THING, ROOM, ROOM, NONE],
                formula: Run { start: 0, count: 9 },
                added: Run { start: 0, count: 1 },
                deleted: Run { start: 1, count: 1 },
            },
            Action {
                name: Run {
                    start: 16,
                    count: 5,
                },
                parameters: 2,
                types: [THING, ROOM, NONE, NONE],
                formula: Run { start: 9, count: 4 },
                added: Run { start: 1, count: 1 },
                deleted: Run { start: 1, count: 1 },
            },
        ],
        atoms: [
            Atom {
                predicate: 0,
                terms: [64, 66, 0],
            },
            Atom {
                predicate: 0,
                terms: [64, 65, 0],
            },
        ],
        facts: [Fact {
            predicate: 0,
            objects: [2, 0, 0],
        }],
        goal: Goal {
            formula: Run {
                start: 13,
                count: 4,
            },
        },
        formulas: [4, 1, 0, 64, 65, 3, 2, 65, 66, 1, 0, 64, 65, 1, 0, 2, 1],
        names: *b"westeastballmovetouch",
    }
}

/// A ball and two rooms: the ball is in the west room and shall be in the east room.
///
/// Type 1 is a room, type 2 a thing, type 3 a ball, which is a thing. Predicate 0 says that a thing is in a room, predicate 1 has no places. "move" takes a thing from one room to another; "touch" adds and deletes that it is where it is.
pub fn ball_and_rooms() -> Rooms
    ensures tables_of_the_sample { lent_by result ≡ ball_and_rooms_tables }
    ensures tables_are_admitted { is_ok (admission (lent_by result)) ≡ true }
{
    sample_rows()
}

impl Rooms {
    /// The tables, lent.
    pub fn tables(&self) -> TypedTables<'_>
        ensures as_they_stand { held result ≡ lent_by self.now }
    {
        TypedTables {
            types: self.types,
            edges: &self.edges,
            objects: &self.objects,
            predicates: &self.predicates,
            actions: &self.actions,
            atoms: &self.atoms,
            facts: &self.facts,
            goal: self.goal,
            formulas: &self.formulas,
            names: &self.names,
        }
    }
}
