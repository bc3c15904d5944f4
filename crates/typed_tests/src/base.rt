//! Tables that pass, from which each case differs in a row or a table: two rooms and a ball that is moved between them.

use form::answers::Answer;
use typed::tasks::admitting::admit;
use typed_tables::tables::{
    Action, Atom, Edge, Fact, Goal, Object, Predicate, Run, TypeSet, TypedTables,
};

/// The refusal, line, table and row of tables that pass.
pub const PASSES: [u32; 4] = [0, 0, 0, 0];

/// The largest number that can stand in a table.
pub const MAX: u32 = 4294967295;

pub const NONE: TypeSet = TypeSet { mask: 0 };

/// Type 0, "object".
pub const ANY: TypeSet = TypeSet { mask: 0b0001 };

/// Type 1, rooms.
pub const ROOM: TypeSet = TypeSet { mask: 0b0010 };

/// Type 2, things.
pub const THING: TypeSet = TypeSet { mask: 0b0100 };

/// Type 3, balls, which are things.
pub const BALL: TypeSet = TypeSet { mask: 0b1000 };

/// Type 4, which does not exist.
pub const FIFTH: TypeSet = TypeSet { mask: 0b10000 };

pub const ROOM_EDGE: Edge = Edge {
    subtype: 1,
    supertype: 0,
};

pub const THING_EDGE: Edge = Edge {
    subtype: 2,
    supertype: 0,
};

pub const BALL_EDGE: Edge = Edge {
    subtype: 3,
    supertype: 2,
};

/// Object 0.
pub const HALL: Object = Object {
    name: Run { start: 0, count: 4 },
    types: ROOM,
};

/// Object 1.
pub const YARD: Object = Object {
    name: Run { start: 4, count: 4 },
    types: ROOM,
};

/// Object 2.
pub const RED: Object = Object {
    name: Run { start: 8, count: 3 },
    types: BALL,
};

/// Predicate 0: a thing is in a room.
pub fn in_room() -> Predicate {
    Predicate {
        arity: 2,
        types: [THING, ROOM, NONE],
    }
}

/// Predicate 1, without arguments.
pub fn day() -> Predicate {
    Predicate {
        arity: 0,
        types: [NONE, NONE, NONE],
    }
}

/// Action 0: a thing goes from one room to another one.
pub fn move_action() -> Action {
    Action {
        name: Run {
            start: 11,
            count: 4,
        },
        parameters: 3,
        types: [THING, ROOM, ROOM, NONE],
        formula: Run { start: 0, count: 9 },
        added: Run { start: 0, count: 1 },
        deleted: Run { start: 1, count: 1 },
    }
}

/// Action 1: a thing stays where it is.
pub fn keep() -> Action {
    Action {
        name: Run {
            start: 15,
            count: 4,
        },
        parameters: 2,
        types: [THING, ROOM, NONE, NONE],
        formula: Run { start: 9, count: 4 },
        added: Run { start: 1, count: 1 },
        deleted: Run { start: 1, count: 1 },
    }
}

/// Parameter 0 is in parameter 2. The third place says nothing.
pub fn in_last() -> Atom {
    Atom {
        predicate: 0,
        terms: [64, 66, 99],
    }
}

/// Parameter 0 is in parameter 1.
pub fn in_first() -> Atom {
    Atom {
        predicate: 0,
        terms: [64, 65, 0],
    }
}

/// The ball is in the hall.
pub fn red_in_hall() -> Fact {
    Fact {
        predicate: 0,
        objects: [2, 0, 7],
    }
}

/// The formulas of both actions, and the goal.
pub const FORMULAS: [u32; 17] = [4, 1, 0, 64, 65, 3, 2, 65, 66, 1, 0, 64, 65, 1, 0, 2, 1];

/// The goal: the ball is in the yard.
pub const RED_IN_YARD: Goal = Goal {
    formula: Run {
        start: 13,
        count: 4,
    },
};

/// A goal that is the first formula number alone.
pub const FALSE: Goal = Goal {
    formula: Run { start: 0, count: 1 },
};

/// Tables by what they hold.
#[derive(Drop)]
pub struct Base {
    pub types: u32,
    pub edges: [Edge; 3],
    pub objects: [Object; 3],
    pub predicates: [Predicate; 2],
    pub actions: [Action; 2],
    pub atoms: [Atom; 2],
    pub facts: [Fact; 1],
    pub goal: Goal,
    pub formulas: [u32; 17],
    pub names: [u8; 19],
}

/// The tables that pass.
pub fn two_rooms() -> Base {
    Base {
        types: 4,
        edges: [ROOM_EDGE, THING_EDGE, BALL_EDGE],
        objects: [HALL, YARD, RED],
        predicates: [in_room(), day()],
        actions: [move_action(), keep()],
        atoms: [in_last(), in_first()],
        facts: [red_in_hall()],
        goal: RED_IN_YARD,
        formulas: FORMULAS,
        names: *b"hallyardredmovekeep",
    }
}

impl Base {
    /// The tables, lent.
    pub fn tables(&self) -> TypedTables<'_> {
        TypedTables {
            types: self.types,
            edges: &self.edges,
            objects: &self.objects,
            predicates: &self.predicates,
            actions: &self.actions,
            atoms: &self.atoms,
            facts: &self.facts,
            goal: self.goal,
            formulas: &self.formulas,
            names: &self.names,
        }
    }
}

/// The refusal, line, table and row that admission gives for tables.
pub fn refusal(tables: TypedTables) -> [u32; 4] {
    match admit(tables) {
        Ok(_) => PASSES,
        Err(fault) => <[u32; 4]>::from(Answer::Refused(fault)),
    }
}

/// What admission gives with other objects.
pub fn with_objects<'a>(base: &'a Base, objects: &'a [Object]) -> [u32; 4] {
    refusal(TypedTables {
        objects,
        ..base.tables()
    })
}

/// What admission gives with other predicates.
pub fn with_predicates<'a>(base: &'a Base, predicates: &'a [Predicate]) -> [u32; 4] {
    refusal(TypedTables {
        predicates,
        ..base.tables()
    })
}

/// What admission gives with other actions.
pub fn with_actions<'a>(base: &'a Base, actions: &'a [Action]) -> [u32; 4] {
    refusal(TypedTables {
        actions,
        ..base.tables()
    })
}

/// What admission gives with other atoms.
pub fn with_atoms<'a>(base: &'a Base, atoms: &'a [Atom]) -> [u32; 4] {
    refusal(TypedTables {
        atoms,
        ..base.tables()
    })
}

/// What admission gives with other facts.
pub fn with_facts<'a>(base: &'a Base, facts: &'a [Fact]) -> [u32; 4] {
    refusal(TypedTables {
        facts,
        ..base.tables()
    })
}

/// What admission gives with other formulas.
pub fn with_formulas<'a>(base: &'a Base, formulas: &'a [u32]) -> [u32; 4] {
    refusal(TypedTables {
        formulas,
        ..base.tables()
    })
}
