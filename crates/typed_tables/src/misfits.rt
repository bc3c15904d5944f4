//! The fifth checks: terms that fit their predicates.

ghost use Rattle.std.specs.Prelude.{◌≡◌, position};
ghost use Rattle.typed_tables.specs.Fitting.{misfit_action, misfit_fact, misfit_goal, fits};
ghost use Rattle.typed_tables.specs.Tables.{held};

use crate::tables::{TypeSet, TypedTables};
use crate::terms::{objects_of, parameters_of};
use crate::typings::Typing;
use form::answers::{Decline, Fault};
use rows::refusals::refuse_row;
use types::closures::Closure;

/// Tables with their edges closed.
#[derive(Clone, Copy)]
pub(crate) struct ClosedTables<'t> {
    pub(crate) tables: &'t TypedTables<'t>,
    pub(crate) closure: &'t Closure<'t>,
}

impl<'t> ClosedTables<'t> {
    /// What tells whether terms fit, where the parameters have these types.
    fn typing(&self, parameters: &'t [TypeSet]) -> Typing<'t>
        ensures tables { result.tables.now ≡ self.now.tables.now }
        ensures closure { result.closure.now ≡ self.now.closure.now }
        ensures parameters { result.parameters.now ≡ parameters.now }
    {
        Typing {
            tables: self.tables,
            closure: self.closure,
            parameters,
        }
    }

    /// The first action with an atom that does not fit, in its formula, added or deleted.
    fn first_misfit_action(&self) -> Option<usize>
        ensures { result ≡ position (misfit_action self.now.closure.now.edges.now (held self.now.tables.now)) self.now.tables.now.actions.now }
    {
        self.tables.actions.iter().position(|action| {
            let typing = self.typing(parameters_of(action));
            typing.formula_misfits(action.formula)
                || typing.has_misfit(action.added)
                || typing.has_misfit(action.deleted)
        })
    }

    /// The first fact with an object that does not fit.
    fn first_misfit_fact(&self) -> Option<usize>
        ensures { result ≡ position (misfit_fact self.now.closure.now.edges.now (held self.now.tables.now)) self.now.tables.now.facts.now }
    {
        let typing = self.typing(&[]);
        self.tables.facts.iter().position(|fact| {
            typing.atom_misfits(fact.predicate, objects_of(self.tables, fact))
        })
    }

    /// Whether the goal has an atom that does not fit.
    fn has_misfit_goal(&self) -> bool
        ensures { result ≡ misfit_goal self.now.closure.now.edges.now (held self.now.tables.now) self.now.tables.now.goal }
    {
        self.typing(&[]).formula_misfits(self.tables.goal.formula)
    }

    /// Checks that the terms of actions, facts and the goal fit their predicates, by chains of the closed edges.
    pub(crate) fn check_fits(&self) -> Result<(), Fault>
        ensures { result ≡ fits self.now.closure.now.edges.now (held self.now.tables.now) }
    {
        refuse_row(Decline::TermMisfit, 4, self.first_misfit_action())?;
        refuse_row(Decline::TermMisfit, 6, self.first_misfit_fact())?;
        refuse_row(Decline::TermMisfit, 7, self.has_misfit_goal().then_some(0))
    }
}
