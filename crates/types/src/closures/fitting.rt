//! Whether the types of one set fit those of another.

ghost use Rattle.std.specs.Prelude.{◌≡◌, ℕ, ◌<◌, true, Decides};
ghost use Rattle.std.specs.List.{AllByRecursion};
ghost use Rattle.types.specs.Chains.{Fits};
ghost use Rattle.types.specs.Closing.{between_types, closure, fits_at, fitting, leads_into, type_edges};

use super::Closure;
use super::rounds::close;
use crate::edges::Edge;
use crate::sets::TypeSet;

impl<'a> Closure<'a> {
    /// Closes edges. Rows with an end that is no type lead nowhere.
    pub fn of(edges: &'a [Edge]) -> Closure<'a>
        ensures edges_given { result.edges.now ≡ edges.now }
    {
        Closure {
            edges,
            reach: close(edges),
        }
    }

    /// Whether a type is in a set or leads to a type in it.
    fn leads_into(&self, at: u32, others: TypeSet) -> bool
        requires { at < 32 }
        ensures { result ≡ leads_into (closure self.now.edges.now) others.mask at }
    {
        others.has(at) || self.reach[at as usize] & others.mask != 0
    }

    /// Whether a type is not in the first set, or is in the second or leads to a type in it.
    fn type_fits(&self, at: u32, types: TypeSet, others: TypeSet) -> bool
        requires { at < 32 }
        ensures { result ≡ fits_at (closure self.now.edges.now) types.mask others.mask at }
    {
        !types.has(at) || self.leads_into(at, others)
    }

    /// Whether every type of the first set is in the second or leads to a type in it.
    fn all_fit(&self, types: TypeSet, others: TypeSet) -> bool
        ensures { Decides result ((t : ℕ) → t < 32 → fits_at (closure self.now.edges.now) types.mask others.mask t ≡ true) }
    {
        (0..32).all(|at| self.type_fits(at, types, others))
    }

    /// Whether types fit others: each of them is one of the others or leads to one of them by a chain of edges.
    pub fn types_fit(&self, types: TypeSet, others: TypeSet) -> bool
        ensures as_computed { result ≡ fitting self.now.edges.now types others }
        ensures decides_fit_by_edges_between_types { Decides result (Fits (type_edges self.now.edges.now) types others) }
        ensures decides_fit_where_all_ends_are_types { AllByRecursion (λ e. between_types e ≡ true) self.now.edges.now → Decides result (Fits self.now.edges.now types others) }
    {
        self.all_fit(types, others)
    }
}
