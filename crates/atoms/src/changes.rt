//! The changes that a step makes.

ghost use Rattle.std.specs.Prelude.{◌≡◌, ◌+◌, ◌≤◌, map, length, fold};
ghost use Rattle.form.specs.ChangeLists.{listed};
ghost use Rattle.atoms.specs.Changes.{ground_atom, cell_listed, put, put_atom, changes_of, MakesEffect, WithinBounds};
ghost use Rattle.atoms.specs.Laying.{layout_of};

use crate::cells::Cells;
use crate::grounding::Grounding;
use crate::rows::Atom;
use form::change_lists::ChangeList;
use form::steps::Change;

/// Whether one of the changes is to a cell.
fn is_listed(changes: &[Change], cell: u16) -> bool
    ensures { result ≡ cell_listed changes.now cell }
{
    changes.iter().any(|change| change.cell == cell)
}

/// Puts a change behind the others, unless its cell is listed already.
fn put_change(changes: &mut ChangeList, change: Change)
    ensures { listed changes.new ≡ put (listed changes.old) change }
{
    if !is_listed(changes.as_slice(), change.cell) {
        let _has_room = changes.push(change);
    }
}

/// Puts the change that gives an atom's cell a value behind the others.
fn put_atom(grounding: &Grounding, value: u16, atom: &Atom, changes: &mut ChangeList)
    ensures { listed changes.new ≡ put_atom (layout_of grounding.now.cells.now) grounding.now.arguments.now value (listed changes.old) atom.now }
{
    if let Some(cell) = grounding.cell_of(atom) {
        put_change(changes, Change { cell, value });
    }
}

/// Puts the changes that give the cells of atoms a value behind the others, in order.
fn put_all(grounding: &Grounding, value: u16, atoms: &[Atom], changes: &mut ChangeList)
    ensures { listed changes.new ≡ fold (put_atom (layout_of grounding.now.cells.now) grounding.now.arguments.now value) (listed changes.old) atoms.now }
{
    for atom in atoms {
        put_atom(grounding, value, atom, changes);
    }
}

/// Lists the added atoms and then the deleted ones.
fn list_changes(grounding: &Grounding, added: &[Atom], deleted: &[Atom]) -> ChangeList
    ensures { listed result ≡ changes_of (layout_of grounding.now.cells.now) grounding.now.arguments.now added.now deleted.now }
{
    let mut changes = ChangeList::new();
    put_all(grounding, 1, added, &mut changes);
    put_all(grounding, 0, deleted, &mut changes);
    changes
}

/// The changes of a step that adds and deletes atoms: added atoms get 1, then deleted atoms 0, in order. A cell that is listed already is skipped.
pub fn change_list(cells: &Cells, arguments: &[u32], added: &[Atom], deleted: &[Atom]) -> ChangeList
    ensures added_then_deleted { listed result ≡ changes_of (layout_of cells.now) arguments.now added.now deleted.now }
    ensures within_bounds { WithinBounds (layout_of cells.now) (listed result) }
    ensures makes_effect_on_worlds { length added.now + length deleted.now ≤ 32 → MakesEffect (layout_of cells.now) (map (ground_atom (layout_of cells.now) arguments.now) deleted.now) (map (ground_atom (layout_of cells.now) arguments.now) added.now) (listed result) }
{
    list_changes(&Grounding { cells, arguments }, added, deleted)
}
