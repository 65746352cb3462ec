// Jobs that only set nodes.
ghost use Rattle.std.specs.Prelude.{◌≡◌, ◌+◌, ◌≤◌, [], true, Some, map, length, IsTrue, IfOk, IfSome};
ghost use Rattle.std.specs.List.{list_all};
ghost use Rattle.std.specs.FinMap as globals;
ghost use Rattle.global_defs.specs.Evaluation as evaluation;
ghost use Rattle.gvn_key.specs.Terms.{statement_value};
ghost use Rattle.gvn_eval.specs.Sets.{setting, is_setting};

use gvn_globals::Lookup;
use gvn_key::NoMemory;
use gvn_key::terms::{Statement, Update};
use gvn_model::Updates;
use std::alloc::Global;

/// How many nodes may stand.
const MOST_NODES: usize = global_defs::limits::MOST_NODES as usize;

/// Whether few enough nodes stand for so many more.
fn has_room<G: Lookup>(on: &G, more: usize) -> bool
    ensures { IsTrue result → globals.len (G.seen on.now) + more ≤ MOST_NODES }
{
    let nodes = on.nodes() as usize;
    more <= MOST_NODES && nodes <= MOST_NODES - more
}

/// The updates of these statements, where each of them sets a node.
fn updates_of(alloc: Global, statements: &[Statement]) -> Result<Option<Updates>, NoMemory>
    ensures { IfOk result (λ found. IfSome found (λ updates. map setting (map statement_value statements.now) ≡ map Some updates)) }
{
    let mut updates = Updates::with_capacity(alloc, statements.len())?;
    for statement in statements {
        let Statement::Set(key, value) = statement else {
            return Ok(None);
        };
        updates.push(Update::Set(key.copy()?, value.copy()?))?;
    }
    Ok(Some(updates))
}

/// Whether each of these statements sets a node.
fn are_sets(statements: &[Statement]) -> bool
    ensures { IsTrue result → list_all is_setting (map statement_value statements.now) ≡ true }
{
    for statement in statements {
        let Statement::Set(..) = statement else {
            return false;
        };
    }
    true
}

/// Whether each of these statements sets a node, and so few stand that each of them may be set.
pub fn may_set_all<G: Lookup>(statements: &[Statement], on: &G) -> bool
    ensures sets { IsTrue result → list_all is_setting (map statement_value statements.now) ≡ true }
    ensures room { IsTrue result → globals.len (G.seen on.now) + length statements.now ≤ MOST_NODES }
{
    are_sets(statements) && has_room(on, statements.len())
}

/// The updates of statements that only set nodes, where so few stand that each of them may be set. No other statement asks what
/// they have set, so that no globals are made of it.
pub fn only_sets<G: Lookup>(
    alloc: Global,
    statements: &[Statement],
    on: &G,
) -> Result<Option<Updates>, NoMemory>
    ensures { IfOk result (λ found. IfSome found (λ updates. evaluation.Done updates [] ≡ evaluation.eval (map statement_value statements.now) (G.seen on.now))) }
{
    if may_set_all(statements, on) {
        updates_of(alloc, statements)
    } else {
        Ok(None)
    }
}

/// The updates that these statements become, each of which sets a node.
pub fn moved_updates(alloc: Global, statements: Vec<Statement>) -> Result<Updates, NoMemory>
    requires { list_all is_setting (map statement_value statements.items) ≡ true }
    ensures { IfOk result (λ updates. map setting (map statement_value statements.items) ≡ map Some updates) }
{
    let mut updates = Updates::with_capacity(alloc, statements.len())?;
    for statement in statements {
        let Statement::Set(key, value) = statement else {
            unreachable!();
        };
        updates.push(Update::Set(key, value))?;
    }
    Ok(updates)
}
