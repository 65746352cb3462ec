// Updates read from their lines.
ghost use Rattle.std.specs.Prelude.{◌≡◌, ◌≢◌, ◌++◌, ◌∷◌, Some, IfOk, IfSome, MatchBool};
ghost use Rattle.std.specs.Option.{option_map};
ghost use Rattle.global_defs.specs.Entry as defs;
ghost use Rattle.global_defs.specs.Jobs as jobs;
ghost use Rattle.gvn_key.specs.Terms.{update_value, statement_value};
ghost use Rattle.script_defs.specs.Statements.{statement_text, SpellsStatement};
ghost use Rattle.jnl_extract.specs.Updates.{statement_of};
ghost use Rattle.jnl_extract.specs.Extracts.{IsSpelled};

use gvn_key::terms::{Statement, Update};
use gvn_key::{Bytes, NoMemory};
use gvn_text::{TextError, read_statement, write_statement};
use std::alloc::Global;

/// The update that a statement makes, nothing where it makes none or counts on a node's value.
fn update_of(statement: Statement) -> Option<Update>
    ensures found { IfSome result (λ u. statement_value statement ≡ statement_of (update_value u)) }
    ensures only { (u : defs.Update) → statement_value statement ≡ statement_of u → option_map update_value result ≡ Some u }
{
    match statement {
        Statement::Set(key, value) => Some(Update::Set(key, value)),
        Statement::Kill(key) => Some(Update::Kill(key)),
        Statement::ZKill(key) => Some(Update::ZKill(key)),
        Statement::Incr(_, _) => None,
        Statement::Get(_) => None,
        Statement::Defined(_) => None,
        Statement::Order(_, _) => None,
        Statement::CheckIs(_, _) => None,
        Statement::CheckAtLeast(_, _) => None,
    }
}

/// Whether a text is the canonical one of a statement.
fn is_text_of(alloc: Global, statement: &Statement, text: &[u8]) -> Result<bool, NoMemory>
    ensures { IfOk result (λ is. MatchBool is (text.now ≡ statement_text (statement_value statement.now)) (text.now ≢ statement_text (statement_value statement.now))) }
{
    let mut written = Bytes::new(alloc);
    write_statement(statement, &mut written)?;
    Ok(text == written.as_slice())
}

/// The update of a statement whose canonical text this is.
#[tactic(auto, using(crate::proofs::Canonical::some_text, crate::proofs::Canonical::some_spelled))]
fn canonical(alloc: Global, statement: Statement, text: &[u8]) -> Result<Option<Update>, NoMemory>
    requires { SpellsStatement text.now (statement_value statement) }
    ensures found { IfOk result (λ found. IfSome found (λ u. text.now ≡ statement_text (statement_of (update_value u)))) }
    ensures only { (u : defs.Update) → statement_value statement ≡ statement_of u → text.now ≡ statement_text (statement_of u)
        → IfOk result (λ found. option_map update_value found ≡ Some u) }
    ensures spelled { IfOk result (λ found. IfSome found (λ u. IsSpelled (update_value u))) }
{
    if is_text_of(alloc, &statement, text)? {
        Ok(update_of(statement))
    } else {
        Ok(None)
    }
}

/// Lets each fault of a text pass.
fn pass_fault(error: TextError) -> Result<(), NoMemory>
    ensures { IfOk result (λ x. error ≢ TextError.NoMemory) }
{
    match error {
        TextError::NoMemory => Err(NoMemory),
        TextError::BadQuote { .. } => Ok(()),
        TextError::BadChar { .. } => Ok(()),
        TextError::ValueTooLong { .. } => Ok(()),
    }
}

/// The statement of a text, nothing where it is none.
fn spelled_statement(alloc: Global, text: &[u8]) -> Result<Option<Statement>, NoMemory>
    ensures found { IfOk result (λ found. IfSome found (λ s. SpellsStatement text.now (statement_value s))) }
    ensures only { (s : jobs.Statement) → SpellsStatement text.now s → IfOk result (λ found. option_map statement_value found ≡ Some s) }
{
    match read_statement(alloc, text) {
        Ok(statement) => Ok(Some(statement)),
        Err(error) => {
            pass_fault(error)?;
            Ok(None)
        }
    }
}

/// The update whose canonical text this is.
fn canonical_update(alloc: Global, text: &[u8]) -> Result<Option<Update>, NoMemory>
    ensures found { IfOk result (λ found. IfSome found (λ u. text.now ≡ statement_text (statement_of (update_value u)))) }
    ensures spelled { IfOk result (λ found. IfSome found (λ u. IsSpelled (update_value u))) }
    ensures only { (u : defs.Update) → IsSpelled u → text.now ≡ statement_text (statement_of u) → IfOk result (λ found. option_map update_value found ≡ Some u) }
{
    match spelled_statement(alloc, text)? {
        None => Ok(None),
        Some(statement) => canonical(alloc, statement, text),
    }
}

/// The update of a line, by its word and what stands behind its fields: nothing where these are not an update's canonical text.
pub fn read_update(alloc: Global, word: &[u8], tail: &[u8]) -> Result<Option<Update>, NoMemory>
    ensures found { IfOk result (λ found. IfSome found (λ u. word.now ++ 32 ∷ tail.now ≡ statement_text (statement_of (update_value u)))) }
    ensures spelled { IfOk result (λ found. IfSome found (λ u. IsSpelled (update_value u))) }
    ensures only { (u : defs.Update) → IsSpelled u → word.now ++ 32 ∷ tail.now ≡ statement_text (statement_of u)
        → IfOk result (λ found. option_map update_value found ≡ Some u) }
{
    let mut text = Bytes::of(alloc, word)?;
    text.push(b' ')?;
    text.push_all(tail)?;
    canonical_update(alloc, text.as_slice())
}
