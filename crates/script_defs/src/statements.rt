// Laws of statements as text.
ghost use Rattle.std.specs.Prelude.{◌≡◌, ℕ, List, Ok};
ghost use Rattle.global_defs.specs.Jobs.{Statement};
ghost use Rattle.script_defs.specs.Statements.{statement_reading, statement_text, SpellsStatement, IsStatement};

/// A text is read as a statement exactly where it spells that one, so that it spells one at most; and a statement's canonical
/// text spells it.
pub fn statements_are_read_as_spelled()
    ensures found { (text : List ℕ) (s : Statement) → statement_reading text ≡ Ok s → SpellsStatement text s }
    ensures only { (text : List ℕ) (s : Statement) → SpellsStatement text s → statement_reading text ≡ Ok s }
    ensures written { (s : Statement) → IsStatement s → SpellsStatement (statement_text s) s }
{}
