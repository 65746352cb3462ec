//! What holds of every extract.
ghost use Rattle.std.specs.Prelude.{◌≡◌, ◌+◌, ◌++◌, ℕ, List, length};
ghost use Rattle.global_defs.specs.Entry.{Sequence, Update};
ghost use Rattle.global_defs.specs.Extract.{extract};
ghost use Rattle.global_defs.specs.Fields.{IsUpdate};
ghost use Rattle.script_defs.specs.Statements.{IsStatement};
ghost use Rattle.jnl_extract.specs.Updates.{statement_of};
ghost use Rattle.jnl_extract.specs.Extracts.{IsSpelled, IsExtract, IsBadLine, extract_text};

/// A text is the extract of one site, number and sequence at most.
#[tactic(auto, using(crate::proofs::Unique::one_extract))]
pub fn a_text_is_one_extract()
    ensures { (site name : List ℕ) (from n : ℕ) (entries others : Sequence) → IsExtract site from entries → IsExtract name n others
        → extract_text site from entries ≡ extract_text name n others → (site ≡ name) × (from ≡ n) × (entries ≡ others) }
{}

/// A text has one first bad line at most.
pub fn a_text_has_one_first_bad_line()
    ensures { (text : List ℕ) (a b : ℕ) → IsBadLine text a → IsBadLine text b → a ≡ b }
{}

/// The extract of a sequence from a number on is the text of its entries from there on, with their numbers.
#[tactic(auto, using(crate::proofs::Unique::extract_part))]
pub fn an_extract_has_the_entries_from_its_number()
    ensures { (site : List ℕ) (before entries : Sequence) → extract site (before ++ entries) (length before + 1) ≡ extract_text site (length before + 1) entries }
{}

/// Each update of a key that there is, of bytes and with a value of at most 1,500 bytes is made by its canonical text, and
/// whatever that makes has such a key and such a value.
#[tactic(auto, using(crate::proofs::Forms::spelled_of_form, crate::proofs::Forms::update_of_form))]
pub fn updates_of_their_form_are_spelled()
    ensures spelled { (u : Update) → IsStatement (statement_of u) → IsSpelled u }
    ensures form { (u : Update) → IsSpelled u → IsUpdate u }
{}
