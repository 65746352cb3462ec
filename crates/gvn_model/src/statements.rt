// Lists of statements and of answers.
ghost use Rattle.std.specs.Prelude.{◌≡◌, ◌==◌, ◌<◌, [], ◌∷◌, ◌++◌, length, map, Some, slice_get, IfOk, OnOk, OnErr};
ghost use Rattle.gvn_key.specs.Terms.{statement_value};

use gvn_key::terms::Statement;
use gvn_key::{Bytes, NoMemory};
use std::alloc::Global;
use std::marker::Model;

/// The statements of a job, in order. A call that answers [`NoMemory`] changes nothing.
#[derive(Debug, Drop)]
pub struct Statements {
    items: Vec<Statement>,
}

impl Model for Statements {
    ghost use Rattle.std.specs.Prelude.{List, map};
    ghost use Rattle.global_defs.specs.Jobs as defs;
    ghost use Rattle.gvn_key.specs.Terms.{statement_value};

    ghost Value = { List defs.Statement };

    ghost view = { λ s. map statement_value s.items.items };
}

impl Statements {
    /// An empty list. It takes no memory yet.
    pub fn new(alloc: Global) -> Self
        ensures { result ≡ [] }
    {
        Statements {
            items: Vec::new(alloc),
        }
    }

    /// An empty list with room for so many statements.
    pub fn with_capacity(alloc: Global, statements: usize) -> Result<Self, NoMemory>
        ensures { IfOk result (λ made. made ≡ []) }
    {
        Ok(Statements {
            items: Vec::with_capacity(alloc, statements)?,
        })
    }

    /// How many statements there are.
    pub fn len(&self) -> usize
        ensures { result ≡ length self.now }
    {
        self.items.len()
    }

    /// Whether there is no statement.
    pub fn is_empty(&self) -> bool
        ensures { result ≡ (length self.now == 0) }
    {
        self.items.is_empty()
    }

    /// The statement at place `i`, from 0.
    pub fn item(&self, i: usize) -> &Statement
        requires { i < length self.now }
        ensures { slice_get self.now i ≡ Some (statement_value result.now) }
    {
        &self.items[i]
    }

    /// All the statements.
    pub fn as_slice(&self) -> &[Statement]
        ensures { map statement_value result.now ≡ self.now }
    {
        &self.items
    }

    /// The statements alone.
    pub fn into_items(self) -> Vec<Statement>
        ensures { map statement_value result.items ≡ self }
    {
        self.items
    }

    /// Adds a statement at the end.
    pub fn push(&mut self, statement: Statement) -> Result<(), NoMemory>
        ensures ok { OnOk result (self.new ≡ self.old ++ statement_value statement ∷ []) }
        ensures err { OnErr result (self.new ≡ self.old) }
    {
        self.items.push(statement)?;
        Ok(())
    }

    /// An equal list.
    pub fn copy(&self) -> Result<Self, NoMemory>
        ensures { IfOk result (λ made. made ≡ self.now) }
    {
        Ok(Statements {
            items: copy_statements(*self.items.allocator(), &self.items)?,
        })
    }
}

fn copy_statements(alloc: Global, statements: &[Statement]) -> Result<Vec<Statement>, NoMemory>
    ensures { IfOk result (λ made. made.items ≡ statements.now) }
{
    let mut made = Vec::with_capacity(alloc, statements.len())?;
    for statement in statements {
        made.push(copy_of(statement)?)?;
    }
    Ok(made)
}

/// An equal statement.
fn copy_of(statement: &Statement) -> Result<Statement, NoMemory>
    ensures { IfOk result (λ made. made ≡ statement.now) }
{
    Ok(match statement {
        Statement::Set(key, value) => Statement::Set(key.copy()?, value.copy()?),
        Statement::Kill(key) => Statement::Kill(key.copy()?),
        Statement::ZKill(key) => Statement::ZKill(key.copy()?),
        Statement::Incr(key, n) => Statement::Incr(key.copy()?, *n),
        Statement::Get(key) => Statement::Get(key.copy()?),
        Statement::Defined(key) => Statement::Defined(key.copy()?),
        Statement::Order(key, last) => Statement::Order(key.copy()?, last.copy()?),
        Statement::CheckIs(key, value) => Statement::CheckIs(key.copy()?, value.copy()?),
        Statement::CheckAtLeast(key, n) => Statement::CheckAtLeast(key.copy()?, *n),
    })
}

/// The texts that a job's statements answer, in order. A call that answers [`NoMemory`] changes nothing.
#[derive(Debug, Drop)]
pub struct Answers {
    items: Vec<Bytes>,
}

impl Model for Answers {
    ghost use Rattle.std.specs.Prelude.{List, ℕ};

    ghost Value = { List (List ℕ) };

    ghost view = { λ a. a.items.items };
}

impl Answers {
    /// An empty list. It takes no memory yet.
    pub fn new(alloc: Global) -> Self
        ensures { result ≡ [] }
    {
        Answers {
            items: Vec::new(alloc),
        }
    }

    /// An empty list with room for so many answers.
    pub fn with_capacity(alloc: Global, answers: usize) -> Result<Self, NoMemory>
        ensures { IfOk result (λ made. made ≡ []) }
    {
        Ok(Answers {
            items: Vec::with_capacity(alloc, answers)?,
        })
    }

    /// How many answers there are.
    pub fn len(&self) -> usize
        ensures { result ≡ length self.now }
    {
        self.items.len()
    }

    /// Whether there is no answer.
    pub fn is_empty(&self) -> bool
        ensures { result ≡ (length self.now == 0) }
    {
        self.items.is_empty()
    }

    /// The answer at place `i`, from 0.
    pub fn item(&self, i: usize) -> &Bytes
        requires { i < length self.now }
        ensures { slice_get self.now i ≡ Some result.now }
    {
        &self.items[i]
    }

    /// All the answers.
    pub fn as_slice(&self) -> &[Bytes]
        ensures { result.now ≡ self.now }
    {
        &self.items
    }

    /// Adds an answer at the end.
    pub fn push(&mut self, answer: Bytes) -> Result<(), NoMemory>
        ensures ok { OnOk result (self.new ≡ self.old ++ answer ∷ []) }
        ensures err { OnErr result (self.new ≡ self.old) }
    {
        self.items.push(answer)?;
        Ok(())
    }

    /// An equal list.
    pub fn copy(&self) -> Result<Self, NoMemory>
        ensures { IfOk result (λ made. made ≡ self.now) }
    {
        Ok(Answers {
            items: copy_answers(*self.items.allocator(), &self.items)?,
        })
    }
}

fn copy_answers(alloc: Global, answers: &[Bytes]) -> Result<Vec<Bytes>, NoMemory>
    ensures { IfOk result (λ made. made.items ≡ answers.now) }
{
    let mut made = Vec::with_capacity(alloc, answers.len())?;
    for answer in answers {
        made.push(answer.copy()?)?;
    }
    Ok(made)
}
