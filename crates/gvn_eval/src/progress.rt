// How far a job has come, and its next statement.
ghost use Rattle.std.specs.Prelude.{◌≡◌, ◌+ℤ◌, true, [], Some, None, option_map, if◌then◌else◌, IfOk, OnOk};
ghost use Rattle.std.specs.Option.{option_copied};
ghost use Rattle.std.specs.Fmt.{decimal};
ghost use Rattle.std.specs.FinMap as globals;
ghost use Rattle.global_defs.specs.Key.{sub_of};
ghost use Rattle.global_defs.specs.Numeral.{is_counted};
ghost use Rattle.global_defs.specs.Entry as defs;
ghost use Rattle.global_defs.specs.Evaluation.{answering, updating, incrementing, incremented, passing, comparing, stepping, Goes};
ghost use Rattle.global_defs.specs.Evaluation as evaluation;
ghost use Rattle.gvn_key.specs.Terms.{update_value, statement_value};
ghost use Rattle.gvn_eval.specs.Steps.{Leads};

use global_defs::limits::MOST_NODES;
use gvn_globals::{Lookup, Overlay};
use gvn_key::terms::{Statement, Update};
use gvn_key::{Bytes, Key, NoMemory, integer_of, write_integer, write_sub, zwr_write};
use gvn_model::{Answers, Cause, Updates};
use std::alloc::Global;
use std::marker::Model;

/// What a number has to be below, without its sign: it has at most 18 digits.
const TOO_LARGE: u64 = 1_000_000_000_000_000_000;

/// Why a job doesn't go on.
#[derive(Clone, Copy, Debug)]
pub enum Stop {
    /// It is rolled back.
    RolledBack(Cause),
    /// There was no memory.
    NoMemory,
}

impl From<NoMemory> for Stop {
    ghost use Rattle.std.specs.Prelude.{◌≡◌};
    ghost use Rattle.gvn_eval.specs.declared.progress.Stop.TheVariants as stops;

    ghost from_gives = { λ _ e. e ≡ stops.NoMemory };

    fn from(_: NoMemory) -> Self {
        Stop::NoMemory
    }
}

/// How far a job has come.
#[derive(Drop)]
pub struct Progress<'a, G: Lookup> {
    alloc: Global,
    /// The globals as the job sees them.
    overlay: Overlay<'a, G>,
    /// What it has changed.
    changes: Updates,
    /// What its statements have answered.
    texts: Answers,
}

impl<'a, G: Lookup> Model for Progress<'a, G> {
    ghost use Rattle.global_defs.specs.Evaluation as evaluation;
    ghost use Rattle.gvn_eval.specs.Codes.{progress_code};

    ghost Value = { evaluation.Progress };

    ghost coded = { progress_code };

    ghost view = { λ p. record { globals = p.overlay; updates = p.changes; answers = p.texts } };
}

/// What a value counts as: none is 0, and one that is no canonical integer of at most 18 digits is nothing.
fn counted(value: Option<&[u8]>) -> Option<i64>
    ensures { result ≡ evaluation.counted (option_copied value.entry) }
{
    match value {
        None => Some(0),
        Some(value) => integer_of(value),
    }
}

/// Whether a number has at most 18 digits.
fn is_counted(number: i64) -> bool
    ensures { result ≡ is_counted number }
{
    number.unsigned_abs() < TOO_LARGE
}

/// A sum of at most 18 digits.
fn sum(old: i64, n: i64) -> Option<i64>
    ensures { result ≡ (if is_counted (old +ℤ n) then Some (old +ℤ n) else None) }
{
    match old.checked_add(n) {
        Some(sum) if is_counted(sum) => Some(sum),
        _ => None,
    }
}

/// Whether a node's value is there and is this one.
fn has_value(value: Option<&[u8]>, wanted: &[u8]) -> bool
    ensures { result ≡ evaluation.has_value (option_copied value.entry) wanted.now }
{
    match value {
        None => false,
        Some(value) => value == wanted,
    }
}

/// A value in ZWR form, or a minus sign where there is none.
fn value_text(alloc: Global, value: Option<&[u8]>) -> Result<Bytes, NoMemory>
    ensures { IfOk result (λ made. made ≡ evaluation.value_text (option_copied value.entry)) }
{
    let mut text = Bytes::new(alloc);
    match value {
        None => text.push(b'-')?,
        Some(value) => zwr_write(value, &mut text)?,
    }
    Ok(text)
}

/// The text of a subscript, or two quotes where there is none.
fn order_text(alloc: Global, found: Option<Bytes>) -> Result<Bytes, NoMemory>
    ensures { IfOk result (λ made. made ≡ evaluation.order_text (option_map sub_of found)) }
{
    let mut text = Bytes::new(alloc);
    match found {
        None => text.push_all(b"\"\"")?,
        Some(sub) => write_sub(sub.as_slice(), &mut text)?,
    }
    Ok(text)
}

impl<'a, G: Lookup> Progress<'a, G> {
    /// Nothing is done yet.
    pub fn new(alloc: Global, on: &'a G) -> Self
        ensures { result ≡ record { globals = G.seen on.now; updates = []; answers = [] } }
    {
        Progress {
            alloc,
            overlay: Overlay::new(alloc, on),
            changes: Updates::new(alloc),
            texts: Answers::new(alloc),
        }
    }

    /// What was changed and answered.
    pub fn into_parts(self) -> (Updates, Answers)
        ensures updates { result.0 ≡ self.entry.updates }
        ensures answers { result.1 ≡ self.entry.answers }
    {
        (self.changes, self.texts)
    }

    fn answer(&mut self, text: Bytes) -> Result<(), NoMemory>
        ensures { OnOk result (self.new ≡ answering self.old text) }
    {
        self.texts.push(text)
    }

    /// Makes a change, unless too many nodes would stand then.
    fn update(&mut self, update: Update) -> Result<(), Stop>
        ensures { Leads (updating self.old (update_value update)) self.new result }
    {
        self.overlay.apply(&update)?;
        if MOST_NODES < self.overlay.nodes() {
            return Err(Stop::RolledBack(Cause::Full));
        }
        self.changes.push(update)?;
        Ok(())
    }

    /// Answers a sum and sets it.
    fn set_sum(&mut self, key: &Key, sum: i64) -> Result<(), Stop>
        requires { is_counted sum ≡ true }
        ensures { Leads (incrementing self.old key.now sum) self.new result }
    {
        let mut text = Bytes::new(self.alloc);
        write_integer(sum, &mut text)?;
        self.answer(text.copy()?)?;
        self.update(Update::Set(key.copy()?, text))
    }

    fn increment(&mut self, key: &Key, n: i64) -> Result<(), Stop>
        ensures { Leads (incremented self.old key.now n (evaluation.counted (globals.get self.old.globals key.now))) self.new result }
    {
        if !is_counted(n) {
            return Err(Stop::RolledBack(Cause::NotNum));
        }
        let Some(old) = counted(self.overlay.get(key)) else {
            return Err(Stop::RolledBack(Cause::NotNum));
        };
        match sum(old, n) {
            None => Err(Stop::RolledBack(Cause::NotNum)),
            Some(sum) => self.set_sum(key, sum),
        }
    }

    fn get(&mut self, key: &Key) -> Result<(), NoMemory>
        ensures { OnOk result (self.new ≡ answering self.old (evaluation.value_text (globals.get self.old.globals key.now))) }
    {
        let text = value_text(self.alloc, self.overlay.get(key))?;
        self.answer(text)
    }

    fn defined(&mut self, key: &Key) -> Result<(), NoMemory>
        ensures { OnOk result (self.new ≡ answering self.old (decimal (evaluation.defined self.old.globals key.now))) }
    {
        let mut text = Bytes::new(self.alloc);
        text.push_decimal(u64::from(self.overlay.defined(key)?))?;
        self.answer(text)
    }

    fn order(&mut self, key: &Key, last: &[u8]) -> Result<(), NoMemory>
        ensures { OnOk result (self.new ≡ answering self.old (evaluation.order_text (evaluation.order self.old.globals key.now last.now))) }
    {
        let found = self.overlay.order(key, last)?;
        let text = order_text(self.alloc, found)?;
        self.answer(text)
    }

    fn check_is(&self, key: &Key, value: &[u8]) -> Result<(), Stop>
        ensures { Leads (passing self.now (evaluation.has_value (globals.get self.now.globals key.now) value.now)) self.now result }
    {
        if has_value(self.overlay.get(key), value) {
            Ok(())
        } else {
            Err(Stop::RolledBack(Cause::Check))
        }
    }

    fn check_at_least(&self, key: &Key, n: i64) -> Result<(), Stop>
        ensures { Leads (comparing self.now n (evaluation.counted (globals.get self.now.globals key.now))) self.now result }
    {
        match counted(self.overlay.get(key)) {
            None => Err(Stop::RolledBack(Cause::NotNum)),
            Some(value) if n <= value => Ok(()),
            Some(_) => Err(Stop::RolledBack(Cause::Check)),
        }
    }

    /// Does one statement.
    pub fn step(&mut self, statement: &Statement) -> Result<(), Stop>
        ensures { Leads (stepping self.old (statement_value statement.now)) self.new result }
    {
        match statement {
            Statement::Set(key, value) => self.update(Update::Set(key.copy()?, value.copy()?)),
            Statement::Kill(key) => self.update(Update::Kill(key.copy()?)),
            Statement::ZKill(key) => self.update(Update::ZKill(key.copy()?)),
            Statement::Incr(key, n) => self.increment(key, *n),
            Statement::Get(key) => Ok(self.get(key)?),
            Statement::Defined(key) => Ok(self.defined(key)?),
            Statement::Order(key, last) => Ok(self.order(key, last.as_slice())?),
            Statement::CheckIs(key, value) => self.check_is(key, value.as_slice()),
            Statement::CheckAtLeast(key, n) => self.check_at_least(key, *n),
        }
    }
}
