//! The lines that tell what became of jobs.
ghost use Rattle.std.specs.Prelude.{◌≡◌, ◌++◌, OnOk};
ghost use Rattle.gvn_model.specs.Jobs.{cause_value};
ghost use Rattle.site_defs.specs.Texts.{rollback_text, answers_text, reply_text, reply_line};
ghost use Rattle.repl_section.specs.Replies.{reply_value, replied_value};
ghost use Rattle.repl_section.specs.Lines.{GaveLines, no_line, lines_further};

use crate::sink::ReplySink;
use gvn_key::{Bytes, NoMemory};
use gvn_model::{Answers, Cause, Origin, Reply};

/// Why a job was rolled back, in a word.
fn cause_word(cause: Cause) -> &'static [u8]
    ensures { result.now ≡ rollback_text (cause_value cause) }
{
    match cause {
        Cause::Check => b"CHECK",
        Cause::NotNum => b"NOTNUM",
        Cause::Full => b"FULL",
        Cause::SeqLimit => b"SEQLIMIT",
    }
}

/// Adds each answer after a space.
fn write_answers(text: &mut Bytes, answers: &Answers) -> Result<(), NoMemory>
    ensures { OnOk result (text.new ≡ text.old ++ answers_text answers.now) }
{
    for answer in answers.as_slice() {
        text.push(b' ')?;
        text.push_all(answer.as_slice())?;
    }
    Ok(())
}

/// Adds what became of a job, after a space.
fn write_outcome(text: &mut Bytes, reply: &Reply) -> Result<(), NoMemory>
    ensures { OnOk result (text.new ≡ text.old ++ reply_text (reply_value reply.now)) }
{
    match reply {
        Reply::Seq(number, answers) => {
            text.push_all(b" SEQ ")?;
            text.push_decimal(*number)?;
            write_answers(text, answers)
        }
        Reply::Read(answers) => {
            text.push_all(b" READ")?;
            write_answers(text, answers)
        }
        Reply::RolledBack(cause) => {
            text.push_all(b" ROLLEDBACK ")?;
            text.push_all(cause_word(*cause))
        }
    }
}

/// Adds the line of the reply to a job of this origin.
fn write_reply(text: &mut Bytes, origin: Origin, reply: &Reply) -> Result<(), NoMemory>
    ensures { OnOk result (text.new ≡ text.old ++ reply_line (replied_value origin reply.now)) }
{
    text.push_decimal(u64::from(origin.updater))?;
    text.push(b'.')?;
    text.push_decimal(u64::from(origin.serial))?;
    write_outcome(text, reply)?;
    text.push(b'\n')
}

/// A text takes each reply as a line at its end.
impl ReplySink for Bytes {
    ghost gave = { GaveLines };

    fn give(&mut self, origin: Origin, reply: Reply) -> Result<(), NoMemory> {
        write_reply(self, origin, &reply)
    }

    ghost none = { no_line };

    ghost further = { lines_further };
}
