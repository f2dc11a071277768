//! From the end of a command that was made step by step to the text of its reply.
ghost use Rattle.std.specs.Prelude.{◌≡◌, ℕ, List, IfOk};
ghost use Rattle.art_model.specs.declared.commands.Command.{Command};
ghost use Rattle.art_model.specs.declared.rows.Row.{Row as RowOf};
ghost use Rattle.art_scan.specs.Endings.{CommandEnds};
ghost use Rattle.art_scan.specs.declared.running.Ending.{Ending as EndingOf};
ghost use Rattle.art_scan.specs.ArtTable.declared.passes.Pass.{Pass};
ghost use Rattle.art_scan.specs.ArtTable.declared.tables.Table.{Table};
ghost use Rattle.art_server.specs.Endings.{EndsCommand, IsAnswer, answer_of, head_of, reply_of_ending};
ghost use Rattle.art_server.specs.Replies.{text_of_reply};
ghost use Rattle.art_server.specs.Sessions.{AnswersCommandIn};

use crate::Refusal;
use crate::replies::{ReplyHead, print_with};
use art_model::{Answer, NoMemory, Row};
use art_scan::art_table::Outcome;
use art_scan::{Ending, More};
use std::alloc::Global;

/// What is printed of a command that ended so, in so many turns, is an answer of that command in these turns.
pub fn endings_are_answers()
    ensures { (t : Table) (c : Command) (turns : ℕ) (p : Pass) (rows : List RowOf) (ending : EndingOf) (q : Pass) →
        CommandEnds t c turns p rows ending q → AnswersCommandIn t c turns p (reply_of_ending rows ending) q }
{}

/// The text of the reply, or of the refusal, of a command that ended so, with its line feed; the rows of a scan stand beside it. The
/// only error is want of memory.
pub fn print_ending(alloc: Global, ending: &Ending, rows: &[Row]) -> Result<Vec<u8>, NoMemory>
    requires { (t : Table) × (c : Command) × (turns : ℕ) × (p : Pass) × (q : Pass) × CommandEnds t c turns p rows.now ending.now q }
    ensures { IfOk result (λ text. text.items ≡ text_of_reply (reply_of_ending rows.now ending.now)) }
{
    print_with(alloc, head_of(ending), rows)
}

/// The reply but for its rows, or the refusal.
pub(crate) fn head_of(ending: &Ending) -> Result<ReplyHead, Refusal>
    requires { EndsCommand ending.now }
    ensures { result ≡ head_of ending.now }
{
    match ending {
        Ending::Call(Ok(outcome)) => Ok(ReplyHead::Answer(answer_of(outcome))),
        Ending::Call(Err(fault)) => Err(fault.refusal()),
        Ending::Scan(Ok(More::Limit)) => Ok(ReplyHead::Rows(true)),
        Ending::Scan(Ok(More::End)) => Ok(ReplyHead::Rows(false)),
        Ending::Scan(Err(fault)) => Err(Refusal::from(*fault)),
    }
}

/// The answer that the outcome is.
fn answer_of(outcome: &Outcome) -> Answer
    requires { IsAnswer outcome.now }
    ensures { result ≡ answer_of outcome.now }
{
    match outcome {
        Outcome::New => Answer::Inserted,
        Outcome::Present(value) => Answer::Present(*value),
        Outcome::Removed(value) => Answer::Removed(*value),
        Outcome::Absent => Answer::Absent,
        Outcome::Found(value) => Answer::Found(*value),
        Outcome::Seen(_) => unreachable!(),
    }
}
