//! From a reply to its text.
ghost use Rattle.std.specs.Prelude.{◌≡◌, false, [], ◌∷◌, ◌++◌, IfOk, All, map};
ghost use Rattle.art_model.specs.declared.commands.Reply.TheVariants.{Rows};
ghost use Rattle.art_server.specs.Replies.{value_data, row_data, reply_data, text_of_reply, IsPrintable, IsPrintableValue, IsPrintableRow, reply_of, reply_with};
ghost use Rattle.serde_json.specs.Data.{array};
ghost use Rattle.serde_json.specs.View.{view, items_of};
ghost use Rattle.serde_json.specs.Written.{has_float, compact_text};

use crate::Refusal;
use crate::texts::{TEXT_BYTES, put_reply};
use art_model::{Answer, NoMemory, Reply, Row, Tuple, Value};
use serde_json::{Number, Value as Json, json};
use std::alloc::{AllocError, Global};

/// A reply but for its rows: where it lists any, they stand beside it.
#[derive(Clone, Copy)]
pub(crate) enum ReplyHead {
    /// It lists no rows.
    Answer(Answer),
    /// It lists the rows beside it, and says whether there are as many as the limit.
    Rows(bool),
}

/// The text of a reply, with its line feed. The only error is want of memory.
pub fn print_reply(alloc: Global, reply: &Result<Reply, Refusal>) -> Result<Vec<u8>, NoMemory>
    requires { IsPrintable reply.now }
    ensures { IfOk result (λ text. text.items ≡ text_of_reply reply.now) }
{
    let answer = match reply {
        Ok(Reply::Inserted) => Ok(Answer::Inserted),
        Ok(Reply::Present(value)) => Ok(Answer::Present(*value)),
        Ok(Reply::Removed(value)) => Ok(Answer::Removed(*value)),
        Ok(Reply::Absent) => Ok(Answer::Absent),
        Ok(Reply::Found(value)) => Ok(Answer::Found(*value)),
        Ok(Reply::Rows(rows, more)) => {
            return print_rows(alloc, rows.as_slice(), *more);
        }
        Err(refusal) => Err(*refusal),
    };
    print_answer(alloc, answer)
}

/// The text of a reply whose rows stand beside it, or of a refusal, with its line feed. The only error is want of memory.
pub(crate) fn print_with(
    alloc: Global,
    head: Result<ReplyHead, Refusal>,
    rows: &[Row],
) -> Result<Vec<u8>, NoMemory>
    requires { IsPrintable (reply_with rows.now head) }
    ensures { IfOk result (λ text. text.items ≡ text_of_reply (reply_with rows.now head)) }
{
    match head {
        Ok(ReplyHead::Answer(answer)) => print_answer(alloc, Ok(answer)),
        Ok(ReplyHead::Rows(more)) => print_rows(alloc, rows, more),
        Err(refusal) => print_answer(alloc, Err(refusal)),
    }
}

/// The text of an answer with no rows, or of a refusal, with its line feed. The only error is want of memory.
fn print_answer(alloc: Global, answer: Result<Answer, Refusal>) -> Result<Vec<u8>, NoMemory>
    ensures { IfOk result (λ text. text.items ≡ text_of_reply (reply_of answer)) }
{
    let mut room = [0; TEXT_BYTES];
    let start = put_reply(&mut room, answer);
    Ok(Vec::from_slice(alloc, &room[start..])?)
}

/// The text of the reply that lists these rows, with its line feed. The only error is want of memory.
pub(crate) fn print_rows(alloc: Global, rows: &[Row], more: bool) -> Result<Vec<u8>, NoMemory>
    requires { All IsPrintableRow rows.now }
    ensures { IfOk result (λ text. text.items
        ≡ text_of_reply (Ok (Rows (record { items = rows.now }) more))) }
{
    print_line(alloc, &rows_json(alloc, rows, more)?)
}

fn print_line(alloc: Global, json: &Json) -> Result<Vec<u8>, NoMemory>
    requires { has_float (view json.now) ≡ false }
    ensures { IfOk result (λ text. text.items ≡ compact_text (view json.now) ++ 10 ∷ []) }
{
    let mut text = json.to_vec(alloc)?;
    text.push(b'\n')?;
    Ok(text)
}

fn rows_json(alloc: Global, rows: &[Row], more: bool) -> Result<Json, AllocError>
    requires { All IsPrintableRow rows.now }
    ensures { IfOk result (λ json. view json
        ≡ reply_data (Ok (Rows (record { items = rows.now }) more))) }
{
    let rows = list_json(alloc, rows)?;
    json!(in alloc; ["rows", rows, more])
}

fn list_json(alloc: Global, rows: &[Row]) -> Result<Json, AllocError>
    requires { All IsPrintableRow rows.now }
    ensures { IfOk result (λ json. view json ≡ array (items_of (map row_data rows.now))) }
{
    let mut list = Vec::with_capacity(alloc, rows.len())?;
    for row in rows {
        serde_json::push(&mut list, row_json(alloc, row)?)?;
    }
    Ok(Json::Array(list))
}

fn row_json(alloc: Global, row: &Row) -> Result<Json, AllocError>
    requires { IsPrintableRow row.now }
    ensures { IfOk result (λ json. view json ≡ row_data row.now) }
{
    let tuple = tuple_json(alloc, row.tuple.as_slice())?;
    json!(in alloc; [tuple, row.value])
}

fn tuple_json(alloc: Global, values: &[Value]) -> Result<Json, AllocError>
    requires { All IsPrintableValue values.now }
    ensures { IfOk result (λ json. view json ≡ array (items_of (map value_data values.now))) }
{
    let mut list = Vec::with_capacity(alloc, values.len())?;
    for value in values {
        serde_json::push(&mut list, value_json(alloc, value)?)?;
    }
    Ok(Json::Array(list))
}

fn value_json(alloc: Global, value: &Value) -> Result<Json, AllocError>
    requires { IsPrintableValue value.now }
    ensures { IfOk result (λ json. view json ≡ value_data value.now) }
{
    match value {
        Value::Bool(truth) => Ok(Json::Bool(*truth)),
        Value::Int(number) => Ok(Json::Number(Number::from_i128(*number).unwrap())),
        Value::Text(text) => Json::try_from_str(alloc, text.as_str()),
    }
}
