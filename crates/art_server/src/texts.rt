//! The texts of replies that list no rows, with no memory taken.
ghost use Rattle.std.specs.Prelude.{◌≡◌, ◌+◌, ◌≤◌, ◌++◌, Ok, Err, codes, drop, length};
ghost use Rattle.std.specs.Fmt.{decimal};
ghost use Rattle.art_model.specs.Answers.{reply_of_answer};
ghost use Rattle.art_server.specs.Replies.{text_of_reply, reply_of};

use crate::Refusal;
use art_model::Answer;
use itoa::write_digits;

/// Room for each such text. The longest has 33 bytes: `["present",18446744073709551615]` with its line feed.
pub(crate) const TEXT_BYTES: usize = 64;

/// Writes the text of an answer, or of a refusal, with its line feed, to the end of the room. It begins at the place that is given.
pub(crate) fn put_reply(room: &mut [u8; TEXT_BYTES], reply: Result<Answer, Refusal>) -> usize
    ensures within { result ≤ TEXT_BYTES }
    ensures text { drop result room.new ≡ text_of_reply (reply_of reply) }
{
    match reply {
        Ok(answer) => put_answer(room, answer),
        Err(refusal) => put_refusal(room, refusal),
    }
}

fn put_answer(room: &mut [u8; TEXT_BYTES], answer: Answer) -> usize
    ensures within { result ≤ TEXT_BYTES }
    ensures text { drop result room.new ≡ text_of_reply (Ok (reply_of_answer answer)) }
{
    match answer {
        Answer::Inserted => put_word(room, b"[\"inserted\"]\n"),
        Answer::Present(value) => put_value(room, b"[\"present\",", value),
        Answer::Removed(value) => put_value(room, b"[\"removed\",", value),
        Answer::Absent => put_word(room, b"[\"absent\"]\n"),
        Answer::Found(value) => put_value(room, b"[\"found\",", value),
    }
}

/// Writes the word alone.
#[inline]
fn put_word(room: &mut [u8; TEXT_BYTES], word: &[u8]) -> usize
    requires { length word.now ≤ 40 }
    ensures within { result ≤ TEXT_BYTES }
    ensures text { drop result room.new ≡ word.now }
{
    put_before(room, TEXT_BYTES, word)
}

/// Writes the word, the digits of the value, and the end of a reply.
#[inline]
fn put_value(room: &mut [u8; TEXT_BYTES], word: &[u8], value: u64) -> usize
    requires { length word.now ≤ 40 }
    ensures within { result ≤ TEXT_BYTES }
    ensures text { drop result room.new ≡ word.now ++ decimal value ++ codes "]\n" }
{
    let end = put_before(room, TEXT_BYTES, b"]\n");
    let digits = write_digits(value, room, end);
    put_before(room, digits, word)
}

fn put_refusal(room: &mut [u8; TEXT_BYTES], refusal: Refusal) -> usize
    ensures within { result ≤ TEXT_BYTES }
    ensures text { drop result room.new ≡ text_of_reply (Err refusal) }
{
    let end = put_before(room, TEXT_BYTES, b"\"]\n");
    let name = put_before(room, end, refusal.name().as_bytes());
    let comma = put_before(room, name, b",\"");
    let digits = write_digits(u64::from(refusal.number()), room, comma);
    put_before(room, digits, b"[\"refused\",")
}

/// Writes the part so that it ends at `end`, and gives the place at which it begins.
#[inline]
fn put_before(room: &mut [u8], end: usize, part: &[u8]) -> usize
    requires fits { length part.now ≤ end }
    requires within { end ≤ length room.old }
    ensures start { result + length part.now ≡ end }
    ensures written { drop result room.new ≡ part.now ++ drop end room.old }
{
    let start = end - part.len();
    room[start..end].copy_from_slice(part);
    start
}
