//! From a line to the command that it says.
ghost use Rattle.std.specs.Prelude.{◌≡◌, ℕ, ◌≢◌, ◌<◌, ◌≤◌, List, [], length, take, Ok, Err, MatchResult};
ghost use Rattle.art_lines.specs.Lines.{number_said, value_said, tuple_said, elements_in, tuple_in, tuple_alone, insert_said, scan_said, word_said, command_said, line_says};
ghost use Rattle.serde_json.specs.Data.{number, string};
ghost use Rattle.serde_json.specs.View.{view, number_view, items_view};
ghost use Rattle.art_lines.specs.Readers.{lower_in, upper_in};
ghost use Rattle.art_lines.specs.Verbs.{command_of};

use crate::tokens::{Verb, verb_in_tokens};
use art_key::ValueFault;
use art_model::{Command, Text, Tuple, Value};
use art_refusal::Refusal;
use serde_json::{Number, Value as Json};
use std::alloc::Global;
use std::error::Error;
use std::{fmt, mem};

/// The longest line, in bytes, without its line feed.
pub const LINE_BYTES: usize = 4096;

/// The most elements of a tuple.
const COLUMNS: usize = 8;

/// Why a line gives no command.
#[derive(Clone, Copy, Debug, PartialEq, Eq)]
pub enum LineFault {
    /// It is no JSON text.
    BadLine,
    /// It has more than `LINE_BYTES` bytes.
    LineTooLong,
    /// It is a JSON text that has not the shape of a command.
    BadCommand,
    /// A tuple has more than eight elements, or an element that is no value.
    Value(ValueFault),
    /// There was no memory to read it.
    NoMemory,
}

impl fmt::Display for LineFault {
    ghost use Rattle.art_lines.specs.Lines.{fault_text};

    ghost output = { fault_text };

    fn fmt<W: fmt::Write>(&self, f: &mut fmt::Formatter<W>) -> fmt::Result {
        match self {
            LineFault::BadLine => f.write_str("no JSON text"),
            LineFault::LineTooLong => f.write_str("line too long"),
            LineFault::BadCommand => f.write_str("no command"),
            LineFault::Value(fault) => write!(f, "{fault}"),
            LineFault::NoMemory => f.write_str("no memory"),
        }
    }
}

impl Error for LineFault {}

impl From<LineFault> for Refusal {
    ghost use Rattle.std.specs.Prelude.{◌≡◌};
    ghost use Rattle.art_lines.specs.Refusals.{line_refusal};

    ghost from_gives = { λ fault refusal. refusal ≡ line_refusal fault };

    fn from(fault: LineFault) -> Refusal {
        match fault {
            LineFault::BadLine => Refusal::BadLine,
            LineFault::LineTooLong => Refusal::LineTooLong,
            LineFault::BadCommand => Refusal::BadCommand,
            LineFault::Value(fault) => Refusal::from(fault),
            LineFault::NoMemory => Refusal::NoMemory,
        }
    }
}

impl From<ValueFault> for LineFault {
    ghost use Rattle.std.specs.Prelude.{◌≡◌};
    ghost use Rattle.art_lines.specs.declared.lines.LineFault.TheVariants as fault;

    ghost from_gives = { λ v f. f ≡ fault.Value v };

    fn from(fault: ValueFault) -> LineFault {
        LineFault::Value(fault)
    }
}

/// The command that a line says, which stands here without its line feed.
///
/// A command is `["insert",[..],v]`, `["remove",[..]]`, `["get",[..]]` or `["scan",[..],[..],v]`, with a whole number `v`
/// from 0 to 2^64 - 1. This shape is looked at first, and then the elements of the tuple, of a scan the lower one's before
/// the upper one's. A tuple has at most eight: true or false, whole numbers from -2^63 to 2^64 - 1, and texts of at most
/// 24 bytes of UTF-8. The first other element is told, by its place, which counts from 0.
///
/// Whoever reads many lines keeps a `LineReader`.
pub fn parse_line(alloc: Global, line: &[u8]) -> Result<Command, LineFault>
    ensures said { MatchResult result (λ command. line_says line.now ≡ Ok command)
        (λ fault. fault ≢ LineFault.NoMemory → line_says line.now ≡ Err fault) }
    ensures memory { result ≡ Err LineFault.NoMemory
        → (0 < length line.now) × (length line.now ≤ LINE_BYTES) }
{
    LineReader::new(alloc).command(line)
}

/// Reads one line after another, in memory that it keeps.
#[derive(Drop)]
pub struct LineReader {
    alloc: Global,
    /// The tuple of the command that was read last, or the lower one of two.
    lo: Tuple,
    /// The upper tuple of a scan, if the command was one.
    hi: Tuple,
}

impl LineReader {
    /// That read no command yet. Allocates nothing.
    pub fn new(alloc: Global) -> LineReader
        ensures lower { (lower_in result).items ≡ [] }
        ensures upper { (upper_in result).items ≡ [] }
    {
        LineReader {
            alloc,
            lo: Tuple::new(),
            hi: Tuple::new(),
        }
    }

    /// The command that a line says, as `parse_line` has it.
    ///
    /// A line that says one takes no memory, where its tokens stand plain: no escape in a text, and no blank that is no space. Any
    /// other is read into a tree of values, which takes memory, and tells the fault of a line that says none.
    pub fn command(&mut self, line: &[u8]) -> Result<Command, LineFault>
        ensures said { MatchResult result (λ command. line_says line.now ≡ Ok command)
            (λ fault. fault ≢ LineFault.NoMemory → line_says line.now ≡ Err fault) }
        ensures memory { result ≡ Err LineFault.NoMemory
            → (0 < length line.now) × (length line.now ≤ LINE_BYTES) }
    {
        match self.verb(line) {
            Ok(verb) => Ok(self.take(verb)),
            Err(fault) => Err(fault),
        }
    }

    /// What the command asks that a line says. Its tuples are left in the reader.
    #[inline(always)]
    pub fn verb(&mut self, line: &[u8]) -> Result<Verb, LineFault>
        ensures said { MatchResult result (λ verb. line_says line.now ≡ Ok (command_of verb (lower_in self.new) (upper_in self.new)))
            (λ fault. fault ≢ LineFault.NoMemory → line_says line.now ≡ Err fault) }
        ensures memory { result ≡ Err LineFault.NoMemory
            → (0 < length line.now) × (length line.now ≤ LINE_BYTES) }
    {
        if line.len() > LINE_BYTES {
            return Err(LineFault::LineTooLong);
        }
        match verb_in_tokens(line, &mut self.lo, &mut self.hi) {
            Some(verb) => Ok(verb),
            None => self.verb_in_values(line),
        }
    }

    /// The tuple of the command that was read last, or the lower one of two.
    #[inline(always)]
    pub fn lower(&self) -> &Tuple
        ensures { result.now ≡ lower_in self.now }
    {
        &self.lo
    }

    /// The upper tuple of the command that was read last, if it has two.
    #[inline(always)]
    pub fn upper(&self) -> &Tuple
        ensures { result.now ≡ upper_in self.now }
    {
        &self.hi
    }

    #[cold]
    #[inline(never)]
    fn verb_in_values(&mut self, line: &[u8]) -> Result<Verb, LineFault>
        requires { length line.now ≤ LINE_BYTES }
        ensures said { MatchResult result (λ verb. line_says line.now ≡ Ok (command_of verb (lower_in self.new) (upper_in self.new)))
            (λ fault. fault ≢ LineFault.NoMemory → line_says line.now ≡ Err fault) }
        ensures memory { result ≡ Err LineFault.NoMemory → 0 < length line.now }
    {
        match command_in_values(self.alloc, line) {
            Ok(command) => Ok(self.keep(command)),
            Err(fault) => Err(fault),
        }
    }

    /// The tuples of the command stand in the reader.
    fn keep(&mut self, command: Command) -> Verb
        ensures { command_of result (lower_in self.new) (upper_in self.new) ≡ command }
    {
        match command {
            Command::Insert(tuple, value) => {
                self.lo = tuple;
                Verb::Insert(value)
            }
            Command::Remove(tuple) => {
                self.lo = tuple;
                Verb::Remove
            }
            Command::Get(tuple) => {
                self.lo = tuple;
                Verb::Get
            }
            Command::Scan(lo, hi, limit) => {
                self.lo = lo;
                self.hi = hi;
                Verb::Scan(limit)
            }
        }
    }

    /// The command that was read last, with the tuples that it left in the reader.
    pub fn take(&mut self, verb: Verb) -> Command
        ensures { result ≡ command_of verb (lower_in self.old) (upper_in self.old) }
    {
        let lo = mem::take(&mut self.lo);
        match verb {
            Verb::Insert(value) => Command::Insert(lo, value),
            Verb::Remove => Command::Remove(lo),
            Verb::Get => Command::Get(lo),
            Verb::Scan(limit) => Command::Scan(lo, mem::take(&mut self.hi), limit),
        }
    }
}

#[cold]
#[inline(never)]
fn command_in_values(alloc: Global, line: &[u8]) -> Result<Command, LineFault>
    requires { length line.now ≤ LINE_BYTES }
    ensures said { MatchResult result (λ command. line_says line.now ≡ Ok command)
        (λ fault. fault ≢ LineFault.NoMemory → line_says line.now ≡ Err fault) }
    ensures memory { result ≡ Err LineFault.NoMemory → 0 < length line.now }
{
    match Json::from_slice(alloc, line) {
        Ok(said) => command_in(&said),
        Err(fault) if fault.is_memory() => Err(LineFault::NoMemory),
        Err(_) => Err(LineFault::BadLine),
    }
}

/// Of a line too long only that matters: what stands after its first 4,097 bytes changes nothing.
pub fn long_lines_are_alike()
    ensures { (line : List ℕ) → line_says (take 4097 line) ≡ line_says line }
{}

fn command_in(said: &Json) -> Result<Command, LineFault>
    ensures { result ≡ command_said (view said.now) }
{
    let Some(items) = said.as_array() else {
        return Err(LineFault::BadCommand);
    };
    let [first, rest @ ..] = items.as_slice() else {
        return Err(LineFault::BadCommand);
    };
    match first.as_str() {
        Some(word) => command_of(word, rest),
        None => Err(LineFault::BadCommand),
    }
}

fn command_of(word: &str, rest: &[Json]) -> Result<Command, LineFault>
    ensures { result ≡ word_said word.now (items_view rest.now) }
{
    match word {
        "insert" => insert_in(rest),
        "remove" => Ok(Command::Remove(tuple_alone(rest)?)),
        "get" => Ok(Command::Get(tuple_alone(rest)?)),
        "scan" => scan_in(rest),
        _ => Err(LineFault::BadCommand),
    }
}

/// The value is looked at before the elements of the tuple, so that a wrong shape is told before a wrong element.
#[tactic(auto, using(crate::proofs::LineLaws::insert_items))]
fn insert_in(rest: &[Json]) -> Result<Command, LineFault>
    ensures { result ≡ insert_said (items_view rest.now) }
{
    if rest.len() != 2 {
        return Err(LineFault::BadCommand);
    }
    let value = number_in(&rest[1])?;
    Ok(Command::Insert(tuple_in(&rest[0])?, value))
}

/// The limit and the shape of both tuples are looked at before the elements of the tuples.
#[tactic(auto, using(crate::proofs::LineLaws::scan_items))]
fn scan_in(rest: &[Json]) -> Result<Command, LineFault>
    ensures { result ≡ scan_said (items_view rest.now) }
{
    if rest.len() != 3 {
        return Err(LineFault::BadCommand);
    }
    let lo = elements_in(&rest[0])?;
    let hi = elements_in(&rest[1])?;
    let limit = number_in(&rest[2])?;
    Ok(Command::Scan(tuple_of(lo)?, tuple_of(hi)?, limit))
}

#[tactic(auto, using(crate::proofs::LineLaws::lone_items))]
fn tuple_alone(rest: &[Json]) -> Result<Tuple, LineFault>
    ensures { result ≡ tuple_alone (items_view rest.now) }
{
    if rest.len() != 1 {
        return Err(LineFault::BadCommand);
    }
    tuple_in(&rest[0])
}

fn number_in(said: &Json) -> Result<u64, LineFault>
    ensures { result ≡ number_said (view said.now) }
{
    said.as_u64().ok_or(LineFault::BadCommand)
}

fn tuple_in(said: &Json) -> Result<Tuple, LineFault>
    ensures { result ≡ tuple_in (view said.now) }
{
    Ok(tuple_of(elements_in(said)?)?)
}

fn elements_in(said: &Json) -> Result<&[Json], LineFault>
    ensures { MatchResult result (λ elements. elements_in (view said.now) ≡ Ok (items_view elements.now))
        (λ fault. elements_in (view said.now) ≡ Err fault) }
{
    match said.as_array() {
        Some(elements) => Ok(elements.as_slice()),
        None => Err(LineFault::BadCommand),
    }
}

/// A ninth element is a fault whatever the elements are. Else the first one that is no value decides.
fn tuple_of(elements: &[Json]) -> Result<Tuple, ValueFault>
    ensures { result ≡ tuple_said (items_view elements.now) }
{
    if elements.len() > COLUMNS {
        return Err(ValueFault::WrongColumns);
    }
    let mut tuple = Tuple::new();
    for (place, element) in elements.iter().enumerate() {
        tuple.push(value_in(place, element)?);
    }
    Ok(tuple)
}

fn value_in(place: usize, said: &Json) -> Result<Value, ValueFault>
    ensures { result ≡ value_said place (view said.now) }
{
    match said {
        Json::Bool(truth) => Ok(Value::Bool(*truth)),
        Json::Number(number) => number_value(place, number),
        Json::String(text) => text_value(place, text.as_str()),
        _ => Err(ValueFault::WrongType(place)),
    }
}

/// A whole number from -2^63 to 2^64 - 1. Any other number is read as a float, and so is `-0`.
fn number_value(place: usize, said: &Number) -> Result<Value, ValueFault>
    ensures { result ≡ value_said place (number (number_view said.now)) }
{
    if let Some(whole) = said.as_u64() {
        return Ok(Value::Int(i128::from(whole)));
    }
    match said.as_i64() {
        Some(whole) => Ok(Value::Int(i128::from(whole))),
        None => Err(ValueFault::WrongType(place)),
    }
}

fn text_value(place: usize, said: &str) -> Result<Value, ValueFault>
    ensures { result ≡ value_said place (string said.now) }
{
    match Text::new(said) {
        Some(text) => Ok(Value::Text(text)),
        None => Err(ValueFault::TextTooLong(place)),
    }
}
