//! From a line of a schedule to the order that it says.
ghost use Rattle.std.specs.Prelude.{◌≡◌, ◌<◌, IfSome, length, option_map};
ghost use Rattle.std.specs.List.{position_from};
ghost use Rattle.art_schedule.specs.Lines.{HasTimes, after_word, first_word, is_blank, line_said, mark_said, mark_word, number_said, order_said, often_said, pass_said, said_by, start_said, step_said, told_by, times_said, until_said, word_said};
ghost use Rattle.art_step.specs.StepNames.{step_name};

use art_step::StepKind;

/// What a step is waited for by.
#[derive(Clone, Copy)]
pub enum Mark {
    /// It is of this kind.
    Kind(StepKind),
    /// It makes an event.
    Event,
}

/// What a pass is to do.
#[derive(Clone, Copy)]
pub enum Order<'a> {
    /// The command that the text says is started, in so many turns.
    Start { turns: u32, text: &'a [u8] },
    /// Steps are made until so many of them have the mark.
    Until { mark: Mark, count: u32 },
    /// So many steps are made.
    Step(u32),
    /// All steps that are left are made.
    End,
}

/// A line of a schedule.
#[derive(Clone, Copy)]
pub struct Line<'a> {
    /// Which pass: A is 0, H is 7.
    pub pass: usize,
    pub order: Order<'a>,
}

/// All that a line can wait for.
const MARKS: [Mark; 16] = [
    Mark::Kind(StepKind::Begin),
    Mark::Kind(StepKind::Read),
    Mark::Kind(StepKind::Check),
    Mark::Kind(StepKind::Upgrade),
    Mark::Kind(StepKind::Write),
    Mark::Kind(StepKind::Commit),
    Mark::Kind(StepKind::Release),
    Mark::Kind(StepKind::Claim),
    Mark::Kind(StepKind::Take),
    Mark::Kind(StepKind::Give),
    Mark::Kind(StepKind::Epoch),
    Mark::Kind(StepKind::Pin),
    Mark::Kind(StepKind::Advance),
    Mark::Kind(StepKind::Watch),
    Mark::Kind(StepKind::Anchor),
    Mark::Event,
];

/// The order that a line says, and to which pass, which stands here without its line feed. A line that says none is bad.
pub fn parse(line: &[u8]) -> Option<Line<'_>>
    ensures said { option_map told_by result ≡ line_said line.now }
    ensures valid { IfSome result (λ line. (line.pass < 8) × HasTimes line.order) }
{
    let (name, rest) = split_word(line);
    let pass = pass_in(name)?;
    let order = order_in(rest?)?;
    Some(Line { pass, order })
}

/// The first word, and what stands after its blank, where there is one.
fn split_word(line: &[u8]) -> (&[u8], Option<&[u8]>)
    ensures word { result.0.now ≡ first_word line.now }
    ensures rest { option_map (λ rest. rest.now) result.1 ≡ after_word line.now }
{
    match blank_in(line) {
        Some(blank) => (&line[..blank], Some(&line[blank + 1..])),
        None => (line, None),
    }
}

/// Where the first blank stands.
fn blank_in(line: &[u8]) -> Option<usize>
    ensures place { result ≡ position_from is_blank 0 line.now }
    ensures within { IfSome result (λ blank. blank < length line.now) }
{
    line.iter().position(|byte| *byte == b' ')
}

/// The place of the pass of this name.
fn pass_in(name: &[u8]) -> Option<usize>
    ensures said { result ≡ pass_said name.now }
    ensures within { IfSome result (λ pass. pass < 8) }
{
    match name {
        [letter @ b'A'..=b'H'] => Some(usize::from(*letter - b'A')),
        _ => None,
    }
}

fn order_in(line: &[u8]) -> Option<Order<'_>>
    ensures said { option_map said_by result ≡ order_said line.now }
    ensures times { IfSome result HasTimes }
{
    let (word, rest) = split_word(line);
    match rest {
        Some(rest) => order_of(word, rest),
        None if word == b"end".as_slice() => Some(Order::End),
        None => None,
    }
}

/// An order of several words: the first of them, and what stands after it.
fn order_of<'a>(word: &[u8], rest: &'a [u8]) -> Option<Order<'a>>
    ensures said { option_map said_by result ≡ word_said word.now (Some rest.now) }
    ensures times { IfSome result HasTimes }
{
    if word == b"start".as_slice() {
        start_in(rest)
    } else if word == b"until".as_slice() {
        until_in(rest)
    } else if word == b"step".as_slice() {
        Some(Order::Step(times_in(rest)?))
    } else {
        None
    }
}

fn start_in(rest: &[u8]) -> Option<Order<'_>>
    ensures said { option_map said_by result ≡ start_said rest.now }
    ensures times { IfSome result HasTimes }
{
    let (digits, text) = split_word(rest);
    let turns = number_in(digits)?;
    Some(Order::Start { turns, text: text? })
}

/// A mark is waited for once, where no number stands after it.
fn until_in(rest: &[u8]) -> Option<Order<'_>>
    ensures said { option_map said_by result ≡ until_said rest.now }
    ensures times { IfSome result HasTimes }
{
    let (word, digits) = split_word(rest);
    let mark = mark_in(word)?;
    let times = match digits {
        Some(digits) => times_in(digits)?,
        None => 1,
    };
    Some(Order::Until { mark, count: times })
}

/// The mark of this word.
fn mark_in(word: &[u8]) -> Option<Mark>
    ensures { result ≡ mark_said word.now }
{
    MARKS
        .iter()
        .copied()
        .find(|mark| mark.word().as_bytes() == word)
}

/// A number from 1 on.
fn times_in(digits: &[u8]) -> Option<u32>
    ensures said { result ≡ times_said digits.now }
    ensures some { IfSome result (λ times. 0 < times) }
{
    let times = number_in(digits)?;
    if times > 0 { Some(times) } else { None }
}

/// A row of digits that is a number of 32 bits.
fn number_in(digits: &[u8]) -> Option<u32>
    ensures { result ≡ number_said digits.now }
{
    if digits.is_empty() {
        return None;
    }
    let mut number: u64 = 0;
    for byte in digits {
        if !byte.is_ascii_digit() {
            return None;
        }
        number = number * 10 + u64::from(*byte - b'0');
        if number > u64::from(u32::MAX) {
            return None;
        }
    }
    u32::try_from(number).ok()
}

impl Mark {
    ghost use Rattle.std.specs.Prelude.{◌≡◌};
    ghost use Rattle.art_schedule.specs.Lines.{mark_word};

    /// The word by which a line names it.
    pub fn word(self) -> &'static str
        ensures { result.now ≡ mark_word self }
    {
        match self {
            Mark::Kind(kind) => kind_word(kind),
            Mark::Event => "event",
        }
    }
}

fn kind_word(kind: StepKind) -> &'static str
    ensures { result.now ≡ step_name kind }
{
    match kind {
        StepKind::Begin => "begin",
        StepKind::Read => "read",
        StepKind::Check => "check",
        StepKind::Upgrade => "upgrade",
        StepKind::Write => "write",
        StepKind::Commit => "commit",
        StepKind::Release => "release",
        StepKind::Claim => "claim",
        StepKind::Take => "take",
        StepKind::Give => "give",
        StepKind::Epoch => "epoch",
        StepKind::Pin => "pin",
        StepKind::Advance => "advance",
        StepKind::Watch => "watch",
        StepKind::Anchor => "anchor",
    }
}
