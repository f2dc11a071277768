//! The tokens of a line, read where they lie, with no memory taken.
//!
//! A cursor knows what lines of commands are made of: brackets, whole numbers, truth values, and texts with no escape in them. Before
//! anything else it gives up. What it gives is what the grammar of JSON text says of the line.
ghost use Rattle.std.specs.Prelude.{◌≡◌, ◌≤◌, [], ◌∷◌, ◌++◌, length, take, true, false, Some, IfSome, IsTrue};
ghost use Rattle.std.specs.Bool.{MatchBool};
ghost use Rattle.std.specs.Char.{is_ascii_digit};
ghost use Rattle.std.specs.List.{prefix_len};
ghost use Rattle.json.specs.Json.{after_end_array};
ghost use Rattle.json.specs.Lex.{after_value, begins_colon, between, lex, may_begin, punctuate, tokens};
ghost use Rattle.json.specs.Print.{IsNumber, token_text};
ghost use Rattle.json.specs.Run.{is_plain};
ghost use Rattle.json.specs.Token.{begin_array, boolean, number, string};
ghost use Rattle.json.specs.Word.{ends_word};
ghost use Rattle.art_lines.specs.Cursors.{place_of, tokens_left};

/// What stands before a cursor.
#[derive(Clone, Copy, Drop)]
pub(crate) enum Place {
    /// The opening of an array, or nothing.
    Fresh,
    /// A value.
    AfterValue,
    /// The comma after a value.
    AfterComma,
}

impl Place {
    /// A value may begin.
    #[inline(always)]
    fn may_begin(self) -> bool
        ensures { result ≡ may_begin (place_of self) }
    {
        !matches!(self, Place::AfterValue)
    }
}

/// A place in a line, with no blank behind it.
#[derive(Clone, Copy, Drop)]
pub(crate) struct Cursor<'a> {
    rest: &'a [u8],
    place: Place,
}

impl<'a> Cursor<'a> {
    /// Before the first token of the line.
    #[inline(always)]
    pub(crate) fn new(line: &'a [u8]) -> Cursor<'a>
        ensures { tokens_left result ≡ tokens line.now }
    {
        Cursor {
            rest: after_blanks(line),
            place: Place::Fresh,
        }
    }

    /// The next byte, if there is one.
    #[inline(always)]
    pub(crate) fn peek(&self) -> Option<u8> {
        self.rest.first().copied()
    }

    /// A value ended, and no token is left.
    #[inline(always)]
    pub(crate) fn is_at_end(&self) -> bool
        ensures { IsTrue result → tokens_left self.now ≡ [] }
    {
        match self.place {
            Place::AfterValue => self.rest.is_empty(),
            Place::Fresh | Place::AfterComma => false,
        }
    }

    /// Takes the bracket that opens an array.
    #[inline(always)]
    pub(crate) fn take_begin_array(&mut self) -> bool
        ensures { IsTrue result → tokens_left self.old ≡ begin_array ∷ tokens_left self.new }
    {
        let Some(rest) = after(self.rest, b'[') else {
            return false;
        };
        if !self.place.may_begin() {
            return false;
        }
        *self = Cursor::new(rest);
        true
    }

    /// Takes the bracket that closes an array, if it is next.
    #[inline(always)]
    pub(crate) fn take_end_array(&mut self) -> bool
        ensures { MatchBool result (after_end_array (tokens_left self.old) ≡ Some (tokens_left self.new)) (self.new ≡ self.old) }
    {
        let Some(rest) = after(self.rest, b']') else {
            return false;
        };
        if let Place::AfterComma = self.place {
            return false;
        }
        self.pass_value(rest)
    }

    /// Takes a text, if it has no escape.
    #[inline(always)]
    pub(crate) fn take_text(&mut self) -> Option<&'a [u8]>
        ensures { IfSome result (λ text. tokens_left self.old ≡ string text.now ∷ tokens_left self.new) }
    {
        let Some(quoted) = after(self.rest, b'"') else {
            return None;
        };
        if !self.place.may_begin() {
            return None;
        }
        let (text, behind) = quoted.split_at(plain_in(quoted));
        let Some(rest) = after(behind, b'"') else {
            return None;
        };
        if self.pass_value(rest) {
            Some(text)
        } else {
            None
        }
    }

    /// Takes a whole number.
    #[inline(always)]
    pub(crate) fn take_number(&mut self) -> Option<&'a [u8]>
        ensures { IfSome result (λ text. tokens_left self.old ≡ number text.now ∷ tokens_left self.new) }
    {
        if !self.place.may_begin() {
            return None;
        }
        let (text, rest) = self.rest.split_at(number_in(self.rest)?);
        if self.pass_value(rest) {
            Some(text)
        } else {
            None
        }
    }

    /// Takes a truth value.
    #[inline(always)]
    pub(crate) fn take_bool(&mut self) -> Option<bool>
        ensures { IfSome result (λ truth. tokens_left self.old ≡ boolean truth ∷ tokens_left self.new) }
    {
        let (truth, rest) = bool_in(self.rest)?;
        if self.place.may_begin() && self.pass_value(rest) {
            Some(truth)
        } else {
            None
        }
    }

    /// Goes on behind a value, which `rest` stands behind: to the bracket that closes its array, behind the comma, or to the end.
    #[inline(always)]
    fn pass_value(&mut self, rest: &'a [u8]) -> bool
        ensures passed { MatchBool result (punctuate after_value (lex between rest.now) ≡ tokens_left self.new) (self.new ≡ self.old) }
        ensures no_key { IsTrue result → begins_colon (lex between rest.now) ≡ false }
        ensures ended { IsTrue result → ends_word rest.now ≡ true }
    {
        let next = after_blanks(rest);
        if let Some(behind) = after(next, b',') {
            *self = Cursor {
                rest: after_blanks(behind),
                place: Place::AfterComma,
            };
            return true;
        }
        if is_closing(next) {
            *self = Cursor {
                rest: next,
                place: Place::AfterValue,
            };
            return true;
        }
        false
    }
}

/// What stands behind the byte, where the bytes begin with it.
#[inline(always)]
fn after(bytes: &[u8], byte: u8) -> Option<&[u8]>
    ensures { IfSome result (λ rest. bytes.now ≡ byte ∷ rest.now) }
{
    if !bytes.is_empty() && bytes[0] == byte {
        Some(&bytes[1..])
    } else {
        None
    }
}

/// An array closes here, or the line ends.
#[inline(always)]
fn is_closing(bytes: &[u8]) -> bool
    ensures no_key { IsTrue result → begins_colon (lex between bytes.now) ≡ false }
    ensures ended { IsTrue result → ends_word bytes.now ≡ true }
{
    match after(bytes, b']') {
        Some(_) => true,
        None => bytes.is_empty(),
    }
}

/// The truth value that the bytes begin with, and what stands behind it.
#[inline(always)]
fn bool_in(bytes: &[u8]) -> Option<(bool, &[u8])>
    ensures { IfSome result (λ found. bytes.now ≡ token_text (boolean found.0) ++ found.1.now) }
{
    if let Some(rest) = bytes.strip_prefix(b"true") {
        return Some((true, rest));
    }
    let rest = bytes.strip_prefix(b"false")?;
    Some((false, rest))
}

/// What stands behind the blanks.
#[inline(always)]
fn after_blanks(bytes: &[u8]) -> &[u8]
    ensures same { lex between result.now ≡ lex between bytes.now }
    ensures ended { ends_word result.now ≡ true → ends_word bytes.now ≡ true }
{
    let mut rest = bytes;
    while let Some(behind) = after(rest, b' ') {
        rest = behind;
    }
    rest
}

/// How many bytes stand before the first that ends a text, or that is an escape's.
#[inline(always)]
fn plain_in(bytes: &[u8]) -> usize
    ensures count { result ≡ prefix_len is_plain bytes.now }
    ensures within { result ≤ length bytes.now }
{
    let mut i = 0;
    while i < bytes.len() && bytes[i] != b'"' && bytes[i] != b'\\' && bytes[i] >= 0x20 {
        i += 1;
    }
    i
}

/// How many digits the bytes begin with.
#[inline(always)]
fn digits_in(bytes: &[u8]) -> usize
    ensures count { result ≡ prefix_len is_ascii_digit bytes.now }
    ensures within { result ≤ length bytes.now }
{
    let mut i = 0;
    while i < bytes.len() && bytes[i].is_ascii_digit() {
        i += 1;
    }
    i
}

/// How many bytes the whole number has that the bytes begin with.
#[inline(always)]
fn number_in(bytes: &[u8]) -> Option<usize>
    ensures { IfSome result (λ count. (count ≤ length bytes.now) × IsNumber (take count bytes.now)) }
{
    match after(bytes, b'-') {
        Some(digits) => Some(1 + whole_in(digits)?),
        None => whole_in(bytes),
    }
}

/// How many digits it has, of which the first is no zero but alone.
#[inline(always)]
fn whole_in(bytes: &[u8]) -> Option<usize>
    ensures within { IfSome result (λ count. count ≤ length bytes.now) }
    ensures number { IfSome result (λ count. IsNumber (take count bytes.now)) }
    ensures negative { IfSome result (λ count. IsNumber (45 ∷ take count bytes.now)) }
{
    let count = digits_in(bytes);
    if count == 1 {
        return Some(1);
    }
    if count == 0 || bytes[0] == b'0' {
        return None;
    }
    Some(count)
}
