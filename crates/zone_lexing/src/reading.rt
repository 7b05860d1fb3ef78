//! An entry while it is read, item by item (RFC 1035, 5.1).
ghost use Rattle.std.specs.Prelude.{◌≡◌, ℕ, ◌+◌, ◌^◌, ◌<◌, ◌≤◌, true, false, length, List, [], ◌∷◌, Some};
ghost use Rattle.zone_lexing.specs.Items.{Item, items, item_at};
ghost use Rattle.zone_lexing.specs.Word.{written};
ghost use Rattle.zone_lexing.specs.Word.Written.{Quoted};
ghost use Rattle.zone_lexing.specs.Entries.{begins_blank, between_quotes};

use crate::entry::EntryHead;
use crate::item::{Token, item_at};
use crate::parentheses::{closes, nested};
use crate::word::Word;

/// What is read of an entry but its words, and the text that is left.
#[derive(Drop)]
pub(crate) struct Reading<'a> {
    /// What is left of the text.
    pub rest: &'a [u8],
    /// How many lines end before it.
    pub lines: u64,
    /// How many lines end before the entry's line.
    start: u64,
    /// Whether the entry's line begins with a blank.
    indented: bool,
    /// Whether it stands between parentheses.
    inside: bool,
    /// Whether the entry has a word.
    some: bool,
    ghost small: { lines + length rest.now < 2 ^ 64 },
    ghost from: { start ≤ lines },
    ghost reported: { some ≡ true → start + 1 + length rest.now < 2 ^ 64 },
}

/// What an item makes of the entry.
pub(crate) enum Step<'a> {
    /// It goes on.
    On,
    /// It goes on, with a word more.
    Take(Word<'a>),
    /// It ends.
    Whole(EntryHead),
    /// The text ends, and there is no entry.
    End,
}

/// Whether a blank is at the front of a text.
fn begins_blank(text: &[u8]) -> bool
    ensures { result ≡ begins_blank (items 0 text.now) }
{
    match item_at(text) {
        Some((Token::Blank, _)) => true,
        _ => false,
    }
}

/// The string that stands between two quotes, the first octet and the last.
fn between_quotes(octets: &[u8]) -> Word<'_>
    requires { 2 ≤ length octets.now }
    ensures { written result ≡ Quoted (between_quotes octets.now) }
{
    Word::Quoted(&octets[1..octets.len() - 1])
}

impl<'a> Reading<'a> {
    ghost use Rattle.std.specs.Prelude.{◌++◌};
    ghost use Rattle.zone_lexing.specs.Word.{Written};
    ghost use Rattle.zone_lexing.specs.Entries.{entries_left, whole, faulty};
    ghost use Rattle.zone_lexing.specs.Steps.{left, left_before, start_seen, has_word, Steps};

    /// Nothing is read of a line; so many lines end before it.
    pub fn new(rest: &'a [u8], lines: u64) -> Reading<'a>
        requires { lines + length rest.now < 2 ^ 64 }
        ensures left { left result [] ≡ entries_left (lines + 1) (items 0 rest.now) }
        ensures none { result.some ≡ false }
        ensures rest { result.rest.now ≡ rest.now }
    {
        Reading {
            rest,
            lines,
            start: lines,
            indented: begins_blank(rest),
            inside: false,
            some: false,
        }
    }

    /// The next item's step.
    pub fn step(&mut self) -> Step<'a>
        ensures { (words : List Written) → self.old.some ≡ has_word words
            → Steps (left self.old words) self.old self.new words result }
    {
        let Some((token, len)) = item_at(self.rest) else {
            return self.end();
        };
        let (octets, behind) = self.rest.split_at(len);
        match token {
            Token::Bare => self.word(Word::Plain(octets), behind),
            Token::InQuotes => self.word(between_quotes(octets), behind),
            Token::Blank | Token::Comment => self.on(behind),
            Token::Open => self.open(behind),
            Token::Close => self.close(behind),
            Token::Unclosed => self.unclosed(self.lines + 1),
            Token::LineEnd => self.line_end(behind),
        }
    }

    /// The entry goes on after an item.
    fn on(&mut self, behind: &'a [u8]) -> Step<'a>
        requires { length behind.now < length self.old.rest.now }
        ensures { (words : List Written) → self.old.some ≡ has_word words
            → Steps (left_before self.old words (items 0 behind.now)) self.old self.new words result }
    {
        self.rest = behind;
        Step::On
    }

    /// The entry goes on after a word.
    fn word(&mut self, word: Word<'a>, behind: &'a [u8]) -> Step<'a>
        requires { length behind.now < length self.old.rest.now }
        ensures { (words : List Written) → self.old.some ≡ has_word words
            → Steps (left_before self.old (words ++ written word.entry ∷ []) (items 0 behind.now)) self.old self.new words result }
    {
        self.rest = behind;
        self.some = true;
        Step::Take(word)
    }

    /// The entry goes on inside an opening parenthesis, where it is closed; parentheses don't nest.
    fn open(&mut self, behind: &'a [u8]) -> Step<'a>
        requires { length behind.now < length self.old.rest.now }
        ensures { (words : List Written) (octets : List ℕ) → self.old.some ≡ has_word words
            → Steps (left_before self.old words ((Token.Open, octets) ∷ items 0 behind.now)) self.old self.new words result }
    {
        let line = self.lines + 1;
        if self.inside {
            return self.unclosed(line);
        }
        if !closes(behind) {
            return self.unclosed(nested(behind, self.lines).unwrap_or(line));
        }
        self.rest = behind;
        self.inside = true;
        Step::On
    }

    /// The entry goes on after a closing parenthesis, where one is open.
    fn close(&mut self, behind: &'a [u8]) -> Step<'a>
        requires { length behind.now < length self.old.rest.now }
        ensures { (words : List Written) (octets : List ℕ) → self.old.some ≡ has_word words
            → Steps (left_before self.old words ((Token.Close, octets) ∷ items 0 behind.now)) self.old self.new words result }
    {
        if !self.inside {
            return self.unclosed(self.lines + 1);
        }
        self.rest = behind;
        self.inside = false;
        Step::On
    }

    /// The entry ends at a line's end, where it stands in no parentheses and has a word.
    fn line_end(&mut self, behind: &'a [u8]) -> Step<'a>
        requires { length behind.now < length self.old.rest.now }
        ensures { (words : List Written) (octets : List ℕ) → self.old.some ≡ has_word words
            → Steps (left_before self.old words ((Token.LineEnd, octets) ∷ items 0 behind.now)) self.old self.new words result }
    {
        let lines = self.lines + 1;
        if self.some && !self.inside {
            return self.whole(behind, lines);
        }
        if !self.inside {
            *self = Reading::new(behind, lines);
            return Step::On;
        }
        self.rest = behind;
        self.lines = lines;
        Step::On
    }

    /// The entry ends at the text's end, where it has a word.
    fn end(&mut self) -> Step<'a>
        ensures { (words : List Written) → self.old.some ≡ has_word words
            → Steps (left_before self.old words []) self.old self.new words result }
    {
        if !self.some {
            return Step::End;
        }
        let lines = self.lines;
        self.whole(&[], lines)
    }

    /// The entry ends as it should; so many lines end before the text after it.
    fn whole(&mut self, behind: &'a [u8], lines: u64) -> Step<'a>
        requires some { self.old.some ≡ true }
        requires small { lines + length behind.now < 2 ^ 64 }
        requires from { self.old.start ≤ lines }
        requires less { length behind.now ≤ length self.old.rest.now }
        ensures { (words : List Written) → self.old.some ≡ has_word words
            → Steps (whole (start_seen self.old) words ++ entries_left (lines + 1) (items 0 behind.now)) self.old self.new words result }
    {
        let head = EntryHead {
            line: self.start + 1,
            indented: self.indented,
            unclosed: None,
        };
        self.rest = behind;
        self.lines = lines;
        Step::Whole(head)
    }

    /// The entry ends at a fault, with its line, and the text ends there.
    fn unclosed(&mut self, line: u64) -> Step<'a>
        requires { 0 < length self.old.rest.now }
        ensures { (words : List Written) → Steps (faulty (start_seen self.old) words line) self.old self.new words result }
    {
        let head = EntryHead {
            line: self.start + 1,
            indented: self.indented,
            unclosed: Some(line),
        };
        self.rest = &[];
        Step::Whole(head)
    }
}
