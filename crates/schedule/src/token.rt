// The words and numbers of a text. Each function looks from a place on, and none asks anything of its caller: past the end stands nothing.
ghost use Rattle.std.specs.Prelude.{◌+◌, ◌-◌, ◌≤◌, ◌≡◌, map, drop, take, cond, Some, None, IfOk};
ghost use Rattle.schedule.specs.Tokens.{goes_on, small, span, past_blanks, past_comment, spelled, same, is_number, value_after};
ghost use Rattle.schedule.specs.Tokens.{number_at, either_at, keyword_at, line_end_at};
ghost use Rattle.schedule.specs.Promises.{Reaches, Words};
ghost use Rattle.schedule.specs.Numbers.{expected_number};
ghost use Rattle.schedule.specs.Results.{run_number, which, Takes};

use crate::{Expected, Word, Wrong};

// Bytes that are skipped or taken together: blanks, the rest of a line, a word.
#[derive(Clone, Copy, Debug, PartialEq, Eq, Hash)]
pub enum Run {
    Blanks,
    Comment,
    Letters,
}

fn is_blank(byte: u8) -> bool
    ensures { result ≡ goes_on 0 byte }
{
    matches!(byte, b' ' | b'\t' | b'\r')
}

impl Run {
    fn takes(self, byte: u8) -> bool
        ensures { result ≡ goes_on (run_number self) byte }
    {
        match self {
            Run::Blanks => is_blank(byte),
            Run::Comment => byte != b'\n',
            Run::Letters => !(is_blank(byte) || byte == b'#' || byte == b'\n'),
        }
    }
}

// A text, and the place from which on it is read.
#[derive(Clone, Copy, Debug)]
pub struct Reader<'a> {
    pub text: &'a [u8],
    pub at: usize,
}

impl<'a> Reader<'a> {
    // The place where a run from a place on ends. By `for`: `take_while(..).count()` was tried, and its proof did not close, since the closure
    // holds the run.
    fn past(&self, at: usize, run: Run) -> usize
        ensures { result ≡ at + span (run_number run) (drop at self.now.text.now) }
    {
        for end in at..self.text.len() {
            if !run.takes(self.text[end]) {
                return end;
            }
        }
        at.max(self.text.len())
    }

    fn past_blanks(&self) -> usize
        ensures { result ≡ past_blanks self.now.text.now self.now.at }
    {
        self.past(self.at, Run::Blanks)
    }

    // The next word of the line.
    #[tactic(auto, using(crate::proofs::Spans::reach_start, crate::proofs::Spans::reach_span), unfolding(crate::specs::Tokens::word_at, crate::specs::Tokens::word_start))]
    pub fn word(&self) -> Word
        ensures { Words self.now.text.now self.now.at result }
    {
        let mut start = self.past_blanks();
        if self.text.get(start) == Some(&b'#') {
            start = self.past(start, Run::Comment);
        }
        Word {
            start,
            end: self.past(start, Run::Letters),
        }
    }

    // The bytes from one place to another, as far as the text goes.
    pub fn bytes(&self, start: usize, end: usize) -> &'a [u8]
        ensures { result.now ≡ take (end - start) (drop start self.now.text.now) }
    {
        self.text
            .get(start..end.min(self.text.len()))
            .unwrap_or(&[])
    }

    // Whether a word says this, in letters of either form.
    pub fn spells(&self, word: Word, said: &[u8]) -> bool
        ensures { result ≡ same (spelled self.now.text.now word.start word.end) said.now }
    {
        is_said(self.bytes(word.start, word.end), said)
    }

    // What is wrong where something else stands behind the blanks.
    #[tactic(auto, using(crate::proofs::Spans::reach_span))]
    pub fn wrong(&self, what: Expected) -> Wrong
        ensures is { result ≡ record { at = past_blanks self.now.text.now self.now.at; what = what } }
        ensures reach { Reaches self.now.text.now self.now.at result.at }
    {
        Wrong {
            at: self.past_blanks(),
            what,
        }
    }

    // A number up to the most that is expected.
    pub fn number(&mut self, most: u64, what: Expected) -> Result<u64, Wrong>
        ensures takes { Takes (λ n. n) self.old (number_at self.old.text.now self.old.at most (expected_number what)) self.new result }
        ensures most { IfOk result (λ n. n ≤ most) }
    {
        let word = self.word();
        let Some(number) = number_in(self.bytes(word.start, word.end), 0, most) else {
            return Err(self.wrong(what));
        };
        self.at = word.end;
        Ok(number)
    }

    // One of two words: whether it is the first.
    #[tactic(auto, unfolding(crate::specs::Tokens::either_at))]
    pub fn either(&mut self, one: &[u8], other: &[u8], what: Expected) -> Result<bool, Wrong>
        ensures { Takes which self.old (either_at self.old.text.now self.old.at one.now other.now (expected_number what)) self.new result }
    {
        let word = self.word();
        let first = self.spells(word, one);
        if !first && !self.spells(word, other) {
            return Err(self.wrong(what));
        }
        self.at = word.end;
        Ok(first)
    }

    #[tactic(auto, unfolding(crate::specs::Tokens::either_at))]
    pub fn keyword(&mut self, said: &[u8], what: Expected) -> Result<(), Wrong>
        ensures { Takes (λ _. 1) self.old (keyword_at self.old.text.now self.old.at said.now (expected_number what)) self.new result }
    {
        let word = self.word();
        if !self.spells(word, said) {
            return Err(self.wrong(what));
        }
        self.at = word.end;
        Ok(())
    }

    // The end of the line, where no word is left.
    #[tactic(auto, unfolding(crate::specs::Tokens::line_end_at))]
    pub fn line_end(&mut self, what: Expected) -> Result<(), Wrong>
        ensures { Takes (λ _. 0) self.old (line_end_at self.old.text.now self.old.at (expected_number what)) self.new result }
    {
        let word = self.word();
        if !word.is_empty() {
            return Err(Wrong {
                at: word.start,
                what,
            });
        }
        self.at = word.start;
        Ok(())
    }
}

// A letter in its small form.
fn small(byte: u8) -> u8
    ensures { result ≡ small byte }
{
    byte.to_ascii_lowercase()
}

// Whether a word says this, in letters of either form. By `for`: with `zip(..).all(..)` the proof did not close.
fn is_said(word: &[u8], said: &[u8]) -> bool
    ensures { result ≡ same (map small word.now) said.now }
{
    for (&byte, &letter) in word.iter().zip(said) {
        if small(byte) != letter {
            return false;
        }
    }
    word.len() == said.len()
}

// Digits as a number within a range.
pub fn number_in(digits: &[u8], least: u64, most: u64) -> Option<u64>
    ensures { result ≡ cond (is_number least most digits.now) (Some (value_after 0 digits.now)) None }
{
    let mut n: u64 = 0;
    for &byte in digits {
        if !byte.is_ascii_digit() {
            return None;
        }
        n = n.checked_mul(10)?.checked_add(u64::from(byte - b'0'))?;
    }
    if digits.is_empty() || n < least || most < n {
        return None;
    }
    Some(n)
}
