// The turns that a line lists: read twice, first to count them and to see that they are right, and then to write them.
ghost use Rattle.std.specs.Prelude.{◌≤◌, ◌≡◌, length, replicate, IfOk};
ghost use Rattle.pen.specs.Written.{Writes};
ghost use Rattle.schedule.specs.Reading.{times_at, turns_from};
ghost use Rattle.schedule.specs.Results.{Takes, Steps, Counted};

use crate::token::{self, Reader};
use crate::{Expected, Wrong};
use pen::Pen;
use sheet::LIMIT;

// x11 behind a worker's number.
#[tactic(auto, unfolding(crate::specs::Reading::times_at))]
fn times(text: &mut Reader<'_>) -> Result<u64, Wrong>
    ensures { Takes (λ n. n) text.old (times_at text.old.text.now text.old.at) text.new result }
{
    let word = text.word();
    let [b'x' | b'X', digits @ ..] = text.bytes(word.start, word.end) else {
        return Ok(1);
    };
    let times = token::number_in(digits, 1, LIMIT as u64).ok_or(Wrong {
        at: word.start,
        what: Expected::Times,
    })?;
    text.at = word.end;
    Ok(times)
}

// The next worker's turns: whose they are, and how many; none where the line ends.
#[tactic(auto, using(crate::proofs::Spans::reach_then, crate::proofs::Turning::word_inside), unfolding(crate::specs::Reading::turns_from))]
fn next(text: &mut Reader<'_>) -> Result<Option<(u8, u64)>, Wrong>
    ensures { Steps text.old text.new result }
{
    let word = text.word();
    if word.is_empty() {
        text.at = word.start;
        return Ok(None);
    }
    let worker = text.number(u64::from(u8::MAX), Expected::Turn)?;
    let times = times(text)?;
    Ok(Some((worker as u8, times)))
}

// How many turns a line lists; a count past the highest number stays there, which is more than a sheet holds.
pub fn count(text: &mut Reader<'_>) -> Result<u64, Wrong>
    ensures { Counted text.old (turns_from (length text.old.text.now) text.old.text.now text.old.at) text.new result }
{
    let mut count: u64 = 0;
    while let Some((_, times)) = next(text)? {
        count = count.saturating_add(times);
    }
    Ok(count)
}

// So many of one byte.
fn repeat(pen: &mut Pen<'_>, byte: u8, times: u64)
    ensures { Writes pen.old (replicate times byte) pen.new }
{
    for _ in 0..times {
        pen.byte(byte);
    }
}

// Writes the turns that a line lists from a place on, where they are right. It reads them anew, with a reader of its own.
pub fn list(pen: &mut Pen<'_>, text: &[u8], at: usize)
    ensures { (turns_from (length text.now) text.now at).what ≡ 0 →
        Writes pen.old (turns_from (length text.now) text.now at).bytes pen.new }
{
    let mut text = Reader { text, at };
    while let Some((worker, times)) = next(&mut text).unwrap_or(None) {
        repeat(pen, worker, times);
    }
}
