// A line of the text, behind its first word. Each function reads what its definition says, and stops at the first thing that is not there.
#![tactic(auto, using(crate::proofs::Spans::reach_then), unfolding(pen::specs::Words::bytes, crate::specs::Reading::floor_line, crate::specs::Reading::lot_line, crate::specs::Reading::look_line, crate::specs::Reading::ticket_line, crate::specs::Reading::long_line, crate::specs::Reading::insert_line, crate::specs::Reading::verb_at, crate::specs::Reading::call_line, crate::specs::Reading::line_by))]

ghost use Rattle.std.specs.Prelude.{◌≡◌, ◌||◌, ltb};
ghost use Rattle.schedule.specs.Reading.{floor_line, lot_line, look_line, ticket_line, long_line, insert_line, verb_at, kind_line, call_line, turns_line, line_by, whole_line};
ghost use Rattle.schedule.specs.Results.{Takes, Hears, HearsLine};

use crate::token::Reader;
use crate::{Entry, Expected, Word, Wrong, turns};
use engine::Plan;
use sheet::{Call, LIMIT};
use turn::record;

// floor 2 workers 1 bucket version 0
fn floor(text: &mut Reader<'_>) -> Result<Entry, Wrong>
    ensures { Hears text.old (floor_line text.old.text.now text.old.at) text.new result }
{
    let workers = text.number(u64::from(u8::MAX), Expected::WorkerCount)?;
    text.either(b"worker", b"workers", Expected::Workers)?;
    let buckets = text.number(u64::from(u16::MAX), Expected::BucketCount)?;
    text.either(b"bucket", b"buckets", Expected::Buckets)?;
    text.keyword(b"version", Expected::Version)?;
    let version = text.number(u64::from(u32::MAX), Expected::VersionNumber)?;
    Ok(Entry::Floor(Plan {
        workers: workers as usize,
        buckets: buckets as usize,
        version: version as u32,
    }))
}

// .. lot 7, of a look or a remove
fn lot(text: &mut Reader<'_>, worker: u8, kind: u8) -> Result<Entry, Wrong>
    ensures { Hears text.old (lot_line text.old.text.now worker kind text.old.at) text.new result }
{
    text.keyword(b"lot", Expected::Lot)?;
    let lot = text.number(u64::MAX, Expected::LotNumber)?;
    let call = Call {
        lot,
        ticket: 0,
        worker,
        kind,
    };
    Ok(Entry::Call(call, false))
}

// .. for lot 7
fn look(text: &mut Reader<'_>, worker: u8) -> Result<Entry, Wrong>
    ensures { Hears text.old (look_line text.old.text.now worker text.old.at) text.new result }
{
    text.keyword(b"for", Expected::For)?;
    lot(text, worker, record::LOOK)
}

// A ticket takes eight bytes where they are asked for, or where four do not hold it.
fn takes_eight(long: bool, ticket: u64) -> bool
    ensures { result ≡ (long || ltb 4294967295 ticket) }
{
    long || u64::from(u32::MAX) < ticket
}

// .. 1, behind ticket or long ticket
fn ticket(text: &mut Reader<'_>, worker: u8, lot: u64, long: bool) -> Result<Entry, Wrong>
    ensures { Hears text.old (ticket_line text.old.text.now worker lot long text.old.at) text.new result }
{
    let ticket = text.number(u64::MAX, Expected::TicketNumber)?;
    let call = Call {
        lot,
        ticket,
        worker,
        kind: record::INSERT,
    };
    Ok(Entry::Call(call, takes_eight(long, ticket)))
}

// .. ticket, behind long
fn long(text: &mut Reader<'_>, worker: u8, lot: u64) -> Result<Entry, Wrong>
    ensures { Hears text.old (long_line text.old.text.now worker lot text.old.at) text.new result }
{
    text.keyword(b"ticket", Expected::Ticket)?;
    ticket(text, worker, lot, true)
}

// .. lot 7 ticket 1, of an insert
fn insert(text: &mut Reader<'_>, worker: u8) -> Result<Entry, Wrong>
    ensures { Hears text.old (insert_line text.old.text.now worker text.old.at) text.new result }
{
    text.keyword(b"lot", Expected::Lot)?;
    let lot = text.number(u64::MAX, Expected::LotNumber)?;
    if text.either(b"ticket", b"long", Expected::Ticket)? {
        ticket(text, worker, lot, false)
    } else {
        long(text, worker, lot)
    }
}

// looks, inserts or removes
fn verb(text: &mut Reader<'_>) -> Result<u8, Wrong>
    ensures { Takes (λ kind. kind) text.old (verb_at text.old.text.now text.old.at) text.new result }
{
    let word = text.word();
    let kind = if text.spells(word, b"looks") {
        record::LOOK
    } else if text.spells(word, b"inserts") {
        record::INSERT
    } else if text.spells(word, b"removes") {
        record::REMOVE
    } else {
        return Err(text.wrong(Expected::Verb));
    };
    text.at = word.end;
    Ok(kind)
}

// A call by its kind, which is a byte, as the sheet that is made has it.
fn by_kind(text: &mut Reader<'_>, worker: u8, kind: u8) -> Result<Entry, Wrong>
    ensures { Hears text.old (kind_line text.old.text.now worker kind text.old.at) text.new result }
{
    match kind {
        record::LOOK => look(text, worker),
        record::INSERT => insert(text, worker),
        _ => lot(text, worker, record::REMOVE),
    }
}

// .. 0 inserts lot 7 ticket 1, behind worker
fn call(text: &mut Reader<'_>) -> Result<Entry, Wrong>
    ensures { Hears text.old (call_line text.old.text.now text.old.at) text.new result }
{
    let worker = text.number(u64::from(u8::MAX), Expected::WorkerNumber)?;
    let kind = verb(text)?;
    by_kind(text, worker as u8, kind)
}

// .. 0 x11, behind turns
fn turns(text: &mut Reader<'_>) -> Result<Entry, Wrong>
    ensures { Hears text.old (turns_line text.old.text.now text.old.at) text.new result }
{
    let start = text.at;
    let mut first = *text;
    first.number(u64::from(u8::MAX), Expected::Turn)?;
    let count = turns::count(text)?;
    if count > LIMIT as u64 {
        return Err(Wrong {
            at: start,
            what: Expected::Room,
        });
    }
    Ok(Entry::Turns(start, count as usize))
}

// A line by its first word: the first line is the floor, and no other is.
fn by_word(text: &mut Reader<'_>, word: Word, first: bool) -> Result<Entry, Wrong>
    ensures { HearsLine text.old word (line_by first text.old.text.now word) text.new result }
{
    text.at = word.end;
    if first && text.spells(word, b"floor") {
        return floor(text);
    }
    if !first && text.spells(word, b"worker") {
        return call(text);
    }
    if !first && text.spells(word, b"turns") {
        return turns(text);
    }
    let what = if first {
        Expected::Floor
    } else {
        Expected::WorkerOrTurns
    };
    Err(Wrong {
        at: word.start,
        what,
    })
}

// A line, to its end.
pub fn whole(text: &mut Reader<'_>, word: Word, first: bool) -> Result<Entry, Wrong>
    ensures { HearsLine text.old word (whole_line first text.old.text.now word) text.new result }
{
    let entry = by_word(text, word, first)?;
    text.line_end(Expected::LineEnd)?;
    Ok(entry)
}
