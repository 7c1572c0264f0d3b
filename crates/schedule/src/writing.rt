// From a sheet to its text. Each function writes a part of a line with a pen.
#![tactic(auto, using(pen::proofs::Putting::pens), unfolding(pen::specs::Words::bytes, pen::specs::Words::things, crate::specs::Writing::floor_text, crate::specs::Writing::ticket_text, crate::specs::Writing::verb_text, crate::specs::Writing::call_text, crate::specs::Writing::run_text))]

ghost use Rattle.std.specs.Prelude.{◌≡◌, ◌≤◌, length};
ghost use Rattle.pen.specs.Written.{Writes};
ghost use Rattle.sheet.specs.Fields.{read_field};
ghost use Rattle.sheet.specs.Fields.Read.{Whole};
ghost use Rattle.schedule.specs.Writing.{floor_text, ticket_text, verb_text, call_text, same_as, run_text, turns_text, field_text};
ghost use Rattle.schedule.specs.Results.{Tells};

use engine::Plan;
use pen::Pen;
use sheet::{Call, Field, reading};
use turn::record;

// The line of a floor.
fn floor(pen: &mut Pen<'_>, plan: Plan)
    ensures { Writes pen.old (floor_text plan) pen.new }
{
    pen.words(b"floor ");
    pen.things(plan.workers as u64, b" worker");
    pen.words(b" ");
    pen.things(plan.buckets as u64, b" bucket");
    pen.told(b" version ", u64::from(plan.version));
    pen.words(b"\n");
}

// An insert's ticket; one of eight bytes that four would hold is called long.
fn ticket(pen: &mut Pen<'_>, call: Call, long: bool)
    ensures { Writes pen.old (ticket_text call long) pen.new }
{
    if long && call.ticket <= u64::from(u32::MAX) {
        pen.told(b" long ticket ", call.ticket);
    } else {
        pen.told(b" ticket ", call.ticket);
    }
}

// What a worker does.
fn verb(pen: &mut Pen<'_>, call: Call, long: bool)
    ensures { Writes pen.old (verb_text call long) pen.new }
{
    match call.kind {
        record::LOOK => pen.told(b" looks for lot ", call.lot),
        record::INSERT => {
            pen.told(b" inserts lot ", call.lot);
            ticket(pen, call, long);
        }
        _ => pen.told(b" removes lot ", call.lot),
    }
}

// The line of a call.
fn call(pen: &mut Pen<'_>, call: Call, long: bool)
    ensures { Writes pen.old (call_text call long) pen.new }
{
    pen.told(b"worker ", u64::from(call.worker));
    verb(pen, call, long);
    pen.words(b"\n");
}

// How many turns at the head are this worker's, one after another. By `for`, for the reason of `token::past`.
fn same_as(turns: &[u8], worker: u8) -> usize
    ensures is { result ≡ same_as worker turns.now }
    ensures within { result ≤ length turns.now }
{
    for (i, &turn) in turns.iter().enumerate() {
        if turn != worker {
            return i;
        }
    }
    turns.len()
}

// Turns of one worker, one after another.
fn run(pen: &mut Pen<'_>, worker: u8, times: usize)
    ensures { Writes pen.old (run_text worker times) pen.new }
{
    pen.told(b" ", u64::from(worker));
    if times != 1 {
        pen.told(b" x", times as u64);
    }
}

// The line of turns.
fn turns(pen: &mut Pen<'_>, turns: &[u8])
    ensures { Writes pen.old (turns_text turns.now) pen.new }
{
    pen.words(b"turns");
    let mut rest = turns;
    while let Some((&worker, behind)) = rest.split_first() {
        let same = same_as(behind, worker);
        run(pen, worker, 1 + same);
        rest = &behind[same..];
    }
    pen.words(b"\n");
}

// The line of a field that was read at a place.
fn line(pen: &mut Pen<'_>, sheet: &[u8], at: usize, field: Field, next: usize)
    requires { read_field sheet.now at ≡ Whole field next }
    ensures { Writes pen.old (field_text sheet.now at field next) pen.new }
{
    match field {
        Field::Opening(plan) => floor(pen, plan),
        Field::Calling(asked) => call(pen, asked, next - at == 21),
        Field::Turning(span) => turns(pen, &sheet[span.start..span.end]),
    }
}

// The lines of a sheet, field after field, to its end; or to a field that is malformed, and where that is. The next place comes from the
// reading of this one, here and in `turns`.
pub fn lines(pen: &mut Pen<'_>, sheet: &[u8]) -> Result<usize, usize>
    ensures { Tells sheet.now pen.old pen.new result }
{
    let mut at = 0;
    loop {
        let Some(found) = reading::read(sheet, at) else {
            return Err(at);
        };
        line(pen, sheet, at, found.field, found.next);
        if found.next == sheet.len() {
            return Ok(found.next);
        }
        at = found.next;
    }
}
