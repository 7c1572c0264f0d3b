// The words of the other scenes, and of whichever scene a stage has come by.
#![tactic(auto, using(pen::proofs::Putting::pens), unfolding(pen::specs::Words::bytes))]

ghost use Rattle.turn.specs.Turn.{after};
ghost use Rattle.pen.specs.Written.{Writes};
ghost use Rattle.view.specs.Telling.{open_told, ticket_told, begin_told, meaning, whose_told, why_told, stop_told, call_told, busy_told, busy_from, totals_told, over_told, stage_told};

use crate::{Scene, Stage, Stop, marking, turning};
use engine::{Plan, Totals};
use pen::Pen;
use sheet::Call;
use turn::{Worker, record};

// ---- a floor, and a call

#[tactic(auto, using(pen::proofs::Putting::pens), unfolding(pen::specs::Words::bytes, crate::specs::Telling::open_told))]
fn opening(pen: &mut Pen<'_>, p: Plan)
    ensures { Writes pen.old (open_told p) pen.new }
{
    marking::things(pen, b"floor: ", p.workers as u64, b" worker");
    marking::things(pen, b", ", p.buckets as u64, b" bucket");
    marking::line(pen, b", version ", u64::from(p.version));
}

// The ticket, which only an insert has.
#[tactic(auto, using(pen::proofs::Putting::pens), unfolding(pen::specs::Words::bytes, crate::specs::Telling::ticket_told))]
fn ticket(pen: &mut Pen<'_>, kind: u8, ticket: u64)
    ensures { Writes pen.old (ticket_told kind ticket) pen.new }
{
    if kind == record::INSERT {
        pen.told(b", ticket ", ticket);
    }
}

fn start(pen: &mut Pen<'_>, c: Call)
    ensures { Writes pen.old (begin_told c) pen.new }
{
    pen.told(b"worker ", u64::from(c.worker));
    pen.words(b" starts: ");
    turning::kind_name(pen, c.kind);
    pen.told(b" lot ", c.lot);
    ticket(pen, c.kind, c.ticket);
    pen.words(b"\n");
}

// ---- a refusal

// What its number means (§6): of every number, since a scene is told with whichever it has (`stopped`).
#[tactic(auto, using(pen::proofs::Putting::pens), unfolding(pen::specs::Words::bytes, crate::specs::Telling::meaning))]
fn means(pen: &mut Pen<'_>, number: u8)
    ensures { Writes pen.old (meaning number) pen.new }
{
    match number {
        1 => pen.words(b"a floor has 1 to 64 workers and 1 to 256 buckets"),
        2 => pen.words(b"the floor has no such worker"),
        3 => pen.words(b"the record of the worker is broken"),
        4 => pen.words(b"the worker is at a call already"),
        5 => pen.words(b"the ticket is not greater than every one before it"),
        6 => pen.words(b"the worker is idle"),
        7 => pen.words(b"the bucket is broken"),
        8 => pen.words(b"the field is not written as a field is"),
        9 => pen.words(b"the sheet is longer than 16384 bytes"),
        _ => pen.words(b"there is no such number"),
    }
}

// Of a refused turn, which it would have been and whose.
#[tactic(auto, using(pen::proofs::Putting::pens), unfolding(pen::specs::Words::bytes, crate::specs::Telling::whose_told))]
fn whose(pen: &mut Pen<'_>, turn: u32, worker: u8)
    ensures { Writes pen.old (whose_told turn worker) pen.new }
{
    if turn != 0 {
        pen.told(b", turn ", u64::from(turn));
        pen.told(b" of worker ", u64::from(worker));
    }
}

// Its number and what it means.
fn why(pen: &mut Pen<'_>, number: u8)
    ensures { Writes pen.old (why_told number) pen.new }
{
    pen.told(b"refused by ", u64::from(number));
    pen.words(b": ");
    means(pen, number);
}

// §9.3: a refusal: why, and of which field.
pub fn stop(pen: &mut Pen<'_>, s: Stop)
    ensures { Writes pen.old (stop_told s) pen.new }
{
    why(pen, s.number);
    pen.told(b"; field ", s.field as u64);
    pen.told(b" at offset ", s.offset as u64);
    whose(pen, s.turn, s.worker);
    pen.words(b"\n");
}

// ---- the end

// A worker that is at a call.
fn at_call(pen: &mut Pen<'_>, i: usize, w: Worker)
    ensures { Writes pen.old (call_told i w) pen.new }
{
    pen.told(b"  worker ", i as u64);
    pen.words(b" is still at its ");
    turning::kind_name(pen, w.kind);
    marking::line(pen, b" of lot ", w.key);
}

#[tactic(auto, using(pen::proofs::Putting::pens), unfolding(pen::specs::Words::bytes, crate::specs::Telling::busy_told))]
fn busy(pen: &mut Pen<'_>, i: usize, w: Worker)
    ensures { Writes pen.old (busy_told i w) pen.new }
{
    if !record::is_idle(w) {
        at_call(pen, i, w);
    }
}

// Every worker that is still at a call.
#[tactic(auto, using(pen::proofs::Putting::pens, crate::proofs::Everyone::busy_more, std::proofs::lemmas::Grind::common_steps), unfolding(crate::specs::Telling::busy_from))]
fn everyone(pen: &mut Pen<'_>, records: &[Worker; 64])
    ensures { Writes pen.old (busy_from 0 records.now) pen.new }
{
    for (i, &w) in records.iter().enumerate() {
        busy(pen, i, w);
    }
}

// What the turns come to.
fn totals(pen: &mut Pen<'_>, t: Totals)
    ensures { Writes pen.old (totals_told t) pen.new }
{
    marking::things(pen, b"; ", u64::from(t.turns), b" turn");
    marking::things(pen, b", ", u64::from(t.changes), b" change");
    marking::things(pen, b", ", u64::from(t.lost), b" lost swap");
    marking::things(pen, b", ", u64::from(t.full), b" full round");
}

#[tactic(auto, using(pen::proofs::Putting::pens), unfolding(pen::specs::Words::bytes, crate::specs::Telling::over_told))]
fn end(pen: &mut Pen<'_>, lots: usize, t: Totals, records: &[Worker; 64])
    ensures { Writes pen.old (over_told lots t records.now) pen.new }
{
    marking::things(pen, b"end: ", lots as u64, b" lot");
    totals(pen, t);
    pen.words(b"\n");
    everyone(pen, records);
}

// ---- whichever it is

// The words of the scene that a stage has come by.
pub fn stage(pen: &mut Pen<'_>, board: &[u64], stage: &Stage)
    ensures { Writes pen.old (stage_told (after board.now stage.now)) pen.new }
{
    match stage.scene {
        Scene::Nothing => {}
        Scene::Opened(p) => opening(pen, p),
        Scene::Began(c) => start(pen, c),
        Scene::Turned(a) => turning::turn(pen, board, stage.totals.turns, a),
        Scene::Stopped(s) => stop(pen, s),
        Scene::Over(lots) => end(pen, lots, stage.totals, &stage.records),
    }
}
