// What a line says, written as a field of the sheet: tag, length, value. Each function writes as far as there is room.
#![tactic(auto, using(pen::proofs::Putting::pens), unfolding(pen::specs::Words::bytes))]

ghost use Rattle.std.specs.Prelude.{◌≡◌, ◌∷◌, ◌++◌, leb};
ghost use Rattle.pen.specs.Written.{Writes};
ghost use Rattle.schedule.specs.Bytes.{high_first, floor_bytes, call_bytes};
ghost use Rattle.schedule.specs.Saids.{Counts, entry_bytes, call_size, entry_size};

use crate::{Entry, turns};
use engine::Plan;
use pen::Pen;
use sheet::Call;
use turn::record;

// §8.1: a number in so many bytes, the high byte first.
#[tactic(auto, using(pen::proofs::Putting::pens, crate::proofs::HighFirst::high_none, crate::proofs::HighFirst::high_more))]
fn high_first(pen: &mut Pen<'_>, n: u64, bytes: usize)
    ensures { Writes pen.old (high_first bytes n) pen.new }
{
    if bytes != 0 {
        high_first(pen, n / 256, bytes - 1);
        pen.byte((n % 256) as u8);
    }
}

// §8.2: the field of a floor.
fn floor(pen: &mut Pen<'_>, plan: Plan)
    ensures { Writes pen.old (floor_bytes plan) pen.new }
{
    pen.words(b"\x01\x00\x07");
    high_first(pen, plan.workers as u64, 1);
    high_first(pen, plan.buckets as u64, 2);
    high_first(pen, u64::from(plan.version), 4);
}

// §8.3: a call whose value has this length, with its ticket in so many bytes.
fn call_of(pen: &mut Pen<'_>, call: Call, length: u8, bytes: usize)
    ensures { Writes pen.old
        (2 ∷ 0 ∷ length ∷ call.worker ∷ call.kind ∷ (high_first 8 call.lot ++ high_first bytes call.ticket)) pen.new }
{
    pen.words(b"\x02\x00");
    pen.byte(length);
    pen.byte(call.worker);
    pen.byte(call.kind);
    high_first(pen, call.lot, 8);
    high_first(pen, call.ticket, bytes);
}

// §8.3: the field of a call.
fn call(pen: &mut Pen<'_>, call: Call, long: bool)
    ensures { Writes pen.old (call_bytes call long) pen.new }
{
    if call.kind != record::INSERT {
        call_of(pen, call, 10, 0);
    } else if long {
        call_of(pen, call, 18, 8);
    } else {
        call_of(pen, call, 14, 4);
    }
}

// §8.4: the field of turns, so many of them, which a line lists from a place on.
fn turns(pen: &mut Pen<'_>, text: &[u8], from: usize, count: usize)
    ensures { Counts text.now (Entry.Turns from count) →
        Writes pen.old (entry_bytes text.now (Entry.Turns from count)) pen.new }
{
    pen.byte(3);
    high_first(pen, count as u64, 2);
    turns::list(pen, text, from);
}

// The field of what a line says.
pub fn write(pen: &mut Pen<'_>, text: &[u8], entry: Entry)
    ensures { Counts text.now entry → Writes pen.old (entry_bytes text.now entry) pen.new }
{
    match entry {
        Entry::Floor(plan) => floor(pen, plan),
        Entry::Call(said, long) => call(pen, said, long),
        Entry::Turns(from, count) => turns(pen, text, from, count),
    }
}

// Whether the field of a call fits into so many bytes.
fn call_fits(kind: u8, long: bool, left: usize) -> bool
    ensures { result ≡ leb (call_size kind long) left }
{
    match (kind, long) {
        (record::INSERT, true) => 21 <= left,
        (record::INSERT, false) => 17 <= left,
        _ => 13 <= left,
    }
}

// Whether the field of what a line says fits into so many bytes.
pub fn fits(entry: Entry, left: usize) -> bool
    ensures { result ≡ leb (entry_size entry) left }
{
    match entry {
        Entry::Floor(_) => 10 <= left,
        Entry::Call(said, long) => call_fits(said.kind, long, left),
        Entry::Turns(_, count) => 3 <= left && count <= left - 3,
    }
}
