// The fields of a sheet: tag, length, value. Tags and kinds are bytes of the sheet, and any byte may stand there. What reads a value asks for
// one that is whole (`Value`): `read` has tested it.
ghost use Rattle.std.specs.Prelude.{◌≡◌, true, ◌+◌, ◌≤◌, ◌<◌, ◌^◌, length};
ghost use Rattle.sheet.specs.Fields.{number_at, call_fits, ticket_at, opening_at, calling_at, turning_at, read_of, read_field, Value};

use crate::{Call, Field, Found, Span};
use engine::Plan;
use turn::record;

// §8.2: the tag of a floor.
const FLOOR: u8 = 1;

// §8.3: the tag of a call.
const CALL: u8 = 2;

// §8.4: the tag of turns.
const TURNS: u8 = 3;

// §8.1: so many bytes from a place on as a number, high byte first.
fn number(sheet: &[u8], at: usize, bytes: usize) -> u64
    requires { (bytes ≤ 8) × (at + bytes ≤ length sheet.now) }
    ensures { (result ≡ number_at sheet.now at bytes) × (result < 256 ^ bytes) }
{
    let mut n = 0;
    for &byte in &sheet[at..at + bytes] {
        n = 256 * n + u64::from(byte);
    }
    n
}

// §8.2: a floor.
#[tactic(auto, unfolding(crate::specs::Fields::opening_at))]
fn opening(sheet: &[u8], at: usize, length: usize) -> Option<Found>
    requires { Value sheet.now at length }
    ensures { read_of at result ≡ opening_at sheet.now at length }
{
    if at != 0 || length != 7 {
        return None;
    }
    let plan = Plan {
        workers: usize::from(sheet[at + 3]),
        buckets: number(sheet, at + 4, 2) as usize,
        version: number(sheet, at + 6, 4) as u32,
    };
    Some(Found {
        field: Field::Opening(plan),
        next: at + 10,
    })
}

// §8.3: an insert has its ticket behind the lot, in four bytes or in eight.
#[tactic(auto, unfolding(crate::specs::Fields::call_fits))]
fn call_fits(kind: u8, length: usize) -> bool
    ensures { result ≡ call_fits kind length }
{
    match kind {
        record::LOOK => length == 10,
        record::INSERT => length == 14 || length == 18,
        record::REMOVE => length == 10,
        _ => false,
    }
}

// §8.3: an insert's ticket, which takes what its value has beyond 10 bytes; another call has none.
#[tactic(auto, using(crate::proofs::Fitting::call_fits_lem, crate::proofs::Fitting::fits_long, crate::proofs::Fitting::fits_within), unfolding(crate::specs::Fields::ticket_at))]
fn ticket(sheet: &[u8], at: usize, kind: u8, length: usize) -> u64
    requires { Value sheet.now at length × (call_fits kind length ≡ true) }
    ensures { result ≡ ticket_at sheet.now at kind length }
{
    if kind == record::INSERT {
        return number(sheet, at + 13, length - 10);
    }
    0
}

// §8.3: a call.
#[tactic(auto, using(crate::proofs::Fitting::short_fits_not), unfolding(crate::specs::Fields::calling_at))]
fn calling(sheet: &[u8], at: usize, length: usize) -> Option<Found>
    requires { Value sheet.now at length }
    ensures { read_of at result ≡ calling_at sheet.now at length }
{
    if at == 0 || length < 10 {
        return None;
    }
    let kind = sheet[at + 4];
    if !call_fits(kind, length) {
        return None;
    }
    let call = Call {
        lot: number(sheet, at + 5, 8),
        ticket: ticket(sheet, at, kind, length),
        worker: sheet[at + 3],
        kind,
    };
    Some(Found {
        field: Field::Calling(call),
        next: at + 3 + length,
    })
}

// §8.4: turns.
#[tactic(auto, unfolding(crate::specs::Fields::turning_at))]
fn turning(sheet: &[u8], at: usize, length: usize) -> Option<Found>
    requires { Value sheet.now at length }
    ensures { read_of at result ≡ turning_at at length }
{
    if at == 0 || length == 0 {
        return None;
    }
    let start = at + 3;
    let end = start + length;
    Some(Found {
        field: Field::Turning(Span { start, end }),
        next: end,
    })
}

// §8.5, §14.6: the field whose tag stands at a place; none where none can be read.
#[tactic(auto, using(crate::proofs::Fitting::read_short, crate::proofs::Fitting::read_cut, crate::proofs::Fitting::read_whole), unfolding(crate::specs::Fields::field_of))]
pub fn read(sheet: &[u8], at: usize) -> Option<Found>
    ensures { read_of at result ≡ read_field sheet.now at }
{
    if sheet.len() < 3 || sheet.len() - 3 < at {
        return None;
    }
    let length = number(sheet, at + 1, 2) as usize;
    if sheet.len() - 3 - at < length {
        return None;
    }
    match sheet[at] {
        FLOOR => opening(sheet, at, length),
        CALL => calling(sheet, at, length),
        TURNS => turning(sheet, at, length),
        _ => None,
    }
}
