// A sheet, field by field, and the listing that it comes to.
#![tactic(auto)]

ghost use Rattle.std.specs.Prelude.{◌≡◌};
ghost use Rattle.sheet.specs.Play.{shut_desk};
ghost use Rattle.sheet.specs.Listing.{played};
ghost use Rattle.sheet.specs.Promises.{told_by, Stands, SheetPlayed, SheetListed, BoardAsked};

use engine::{Floor, Plan, Totals};
use pen::Pen;
use turn::Worker;
use turn::refusal::Refusal;

pub mod reading; // the fields of the sheet
mod line; // a line of the listing
mod play; // the desk, and what a field does there

pub use play::start;

// §6.9: the most bytes that a sheet may have.
pub const LIMIT: usize = 16384;

// Every listing fits: an E line of 37 bytes for each 13 of the longest sheet, and a last line of 26. A call has one E line, whose answer has
// 20 digits at most, and takes a field of 13 bytes at least, as a look's and a remove's; an insert's is longer, 17 or 21. There is no heap.
pub const ROOM: usize = 37 * LIMIT / 13 + 26;

// A call that a sheet asks for.
#[derive(Clone, Copy, Debug, PartialEq, Eq, Hash)]
pub struct Call {
    pub lot: u64,
    pub ticket: u64,
    pub worker: u8,
    // a number and no enum: `start` answers for every one (`asked`)
    pub kind: u8,
}

// Where the turns of a field stand in the sheet.
#[derive(Clone, Copy, Debug, PartialEq, Eq, Hash)]
pub struct Span {
    pub start: usize,
    pub end: usize,
}

#[derive(Clone, Copy, Debug, PartialEq, Eq, Hash)]
pub enum Field {
    Opening(Plan),
    Calling(Call),
    Turning(Span),
}

// §8.5: a field that was read, and the place after it.
#[derive(Clone, Copy, Debug, PartialEq, Eq, Hash)]
pub struct Found {
    pub field: Field,
    pub next: usize,
}

// Where a sheet leaves the desk: the records and the floor from which it can go on; and how long the listing is.
#[derive(Clone, Copy, Debug, PartialEq, Eq, Hash)]
pub struct Played {
    pub records: [Worker; 64],
    pub floor: Floor,
    pub written: usize,
}

// Where a sheet that is refused leaves the desk: the records and the floor of a shut one; how long the listing is; and why it was refused.
#[derive(Clone, Copy, Debug, PartialEq, Eq, Hash)]
pub struct Stopped {
    pub records: [Worker; 64],
    pub floor: Floor,
    pub written: usize,
    pub why: Refusal,
}

// What the fields done so far have left, beside the board. Its records stay in one place while a sheet is played.
#[derive(Clone, Copy, Debug, PartialEq, Eq, Hash)]
pub struct Desk {
    pub floor: Floor,
    pub records: [Worker; 64],
    pub totals: Totals,
}

// Why a sheet is refused, and where its last line says so.
#[derive(Clone, Copy, Debug, PartialEq, Eq, Hash)]
struct Stop {
    why: Refusal,
    offset: usize,
}

// §2.2: how many words of a board the sheet's floor asks for; none where it has no floor that fits (`BoardAsked`).
#[tactic(auto, using(crate::proofs::Fielding::first_field), unfolding(crate::specs::Listing::words_asked))]
pub fn words(sheet: &[u8]) -> usize
    ensures { BoardAsked sheet.now result }
{
    let Some(found) = reading::read(sheet, 0) else {
        return 0;
    };
    let Field::Opening(plan) = found.field else {
        return 0;
    };
    if plan.buckets <= 256 {
        return 8 * plan.buckets;
    }
    0
}

// §8.6: plays a sheet on a lent board, its size first and then its fields, writes the listing, and tells how long that is.
pub fn list(sheet: &[u8], board: &mut [u64], out: &mut [u8; ROOM]) -> usize
    ensures { SheetListed sheet.now board.old out.old board.new out.new result }
{
    match stand(sheet, board, out) {
        Ok(played) => played.written,
        Err(stopped) => stopped.written,
    }
}

// §8.6, §18.7: plays a sheet so, and hands back where it leaves the desk.
pub fn stand(sheet: &[u8], board: &mut [u64], out: &mut [u8; ROOM]) -> Result<Played, Stopped>
    ensures { SheetPlayed sheet.now board.old out.old board.new out.new result }
{
    let mut desk = Desk::shut();
    let mut pen = Pen { out, at: 0 };
    match fields(sheet, board, &mut desk, &mut pen) {
        Ok(()) => {
            line::totals(&mut pen, desk.totals);
            let records = desk.records;
            Ok(Played {
                records,
                floor: desk.floor,
                written: pen.at,
            })
        }
        Err(stop) => {
            line::refused(&mut pen, stop.why, stop.offset);
            let shut = Desk::shut();
            let records = shut.records;
            Err(Stopped {
                records,
                floor: shut.floor,
                written: pen.at,
                why: stop.why,
            })
        }
    }
}

// §6.9, §14.6: field after field, from a shut desk. All that is listed of them is written but the last line. The next place comes from the
// reading of this one, so that no for has it.
fn fields(sheet: &[u8], board: &mut [u64], desk: &mut Desk, pen: &mut Pen<'_>) -> Result<(), Stop>
    requires { desk.old ≡ shut_desk }
    ensures { Stands (played sheet.now board.old) pen.old pen.new board.new (told_by desk.new result) }
{
    if sheet.len() > LIMIT {
        return Err(Stop {
            why: Refusal::TooLong,
            offset: 0,
        });
    }
    let mut at = 0;
    loop {
        let Some(found) = reading::read(sheet, at) else {
            return Err(Stop {
                why: Refusal::Malformed,
                offset: at,
            });
        };
        if let Err(why) = desk.field(sheet, board, found, pen) {
            return Err(Stop { why, offset: at });
        }
        if found.next == sheet.len() {
            return Ok(());
        }
        at = found.next;
    }
}
