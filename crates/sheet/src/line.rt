// The lines of the listing.
ghost use Rattle.turn.specs.Number.{number};
ghost use Rattle.pen.specs.Written.{Writes};
ghost use Rattle.sheet.specs.Line.{end_line, totals_line, refusal_line};

use engine::Totals;
use pen::Pen;
use turn::refusal::Refusal;

// §9.1: a call has ended.
pub fn ended(pen: &mut Pen<'_>, turn: u32, worker: u8, kind: u8, answer: u64)
    ensures { Writes pen.old (end_line turn worker kind answer) pen.new }
{
    pen.told(b"E ", u64::from(turn));
    pen.told(b" ", u64::from(worker));
    pen.told(b" ", u64::from(kind));
    pen.told(b" ", answer);
    pen.byte(b'\n');
}

// §9.2: the totals.
pub fn totals(pen: &mut Pen<'_>, totals: Totals)
    ensures { Writes pen.old (totals_line totals) pen.new }
{
    pen.told(b"T ", u64::from(totals.turns));
    pen.told(b" ", u64::from(totals.changes));
    pen.told(b" ", u64::from(totals.lost));
    pen.told(b" ", u64::from(totals.full));
    pen.byte(b'\n');
}

// §9.3: a refusal.
#[tactic(auto, using(pen::proofs::Putting::pens))]
pub fn refused(pen: &mut Pen<'_>, why: Refusal, offset: usize)
    ensures { Writes pen.old (refusal_line (number why) offset) pen.new }
{
    pen.told(b"R ", u64::from(u8::from(why)));
    pen.told(b" ", offset as u64);
    pen.byte(b'\n');
}
