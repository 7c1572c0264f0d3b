// The words of a turn, with a pen. Places and kinds are numbers, as C has them in the record (`turn::Worker`).
#![tactic(auto, using(pen::proofs::Putting::pens), unfolding(pen::specs::Words::bytes))]

ghost use Rattle.std.specs.Prelude.{◌&&◌, ◌≡◌, ◌++◌, ◌+◌, eqb};
ghost use Rattle.pen.specs.Written.{Writes};
ghost use Rattle.pen.specs.Words.{bytes};
ghost use Rattle.view.specs.Telling.{told, mark_told, cell_on, read_told, outcome_told, swap_told, store_told, writes_told, does_told, is_won};
ghost use Rattle.view.specs.Telling.{new_word, new_ticket, new_held, new_slot, full_told, blame_told, lost_told, kind_name, answer_told, end_told, learnt_told, news_told, head_told, turn_told};

use crate::{Acted, Change, marking};
use pen::Pen;
use turn::{Action, Progress, Report, Worker, record};

// ---- what a turn does

// Words, a slot and what was read there.
#[tactic(auto, using(pen::proofs::Putting::pens), unfolding(pen::specs::Words::bytes, crate::specs::Telling::read_told))]
fn reads(pen: &mut Pen<'_>, said: &[u8], board: &[u64], bucket: usize, first: u8, slot: u8)
    ensures { Writes pen.old (read_told said.now slot (cell_on board.now bucket (first + slot))) pen.new }
{
    pen.told(said, u64::from(slot));
    marking::cell_word(pen, b": ", board, bucket, first, slot);
}

#[tactic(auto, using(pen::proofs::Putting::pens), unfolding(pen::specs::Words::bytes, crate::specs::Telling::outcome_told))]
fn outcome(pen: &mut Pen<'_>, action: Action)
    ensures { Writes pen.old (outcome_told action) pen.new }
{
    match action {
        Action::Read | Action::Store => {}
        Action::Won => pen.words(b": won"),
        Action::Lost => pen.words(b": lost"),
    }
}

// Words, a slot, more words, and how the swap came out.
#[tactic(auto, using(pen::proofs::Putting::pens), unfolding(pen::specs::Words::bytes, crate::specs::Telling::swap_told))]
fn swaps(pen: &mut Pen<'_>, said: &[u8], slot: u8, more: &[u8], action: Action)
    ensures { Writes pen.old (swap_told said.now slot more.now action) pen.new }
{
    pen.told(said, u64::from(slot));
    pen.words(more);
    outcome(pen, action);
}

// Words, what was written, and into which slot.
#[tactic(auto, using(pen::proofs::Putting::pens), unfolding(pen::specs::Words::bytes, crate::specs::Telling::store_told))]
fn stores(pen: &mut Pen<'_>, said: &[u8], value: u64, slot: u8)
    ensures { Writes pen.old (store_told said.now value slot) pen.new }
{
    pen.told(said, value);
    pen.told(b" into slot ", u64::from(slot));
}

// The mark of a slot, as the turn found it.
fn reads_mark(pen: &mut Pen<'_>, word: u64, slot: u8)
    ensures { Writes pen.old (told (bytes "reads the mark of slot ") slot ++ mark_told (bytes ": ") word slot) pen.new }
{
    pen.told(b"reads the mark of slot ", u64::from(slot));
    marking::slot_mark(pen, b": ", word, slot);
}

// A turn that writes, by the place of the worker's record.
#[tactic(auto, using(pen::proofs::Putting::pens), unfolding(pen::specs::Words::bytes, crate::specs::Telling::writes_told))]
fn writes(pen: &mut Pen<'_>, w: Worker, action: Action)
    ensures { Writes pen.old (writes_told w action) pen.new }
{
    match w.place {
        6 => swaps(
            pen,
            b"swaps slot ",
            w.slot,
            b" from empty to being inserted",
            action,
        ),
        7 => stores(pen, b"writes ticket ", w.ticket, w.held),
        8 => stores(pen, b"writes lot ", w.key, w.held),
        9 => swaps(
            pen,
            b"swaps slot ",
            w.held,
            b" from being inserted to valid, version plus one",
            action,
        ),
        10 => swaps(
            pen,
            b"gives back slot ",
            w.held,
            b", from being inserted to empty",
            action,
        ),
        _ => swaps(pen, b"swaps slot ", w.slot, b" from valid to empty", action),
    }
}

// The memory action of a turn.
#[tactic(auto, using(pen::proofs::Putting::pens), unfolding(pen::specs::Words::bytes, crate::specs::Telling::does_told))]
fn does(pen: &mut Pen<'_>, board: &[u64], w: Worker, report: Report)
    ensures { Writes pen.old (does_told board.now w report) pen.new }
{
    let bucket = report.bucket;
    match w.place {
        1 => pen.words(b"reads the mark word whole"),
        2 | 12 => reads(pen, b"reads the ticket in slot ", board, bucket, 4, w.slot),
        3 => reads_mark(pen, report.before, w.slot),
        4 | 11 => reads(pen, b"reads the lot in slot ", board, bucket, 1, w.slot),
        5 => reads(
            pen,
            b"reads the ticket again in slot ",
            board,
            bucket,
            4,
            w.slot,
        ),
        _ => writes(pen, w, report.action),
    }
}

// ---- what is new in the worker's memory: a line each, where there is one

// Whether a slot was claimed.
fn claims(place: u8, action: Action) -> bool
    ensures { result ≡ (eqb place 6 && is_won action) }
{
    place == 6 && action == Action::Won
}

// The mark word, which is read whole at place 1 and changed by a claim.
#[tactic(auto, using(pen::proofs::Putting::pens), unfolding(pen::specs::Words::bytes, crate::specs::Telling::new_word))]
fn new_word(pen: &mut Pen<'_>, w: Worker, v: Worker, action: Action)
    ensures { Writes pen.old (new_word w v action) pen.new }
{
    if w.place == 1 || claims(w.place, action) {
        marking::mark_word(pen, b"  remembers version ", v.word);
    }
}

// The ticket, which is read to be remembered at places 2 and 12.
#[tactic(auto, using(pen::proofs::Putting::pens), unfolding(pen::specs::Words::bytes, crate::specs::Telling::new_ticket))]
fn new_ticket(pen: &mut Pen<'_>, w: Worker, v: Worker)
    ensures { Writes pen.old (new_ticket w v) pen.new }
{
    if w.place == 2 || w.place == 12 {
        marking::line(pen, b"  remembers ticket ", v.seen);
    }
}

#[tactic(auto, using(pen::proofs::Putting::pens), unfolding(pen::specs::Words::bytes, crate::specs::Telling::new_held))]
fn new_held(pen: &mut Pen<'_>, w: Worker, v: Worker, action: Action)
    ensures { Writes pen.old (new_held w v action) pen.new }
{
    if claims(w.place, action) {
        marking::line(pen, b"  holds slot ", u64::from(v.held));
    }
}

// The slot that it is at, where the call goes on at another.
#[tactic(auto, using(pen::proofs::Putting::pens), unfolding(pen::specs::Words::bytes, crate::specs::Telling::new_slot))]
fn new_slot(pen: &mut Pen<'_>, w: Worker, v: Worker, progress: Progress)
    ensures { Writes pen.old (new_slot w v progress) pen.new }
{
    match progress {
        Progress::GoesOn if v.slot != w.slot => marking::line(
            pen,
            b"  is at slot ",
            u64::from(v.slot),
        ),
        _ => {}
    }
}

#[tactic(auto, using(pen::proofs::Putting::pens), unfolding(pen::specs::Words::bytes, crate::specs::Telling::full_told))]
fn full_round(pen: &mut Pen<'_>, full: bool)
    ensures { Writes pen.old (full_told full) pen.new }
{
    if full {
        pen.words(b"  finds no empty slot, and begins again: a full round\n");
    }
}

// What a worker went by, and who has changed the mark word since.
fn blames(pen: &mut Pen<'_>, word: u64, change: Change)
    ensures { Writes pen.old (blame_told word change) pen.new }
{
    marking::mark_word(pen, b"  went by version ", word);
    pen.told(b"  but worker ", u64::from(change.worker));
    pen.told(b" changed the word at turn ", u64::from(change.turn));
    pen.words(b", so it begins again\n");
}

#[tactic(auto, using(pen::proofs::Putting::pens), unfolding(pen::specs::Words::bytes, crate::specs::Telling::lost_told))]
fn lost_swap(pen: &mut Pen<'_>, w: Worker, action: Action, change: Change)
    ensures { Writes pen.old (lost_told w action change) pen.new }
{
    if action == Action::Lost {
        blames(pen, w.word, change);
    }
}

#[tactic(auto, using(pen::proofs::Putting::pens), unfolding(pen::specs::Words::bytes, crate::specs::Telling::kind_name))]
pub fn kind_name(pen: &mut Pen<'_>, kind: u8)
    ensures { Writes pen.old (kind_name kind) pen.new }
{
    match kind {
        record::LOOK => pen.words(b"look"),
        record::INSERT => pen.words(b"insert"),
        _ => pen.words(b"remove"),
    }
}

// §9.1: a call that has ended, with its answer.
fn answers(pen: &mut Pen<'_>, kind: u8, answer: u64)
    ensures { Writes pen.old (answer_told kind answer) pen.new }
{
    pen.words(b"  its ");
    kind_name(pen, kind);
    marking::line(pen, b" ends with ", answer);
}

#[tactic(auto, using(pen::proofs::Putting::pens), unfolding(pen::specs::Words::bytes, crate::specs::Telling::end_told))]
fn ends(pen: &mut Pen<'_>, kind: u8, progress: Progress)
    ensures { Writes pen.old (end_told kind progress) pen.new }
{
    if let Progress::Ended(answer) = progress {
        answers(pen, kind, answer);
    }
}

// What is new in the memory of the worker itself.
#[tactic(auto, using(pen::proofs::Putting::pens), unfolding(pen::specs::Words::bytes, crate::specs::Telling::learnt_told))]
fn learns(pen: &mut Pen<'_>, w: Worker, v: Worker, action: Action, progress: Progress)
    ensures { Writes pen.old (learnt_told w v action progress) pen.new }
{
    new_word(pen, w, v, action);
    new_ticket(pen, w, v);
    new_held(pen, w, v, action);
    new_slot(pen, w, v, progress);
}

// What is new, and how the call stands.
#[tactic(auto, using(pen::proofs::Putting::pens), unfolding(pen::specs::Words::bytes, crate::specs::Telling::news_told))]
fn news(pen: &mut Pen<'_>, a: Acted)
    ensures { Writes pen.old (news_told a) pen.new }
{
    let (w, report) = (a.before, a.report);
    learns(pen, w, a.after, report.action, report.progress);
    full_round(pen, report.full);
    lost_swap(pen, w, report.action, a.change);
    ends(pen, w.kind, report.progress);
}

// ---- the turn

// The worker and what it does.
fn head(pen: &mut Pen<'_>, board: &[u64], turn: u32, a: Acted)
    ensures { Writes pen.old (head_told board.now turn a) pen.new }
{
    pen.told(b"turn ", u64::from(turn));
    pen.told(b": worker ", u64::from(a.worker));
    pen.words(b" ");
    does(pen, board, a.before, a.report);
    pen.words(b"\n");
}

#[tactic(auto, using(pen::proofs::Putting::pens), unfolding(pen::specs::Words::bytes, crate::specs::Telling::turn_told))]
pub fn turn(pen: &mut Pen<'_>, board: &[u64], turn: u32, a: Acted)
    ensures { Writes pen.old (turn_told board.now turn a) pen.new }
{
    head(pen, board, turn, a);
    news(pen, a);
    marking::bucket(pen, board, a.report.bucket);
}
