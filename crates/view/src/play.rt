// The next scene of a sheet: a function for each definition of what it comes to.
#![tactic(auto)]

ghost use Rattle.std.specs.Prelude.{◌≤◌, ◌<◌, ◌≡◌, length, get_or};
ghost use Rattle.turn.specs.Turn.{after};
ghost use Rattle.sheet.specs.Fields.{Whole, read_field};
ghost use Rattle.view.specs.Stage.{turned, turn_scene, reading, open_scene, call_scene, at_end, field_scene, next_scene};

use crate::{Acted, Cursor, Scene, Stage};
use engine::{Plan, Seat, tally};
use sheet::{Call, Field, LIMIT, reading};
use turn::refusal::Refusal;
use turn::{Report, Worker, record, sleep};

impl Stage {
    // ---- a turn

    // A turn that was done.
    fn turned(&mut self, worker: u8, w: Worker, v: Worker, report: Report)
        requires { self.old.cursor.turn < self.old.cursor.end }
        ensures { self.new ≡ turned self.old worker w v report }
    {
        let cursor = self.cursor;
        self.cursor = Cursor {
            turn: cursor.turn + 1,
            ..cursor
        };
        let change = self.change_of(report.bucket);
        self.totals = tally::add(self.totals, w.place, report);
        self.sleep();
        self.put_back(worker, v);
        let changed = tally::changes(w.place, report.action);
        self.note(report.bucket, changed, self.totals.turns, worker);
        self.scene = Scene::Turned(Acted {
            before: w,
            after: v,
            report,
            change,
            worker,
        });
    }

    // §8.4: a turn of a worker is the engine's.
    #[tactic(auto, unfolding(crate::specs::Stage::turn_scene))]
    fn turn(&mut self, board: &mut [u64], worker: u8)
        requires { self.old.cursor.turn < self.old.cursor.end }
        ensures { after board.new self.new ≡ turn_scene worker (after board.old self.old) }
    {
        let w = self.record_of(worker);
        let seat = Seat {
            floor: self.floor,
            listed: self.floor.workers,
            worker: usize::from(worker),
        };
        match engine::try_turn(board, seat, w) {
            Ok(done) => self.turned(worker, w, done.worker, done.report),
            Err(why) => {
                let turn = sleep::more(self.totals.turns, 1);
                self.stopped(why, self.cursor.at, turn, worker);
            }
        }
    }

    // ---- a field

    // The stage in the field that was just read, whatever it comes to.
    fn reading(&mut self, turn: usize, next: usize)
        requires { self.old.cursor.field ≤ 16384 }
        ensures { self.new ≡ reading self.old.cursor turn next self.old }
    {
        self.cursor = Cursor {
            field: self.cursor.field + 1,
            at: self.cursor.end,
            turn,
            end: next,
            over: false,
        };
        self.scene = Scene::Nothing;
    }

    // §8.2: a floor is the engine's opening.
    #[tactic(auto, unfolding(crate::specs::Stage::open_scene))]
    fn open(&mut self, board: &mut [u64], plan: Plan)
        ensures { after board.new self.new ≡ open_scene plan (after board.old self.old) }
    {
        match engine::open_floor(board, self.floor, plan.workers, plan) {
            Ok(floor) => {
                self.records = [record::idle(); 64];
                self.floor = floor;
                self.scene = Scene::Opened(plan);
            }
            Err(why) => self.stopped(why, self.cursor.at, 0, 0),
        }
    }

    // §8.3: a call is the engine's start of its kind.
    #[tactic(auto, unfolding(crate::specs::Stage::call_scene))]
    fn call(&mut self, board: &[u64], call: Call)
        ensures { after board.now self.new ≡ call_scene call (after board.now self.old) }
    {
        match sheet::start(board, self.floor, self.record_of(call.worker), call) {
            Ok(begun) => {
                self.put_back(call.worker, begun.worker);
                self.floor = begun.floor;
                self.scene = Scene::Began(call);
            }
            Err(why) => self.stopped(why, self.cursor.at, 0, call.worker),
        }
    }

    // §8.5: a field that was read whole.
    fn whole(&mut self, sheet: &[u8], board: &mut [u64], field: Field, next: usize)
        requires { (self.old.cursor.field ≤ 16384) × (read_field sheet.now self.old.cursor.end ≡ Whole field next) }
        ensures { after board.new self.new ≡ field_scene sheet.now (after board.old self.old) (Whole field next) }
    {
        match field {
            Field::Opening(plan) => {
                self.reading(next, next);
                self.open(board, plan);
            }
            Field::Calling(call) => {
                self.reading(next, next);
                self.call(board, call);
            }
            Field::Turning(span) => {
                self.reading(span.start, next);
                self.turn(board, byte_at(sheet, span.start));
            }
        }
    }

    // §8.5: the field where the one before it ends.
    #[tactic(auto, using(sheet::proofs::Fielding::found_here, sheet::proofs::Fielding::none_here))]
    fn field(&mut self, sheet: &[u8], board: &mut [u64])
        requires { self.old.cursor.field ≤ 16384 }
        ensures { after board.new self.new ≡
            field_scene sheet.now (after board.old self.old) (read_field sheet.now self.old.cursor.end) }
    {
        let at = self.cursor.end;
        match reading::read(sheet, at) {
            Some(found) => self.whole(sheet, board, found.field, found.next),
            None => {
                self.reading(at, at);
                self.stopped(Refusal::Malformed, at, 0, 0);
            }
        }
    }

    // The next scene: a turn of the field if one is left; the end of the sheet; or the next field.
    #[tactic(auto, unfolding(crate::specs::Stage::next_scene))]
    pub(crate) fn next(&mut self, sheet: &[u8], board: &mut [u64])
        requires { self.old.cursor.field ≤ length sheet.now }
        ensures { after board.new self.new ≡ next_scene sheet.now (after board.old self.old) }
    {
        let cursor = self.cursor;
        if sheet.len() > LIMIT {
            self.stopped(Refusal::TooLong, 0, 0, 0);
        } else if cursor.turn < cursor.end {
            self.turn(board, byte_at(sheet, cursor.turn));
        } else if cursor.is_at_end(sheet.len()) {
            self.ended(board);
        } else {
            self.field(sheet, board);
        }
    }
}

impl Cursor {
    // The end of the sheet, which is not before its first field.
    fn is_at_end(self, length: usize) -> bool
        ensures { result ≡ at_end self length }
    {
        self.end == length && self.field != 0
    }
}

// The byte at a place, and 0 past the end.
fn byte_at(sheet: &[u8], at: usize) -> u8
    ensures { result ≡ get_or sheet.now at 0 }
{
    sheet.get(at).copied().unwrap_or(0)
}
