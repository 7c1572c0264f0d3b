// The desk that a sheet is played at, and what its fields do there.
ghost use Rattle.std.specs.Prelude.{◌≡◌, ◌-◌, ◌≤◌, length};
ghost use Rattle.turn.specs.Number.{result_number};
ghost use Rattle.turn.specs.Turn.{after};
ghost use Rattle.engine.specs.Calls.{started_as};
ghost use Rattle.sheet.specs.Play.{shut_floor, shut_desk, seat_at, record_of, asked_of, asked, open_field, call_field, turn_at_desk, turns_done, field_done};
ghost use Rattle.sheet.specs.Promises.{Comes, Does};
ghost use Rattle.sheet.specs.Room.{limit, Ready, FieldFits};

use crate::{Call, Desk, Field, Found, line};
use engine::{Asked, Begun, Bid, Floor, Plan, Seat, tally};
use pen::Pen;
use turn::refusal::Refusal;
use turn::{Progress, Worker, record, sleep};

// No floor is open.
fn shut_floor() -> Floor
    ensures { result ≡ shut_floor }
{
    Floor {
        workers: 0,
        buckets: 0,
        last: 0,
        version: 0,
        spare: 0,
    }
}

fn seat_of(floor: Floor, worker: u8) -> Seat
    ensures { result ≡ seat_at floor worker }
{
    Seat {
        floor,
        listed: floor.workers,
        worker: usize::from(worker),
    }
}

impl Call {
    // What it asks of the engine.
    fn asked(self) -> Asked
        ensures { result ≡ asked_of self }
    {
        match self.kind {
            record::LOOK => Asked::Look(self.lot),
            record::INSERT => Asked::Insert(Bid {
                lot: self.lot,
                ticket: self.ticket,
            }),
            _ => Asked::Remove(self.lot),
        }
    }
}

// §8.3: the start that a call asks for, given its worker's record.
pub fn start(board: &[u64], floor: Floor, w: Worker, call: Call) -> Result<Begun, Refusal>
    ensures { started_as floor w result ≡ asked board.now (seat_at floor call.worker) w call }
{
    engine::start(board, seat_of(floor, call.worker), w, call.asked())
}

impl Desk {
    // The desk before any field.
    pub(crate) fn shut() -> Desk
        ensures { result ≡ shut_desk }
    {
        Desk {
            floor: shut_floor(),
            records: [record::idle(); 64],
            totals: tally::nothing(),
        }
    }

    // A worker's record, and a blank for a number that has none.
    fn record_of(&self, worker: u8) -> Worker
        ensures { result ≡ record_of self.now worker }
    {
        self.records
            .get(usize::from(worker))
            .copied()
            .unwrap_or(engine::blank())
    }

    // §8.2: a floor is opened, and every record is idle.
    fn open(&mut self, board: &mut [u64], plan: Plan) -> Result<(), Refusal>
        ensures { Comes (open_field plan (after board.old self.old)) board.new self.new (result_number result) }
    {
        let records = [record::idle(); 64];
        self.floor = engine::open_floor(board, self.floor, plan.workers, plan)?;
        self.records = records;
        Ok(())
    }

    // §8.3: a call is started.
    fn call(&mut self, board: &[u64], call: Call) -> Result<(), Refusal>
        ensures { Comes (call_field call (after board.now self.old)) board.now self.new (result_number result) }
    {
        let begun = start(board, self.floor, self.record_of(call.worker), call)?;
        self.records[usize::from(call.worker)] = begun.worker;
        self.floor = begun.floor;
        Ok(())
    }

    // §8.4, §9.1: one turn of a worker. The floor's other workers sleep through it (§20.2), past whom nobody is busy.
    fn turn(&mut self, board: &mut [u64], worker: u8, pen: &mut Pen<'_>) -> Result<(), Refusal>
        requires { Ready (limit - 1) self.old }
        ensures { Does (turn_at_desk worker (after board.old self.old)) pen.old pen.new board.new self.new (result_number result) }
    {
        let w = self.record_of(worker);
        let done = engine::try_turn(board, seat_of(self.floor, worker), w)?;
        for sleeper in &mut self.records[..self.floor.workers] {
            *sleeper = sleep::slept(*sleeper);
        }
        self.records[usize::from(worker)] = done.worker;
        let totals = tally::add(self.totals, w.place, done.report);
        if let Progress::Ended(answer) = done.report.progress {
            line::ended(pen, totals.turns, worker, w.kind, answer);
        }
        self.totals = totals;
        Ok(())
    }

    // §8.4: turns, one after another, till one is refused.
    fn turns(&mut self, board: &mut [u64], turns: &[u8], pen: &mut Pen<'_>) -> Result<(), Refusal>
        requires { Ready (limit - length turns.now) self.old × (length turns.now ≤ limit) }
        ensures { Does (turns_done turns.now (after board.old self.old)) pen.old pen.new board.new self.new (result_number result) }
    {
        for &worker in turns {
            self.turn(board, worker, pen)?;
        }
        Ok(())
    }

    // §8.5: what a field does that was found at a place.
    pub(crate) fn field(
        &mut self,
        sheet: &[u8],
        board: &mut [u64],
        found: Found,
        pen: &mut Pen<'_>,
    ) -> Result<(), Refusal>
        requires { FieldFits sheet.now found self.old }
        ensures { Does (field_done sheet.now found.field (after board.old self.old)) pen.old pen.new board.new self.new (result_number result) }
    {
        match found.field {
            Field::Opening(plan) => self.open(board, plan),
            Field::Calling(call) => self.call(board, call),
            Field::Turning(span) => self.turns(board, &sheet[span.start..span.end], pen),
        }
    }
}
