// The scheduler as calls: its state in a lent list of numbers, its answers as numbers.
#![tactic(auto)]

ghost use Rattle.std.specs.Prelude.{◌≡◌, length};
ghost use Rattle.scheduler.specs.Scheduler.{after_submit, new_scheduler, submit_answer};
ghost use Rattle.scheduler.specs.declared.Job.TheVariants.{Cut, Remove};
ghost use Rattle.scheduler_state.specs.State.{scheduler_in};
ghost use Rattle.scheduler_turn.specs.Turn.{after_turn, turn_answer, turn_out};
ghost use Rattle.scheduler_calls.specs.SchedulerCalls.{after_turn_call, place_of, SubmitKept, submit_values, turn_call, turn_call_out, TurnKept, turn_values, with_answer, without_answer};

use answers::Answer;
use pattern::LONGEST;
use scheduler::{Job, Scheduler};
use scheduler_state::{Numbers, put_scheduler, scheduler_in};
use scheduler_turn::serve;

// An answer of the scheduler. `outcome` is 0 done, 2 refused, with the refusal's number. `state` is 1 where an
// answer is held or a slot was served: `answer` is then the edit's, and `slot` the slot that was served.
#[repr(C)]
#[derive(Clone, Copy)]
pub struct SchedulerAnswer {
    pub outcome: usize,
    pub number: usize,
    pub state: usize,
    pub slot: usize,
    pub answer: Answer,
}

fn without_answer(outcome: usize, number: usize) -> SchedulerAnswer
    ensures { result ≡ without_answer outcome number }
{
    let answer = Answer {
        outcome: 0,
        number: 0,
        first: 0,
        second: 0,
        third: 0,
        fourth: 0,
    };
    SchedulerAnswer {
        outcome,
        number,
        state: 0,
        slot: 0,
        answer: answer,
    }
}

fn with_answer(slot: usize, answer: Answer) -> SchedulerAnswer
    ensures { result ≡ with_answer slot answer }
{
    SchedulerAnswer {
        outcome: 0,
        number: 0,
        state: 1,
        slot,
        answer: answer,
    }
}

// Where the bits of a parameter put a point: those of one NaN nowhere.
fn place_of(bits: u64) -> Option<u64>
    ensures { result ≡ place_of bits }
{
    if bits == 0x7ff8000000000000 {
        return None;
    }
    Some(bits)
}

// Puts a new scheduler into the list. Any content of the list is taken, here and below.
pub fn start_scheduler(numbers: &mut Numbers)
    ensures { scheduler_in numbers.new ≡ new_scheduler }
{
    put_scheduler(Scheduler::new(), numbers);
}

fn submit(numbers: &mut Numbers, slot: usize, key: u32, job: Job) -> SchedulerAnswer
    ensures { (result ≡ submit_values (submit_answer (scheduler_in numbers.old) slot key job)) × (scheduler_in numbers.new ≡ after_submit (scheduler_in numbers.old) slot key job) × SubmitKept (submit_answer (scheduler_in numbers.old) slot key job) numbers.old numbers.new }
{
    let done = scheduler_in(numbers).submit(slot, key, job);
    match done.answer {
        Ok(None) => {
            put_scheduler(done.scheduler, numbers);
            without_answer(0, 0)
        }
        Ok(Some(x)) => with_answer(0, x),
        Err(e) => without_answer(2, e.number()),
    }
}

// Submits a cut at a slot under a key.
pub fn submit_cut(
    numbers: &mut Numbers,
    slot: usize,
    key: u32,
    shell: usize,
    edge: usize,
    point: usize,
    bits: u64,
) -> SchedulerAnswer
    ensures { (result ≡ submit_values (submit_answer (scheduler_in numbers.old) slot key (Cut shell edge point (place_of bits)))) × (scheduler_in numbers.new ≡ after_submit (scheduler_in numbers.old) slot key (Cut shell edge point (place_of bits))) × SubmitKept (submit_answer (scheduler_in numbers.old) slot key (Cut shell edge point (place_of bits))) numbers.old numbers.new }
{
    submit(
        numbers,
        slot,
        key,
        Job::Cut(shell, edge, point, place_of(bits)),
    )
}

// Submits the removal of a point at a slot under a key.
pub fn submit_remove(
    numbers: &mut Numbers,
    slot: usize,
    key: u32,
    shell: usize,
    point: usize,
) -> SchedulerAnswer
    ensures { (result ≡ submit_values (submit_answer (scheduler_in numbers.old) slot key (Remove shell point))) × (scheduler_in numbers.new ≡ after_submit (scheduler_in numbers.old) slot key (Remove shell point)) × SubmitKept (submit_answer (scheduler_in numbers.old) slot key (Remove shell point)) numbers.old numbers.new }
{
    submit(numbers, slot, key, Job::Remove(shell, point))
}

fn serve_next(numbers: &mut Numbers, file: &[u8], out: &mut [u8]) -> SchedulerAnswer
    requires { length out.old ≡ 41048 }
    ensures value { (result ≡ turn_values (turn_answer (scheduler_in numbers.old) file.now)) × (scheduler_in numbers.new ≡ after_turn (scheduler_in numbers.old) file.now) × TurnKept (turn_answer (scheduler_in numbers.old) file.now) numbers.old numbers.new }
    ensures out_after { out.new ≡ turn_out (scheduler_in numbers.old) file.now out.old }
{
    let done = serve(scheduler_in(numbers), file, out);
    match done.answer {
        None => without_answer(0, 0),
        Some((d, _, x)) => {
            put_scheduler(done.scheduler, numbers);
            with_answer(d, x)
        }
    }
}

// Serves the next slot at which a job waits, on a file; the edited one goes to `out`, which must have room for
// the longest file.
pub fn turn_file(numbers: &mut Numbers, file: &[u8], out: &mut [u8]) -> SchedulerAnswer
    ensures value { (result ≡ turn_call (scheduler_in numbers.old) file.now (length out.old)) × (scheduler_in numbers.new ≡ after_turn_call (scheduler_in numbers.old) file.now (length out.old)) }
    ensures out_after { (out.new ≡ turn_call_out (scheduler_in numbers.old) file.now out.old) × (result.state ≡ 0 → numbers.new ≡ numbers.old) }
{
    if out.len() < LONGEST {
        return without_answer(2, 17);
    }
    serve_next(numbers, file, &mut out[0..LONGEST])
}
