// A scheduler in a lent list of numbers.
#![tactic(auto)]

ghost use Rattle.std.specs.Prelude.{◌≡◌, ◌%◌, ◌+◌, ◌≤◌, drop, take};
ghost use Rattle.scheduler_state.specs.State.{SixPut, SlotPut, answer_in, held_of, scheduler_in, slot_in, slots_in, waiting_in};

use answers::Answer;
use scheduler::{Job, SLOTS, Scheduler, Slot};

// The numbers of a scheduler.
pub const NUMBERS: usize = 145;

pub type Numbers = [u64; NUMBERS];

// ---- reading

// Six numbers from `at` on.
fn six_in(numbers: Numbers, at: usize) -> [u64; 6]
    requires { at + 6 ≤ 145 }
    ensures { result ≡ take 6 (drop at numbers) }
{
    let mut six = [0; 6];
    six.copy_from_slice(&numbers[at..at + 6]);
    six
}

fn waiting_in(six: [u64; 6]) -> Option<(u32, Job)>
    ensures { result ≡ waiting_in six }
{
    let key = (six[1] % 4294967296) as u32;
    let n = six[2] as usize;
    let e = six[3] as usize;
    let v = six[4] as usize;
    match six[0] {
        1 => Some((key, Job::Cut(n, e, v, Some(six[5])))),
        2 => Some((key, Job::Cut(n, e, v, None))),
        3 => Some((key, Job::Remove(n, v))),
        _ => None,
    }
}

fn answer_in(six: [u64; 6]) -> Answer
    ensures { result ≡ answer_in six }
{
    Answer {
        outcome: six[0] as usize,
        number: six[1] as usize,
        first: six[2] as usize,
        second: six[3] as usize,
        third: six[4] as usize,
        fourth: six[5] as usize,
    }
}

fn held_of(w: Option<(u32, Job)>, a: Answer) -> Option<(u32, Job, Answer)>
    ensures { result ≡ held_of w a }
{
    let (k, j) = w?;
    Some((k, j, a))
}

fn slot_in(numbers: Numbers, at: usize) -> Slot
    requires { at + 18 ≤ 145 }
    ensures { result ≡ slot_in (drop at numbers) }
{
    let waiting = waiting_in(six_in(numbers, at));
    let job = waiting_in(six_in(numbers, at + 6));
    let answer = answer_in(six_in(numbers, at + 12));
    Slot {
        waiting: waiting,
        held: held_of(job, answer),
    }
}

// The scheduler that the numbers hold; any numbers hold one.
pub fn scheduler_in(numbers: &Numbers) -> Scheduler
    ensures { result ≡ scheduler_in numbers.now }
{
    let all = *numbers;
    let mut slots = [slot_in(all, 1); SLOTS];
    for k in (0..SLOTS).rev() {
        slots[k] = slot_in(all, 1 + 18 * k);
    }
    Scheduler {
        slots,
        last: all[0] as usize,
    }
}

// ---- writing

fn waiting_numbers(w: Option<(u32, Job)>) -> [u64; 6]
    ensures { waiting_in result ≡ w }
{
    match w {
        None => [0; 6],
        Some((k, Job::Cut(n, e, v, Some(bits)))) => {
            [1, u64::from(k), n as u64, e as u64, v as u64, bits]
        }
        Some((k, Job::Cut(n, e, v, None))) => [2, u64::from(k), n as u64, e as u64, v as u64, 0],
        Some((k, Job::Remove(n, v))) => [3, u64::from(k), n as u64, 0, v as u64, 0],
    }
}

fn answer_numbers(a: Answer) -> [u64; 6]
    ensures { answer_in result ≡ a }
{
    [
        a.outcome as u64,
        a.number as u64,
        a.first as u64,
        a.second as u64,
        a.third as u64,
        a.fourth as u64,
    ]
}

// What is held at a slot, as the job with its key and the answer.
fn parts_of(h: Option<(u32, Job, Answer)>) -> (Option<(u32, Job)>, Answer)
    ensures { held_of result.0 result.1 ≡ h }
{
    match h {
        None => (
            None,
            Answer {
                outcome: 0,
                number: 0,
                first: 0,
                second: 0,
                third: 0,
                fourth: 0,
            },
        ),
        Some((k, j, a)) => (Some((k, j)), a),
    }
}

fn put_six(six: [u64; 6], mut numbers: Numbers, at: usize) -> Numbers
    requires { at + 6 ≤ 145 }
    ensures { SixPut six at numbers result }
{
    numbers[at..at + 6].copy_from_slice(&six);
    numbers
}

fn put_slot(slot: Slot, numbers: Numbers, at: usize) -> Numbers
    requires { at + 18 ≤ 145 }
    ensures { SlotPut slot at numbers result }
{
    let (job, answer) = parts_of(slot.held);
    let third = put_six(answer_numbers(answer), numbers, at + 12);
    let second = put_six(waiting_numbers(job), third, at + 6);
    put_six(waiting_numbers(slot.waiting), second, at)
}

fn put_slots(slots: [Slot; SLOTS], mut numbers: Numbers) -> Numbers
    ensures { slots_in 8 (drop 1 result) ≡ slots }
{
    for k in (0..SLOTS).rev() {
        let next = put_slot(slots[k], numbers, 1 + 18 * k);
        numbers = next;
    }
    numbers
}

// Puts a scheduler into the list.
pub fn put_scheduler(c: Scheduler, numbers: &mut Numbers)
    ensures { scheduler_in numbers.new ≡ c }
{
    let slots = c.slots;
    let mut all = put_slots(slots, *numbers);
    all[0] = c.last as u64;
    *numbers = all;
}
