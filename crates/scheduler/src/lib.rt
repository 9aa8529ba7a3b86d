// Jobs of several clients, done in turn and each once: the clerk of document 02, whose desks are the slots here.
// At a slot one job may wait, and the last one that was served there is held with its answer.
#![tactic(auto)]

ghost use Rattle.std.specs.Prelude.{◌≡◌};
ghost use Rattle.scheduler.specs.Scheduler.{after_submit, due_answer, held_other, new_scheduler, next_job, queue_answer, slot_after, slot_answer, submit_answer, submit_number, waits_other};

use answers::Answer;

// The slots of a scheduler.
pub const SLOTS: usize = 8;

// A job, its numbers as they were given: a cut of an edge of a shell at a point, which was put on the curve at a
// parameter, given by the bits of its f64, or nowhere; the removal of a point of a shell.
#[derive(Clone, Copy, PartialEq, Eq)]
pub enum Job {
    Cut(usize, usize, usize, Option<u64>),
    Remove(usize, usize),
}

// A slot: the job that waits there, with its key; the one that was served last, with its key and its answer.
#[derive(Clone, Copy)]
pub struct Slot {
    pub waiting: Option<(u32, Job)>,
    pub held: Option<(u32, Job, Answer)>,
}

// The slots, and the one that was served last.
#[derive(Clone, Copy)]
pub struct Scheduler {
    pub slots: [Slot; SLOTS],
    pub last: usize,
}

#[derive(Clone, Copy)]
pub enum SubmitError {
    // 3: no such slot.
    Unnamed,
    // 33: the key is held or waits at the slot with a different job.
    KeyInUse,
    // 34: another job waits at the slot.
    Occupied,
}

// After a submission, and its answer: none where the job waits, the held one where it was served before; or the refusal.
#[derive(Clone, Copy)]
pub struct Submitted {
    pub scheduler: Scheduler,
    pub answer: Result<Option<Answer>, SubmitError>,
}

impl SubmitError {
    // Document 02's number.
    pub fn number(self) -> usize
        ensures { result ≡ submit_number self }
    {
        match self {
            SubmitError::Unnamed => 3,
            SubmitError::KeyInUse => 33,
            SubmitError::Occupied => 34,
        }
    }
}

// Whether the key waits with a different job.
fn waits_other(w: Option<(u32, Job)>, key: u32, job: Job) -> bool
    ensures { result ≡ waits_other w key job }
{
    match w {
        None => false,
        Some((k, j)) => k == key && j != job,
    }
}

// Whether the key is held with a different job.
fn held_other(h: Option<(u32, Job, Answer)>, key: u32, job: Job) -> bool
    ensures { result ≡ held_other h key job }
{
    match h {
        None => false,
        Some((k, j, _)) => k == key && j != job,
    }
}

// The answer where no held one is due.
fn queue_answer(w: Option<(u32, Job)>, key: u32, job: Job) -> Result<Option<Answer>, SubmitError>
    ensures { result ≡ queue_answer w key job }
{
    match w {
        Some((k, j)) if k != key || j != job => Err(SubmitError::Occupied),
        _ => Ok(None),
    }
}

// The held answer, or where it is not due the one that is given.
fn due_answer(
    h: Option<(u32, Job, Answer)>,
    key: u32,
    job: Job,
    other: Result<Option<Answer>, SubmitError>,
) -> Result<Option<Answer>, SubmitError>
    ensures { result ≡ due_answer h key job other }
{
    match h {
        Some((k, j, a)) if k == key && j == job => Ok(Some(a)),
        _ => other,
    }
}

// The answer to a submission at a slot.
fn slot_answer(slot: Slot, key: u32, job: Job) -> Result<Option<Answer>, SubmitError>
    ensures { result ≡ slot_answer slot key job }
{
    if held_other(slot.held, key, job) || waits_other(slot.waiting, key, job) {
        return Err(SubmitError::KeyInUse);
    }
    due_answer(slot.held, key, job, queue_answer(slot.waiting, key, job))
}

// The slot after a submission with this answer.
fn slot_after(answer: Result<Option<Answer>, SubmitError>, slot: Slot, key: u32, job: Job) -> Slot
    ensures { result ≡ slot_after answer slot key job }
{
    match answer {
        Ok(None) => Slot {
            waiting: Some((key, job)),
            ..slot
        },
        Ok(Some(_)) | Err(_) => slot,
    }
}

impl Scheduler {
    // Nothing is held, nobody waits, and the round begins with slot 0.
    pub fn new() -> Scheduler
        ensures { result ≡ new_scheduler }
    {
        let slot = Slot {
            waiting: None,
            held: None,
        };
        Scheduler {
            slots: [slot; SLOTS],
            last: SLOTS - 1,
        }
    }

    // Submits a job at slot d under a key.
    pub fn submit(self, d: usize, key: u32, job: Job) -> Submitted
        ensures { (result.answer ≡ submit_answer self d key job) × (result.scheduler ≡ after_submit self d key job) }
    {
        if d >= SLOTS {
            return Submitted {
                scheduler: self,
                answer: Err(SubmitError::Unnamed),
            };
        }
        let slot = self.slots[d];
        let answer = slot_answer(slot, key, job);
        let mut slots = self.slots;
        slots[d] = slot_after(answer, slot, key, job);
        Submitted {
            scheduler: Scheduler {
                slots: slots,
                last: self.last,
            },
            answer: answer,
        }
    }

    // The next slot after the one that was served last, going round, at which a job waits, with the job and its key.
    pub fn next(self) -> Option<(usize, u32, Job)>
        ensures { result ≡ next_job self }
    {
        let mut d = self.last;
        for _ in 0..SLOTS {
            d = (d % SLOTS + 1) % SLOTS;
            if let Some((k, j)) = self.slots[d].waiting {
                return Some((d, k, j));
            }
        }
        None
    }
}
