// A turn of the scheduler: the next job that waits is done on a pattern file in memory.
#![tactic(auto)]

ghost use Rattle.std.specs.Prelude.{◌≡◌, length};
ghost use Rattle.scheduler_turn.specs.Turn.{after_turn, bits_of, job_answer, job_out, turn_answer, turn_out};

use answers::Answer;
use file_cut::file_cut;
use file_remove::file_remove;
use pattern::LONGEST;
use scheduler::{Job, Scheduler, Slot};
use words::saturated;

// After a turn, and its answer: the slot that was served, its job, and the answer of its edit; none where nobody waits.
#[derive(Clone, Copy)]
pub struct Turned {
    pub scheduler: Scheduler,
    pub answer: Option<(usize, Job, Answer)>,
}

// The bits that a cut takes; those of a NaN are nowhere.
fn bits_of(at: Option<u64>) -> u64
    ensures { result ≡ bits_of at }
{
    at.unwrap_or(0x7ff8000000000000)
}

// Does a job on a file; `out`, which has room for the longest file, takes the edited one.
fn do_job(job: Job, file: &[u8], out: &mut [u8]) -> Answer
    requires { length out.old ≡ 41048 }
    ensures { (result ≡ job_answer job file.now) × (out.new ≡ job_out job file.now out.old) }
{
    match job {
        Job::Cut(n, e, v, at) => file_cut(
            file,
            n,
            saturated(e as u64),
            saturated(v as u64),
            bits_of(at),
            out,
        ),
        Job::Remove(n, v) => file_remove(file, n, saturated(v as u64), out),
    }
}

// Serves the next slot at which a job waits, if any: its job is done and held with its answer.
pub fn serve(c: Scheduler, file: &[u8], out: &mut [u8]) -> Turned
    requires { length out.old ≡ 41048 }
    ensures { (result.answer ≡ turn_answer c file.now) × (result.scheduler ≡ after_turn c file.now) × (out.new ≡ turn_out c file.now out.old) }
{
    let Some((d, key, job)) = c.next() else {
        return Turned {
            scheduler: c,
            answer: None,
        };
    };
    let answer = do_job(job, file, out);
    let mut slots = c.slots;
    slots[d] = Slot {
        waiting: None,
        held: Some((key, job, answer)),
    };
    Turned {
        scheduler: Scheduler { slots, last: d },
        answer: Some((d, job, answer)),
    }
}

// The same, with room for the longest file by its type.
pub fn turn(c: Scheduler, file: &[u8], out: &mut [u8; LONGEST]) -> Turned
    ensures { (result.answer ≡ turn_answer c file.now) × (result.scheduler ≡ after_turn c file.now) × (out.new ≡ turn_out c file.now out.old) }
{
    serve(c, file, out)
}
