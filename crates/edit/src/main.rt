// Reads jobs on standard input, one on each line, applies them to the garment in the file that its last
// argument names, and answers each with a line as soon as it is done. The file is read before each job, and
// replaced whole before the answer. With --stop nothing is done after the first answer that is not done; with
// --try the file is read once, and the jobs are done in memory alone.
#![tactic(auto)]

ghost use Rattle.std.specs.Prelude.{◌≡◌, is_some};
ghost use Rattle.queue.specs.Queue.{chosen, ending_by};
ghost use Rattle.queue.specs.declared.Ending.TheVariants.{Done};

use line_input::Input;
use queue::{Asked, Choice, Ending};
use saving::{ending_of, is_changed, save};
use std::env::FillError;
use std::io;
use std::rt::Env;

// A queue of jobs on the file at `path`: whether it is to stop after an answer that is not done, whether it only tries,
// and whether it is stopped, each yes or no by itself; room for the file, one byte more than the longest takes; with --try
// how many bytes the file in memory has, if it was read.
#[derive(Drop)]
struct Queue<'a> {
    rt: &'a HostRuntime,
    path: &'a [u8],
    stop: bool,
    trial: bool,
    stopped: bool,
    file: [u8; 41049],
    known: Option<usize>,
}

// How a line ended, and the length of its job's text.
#[derive(Clone, Copy)]
struct Worked {
    ending: Ending,
    text: usize,
}

impl<'a> Queue<'a> {
    // The queue at its start: with --try the file is read.
    fn new(rt: &'a HostRuntime, path: &'a [u8], stop: bool, trial: bool) -> Queue<'a> {
        let mut queue = Queue {
            rt,
            path,
            stop,
            trial,
            stopped: false,
            file: [0u8; 41049],
            known: None,
        };
        if trial {
            queue.known = replace::read_file(rt, path, &mut queue.file).map(|read| read.count);
        }
        queue
    }

    // Reads the file, does the job of a line, and replaces the file. None where others have changed the file meanwhile.
    fn attempt(&mut self, line: &[u8], text: &mut [u8; 65536]) -> Option<Worked> {
        let Some(read) = replace::read_file(self.rt, self.path, &mut self.file) else {
            return Some(Worked {
                ending: Ending::Unread,
                text: 0,
            });
        };
        let done = queue::step(line, &mut self.file, read.count, text);
        let saved = save(self.rt, self.path, &self.file, done.edited, read);
        if is_changed(saved) {
            return None;
        }
        Some(Worked {
            ending: ending_of(saved),
            text: done.text,
        })
    }

    // The same, anew as often as others have changed the file meanwhile, a hundred times at most.
    fn persist(&mut self, line: &[u8], text: &mut [u8; 65536]) -> Worked {
        for _ in 0..100 {
            if let Some(work) = self.attempt(line, text) {
                return work;
            }
        }
        replace::say(self.rt, self.path, b"changed by others a hundred times");
        Worked {
            ending: Ending::Kept,
            text: 0,
        }
    }

    // Does the job of a line in memory, on the file that the first n bytes hold.
    fn rehearse(&mut self, line: &[u8], n: usize, text: &mut [u8; 65536]) -> Worked
        ensures { result.ending ≡ Done }
    {
        let done = queue::step(line, &mut self.file, n, text);
        self.known = Some(done.edited.unwrap_or(n));
        Worked {
            ending: Ending::Done,
            text: done.text,
        }
    }

    // Does with a line what is chosen, and ends it as that says.
    fn work(&mut self, line: &[u8], text: &mut [u8; 65536]) -> Worked
        ensures { result.ending ≡ ending_by (chosen self.old.stopped self.old.trial (is_some self.old.known)) result.ending }
    {
        let choice = queue::choose(self.stopped, self.trial, self.known.is_some());
        match (choice, self.known) {
            (Choice::Skip, _) => Worked {
                ending: Ending::Skipped,
                text: 0,
            },
            (Choice::Perform, _) => self.persist(line, text),
            (Choice::Rehearse, Some(n)) => self.rehearse(line, n, text),
            (Choice::Rehearse | Choice::Miss, _) => Worked {
                ending: Ending::Unread,
                text: 0,
            },
        }
    }

    // Does the job that a line asks for, and prints its answer.
    fn answer(&mut self, line: &[u8]) -> io::Result<()> {
        let mut text = [0u8; 65536];
        let done = self.work(line, &mut text);
        let mut said = [0u8; 65664];
        let end = queue::finish(self.stop, done.ending, &text, done.text, &mut said);
        self.stopped = end.stopped;
        self.rt.write_all(&said[..end.length])
    }
}

// Does all jobs of standard input, until nobody reads the answers.
fn serve(rt: &HostRuntime, path: &[u8], stop: bool, trial: bool) -> io::Result<()> {
    let mut queue = Queue::new(rt, path, stop, trial);
    let mut input = Input::new();
    for _ in 0..u64::MAX {
        let Some(line) = input.next_line(rt, b"edit: standard input") else {
            break;
        };
        queue.answer(line)?;
    }
    Ok(())
}

// Writes the usage.
fn say_usage(to: &impl Print) -> io::Result<()> {
    to.write_all(
        b"usage: edit [--stop] [--try] FILE\n--stop  does nothing more after the first answer that is not done\n--try   answers, and leaves the file as it is\n",
    )
}

// Why a word of the command line was not taken.
fn say_word(rt: &HostRuntime, why: FillError) {
    match why {
        FillError::TooLong => console::say(rt, b"edit", b"File name too long"),
        FillError::NotPresent => console::say(rt, b"edit", b"Invalid argument"),
    }
}

fn main(rt: HostRuntime) {
    let count = console::arg_count(&rt);
    let mut name = [0u8; 4096];
    let mut n: usize = 0;
    let mut asked = Asked::Options(false, false);
    for k in 1..count {
        match rt.arg(k, &mut name) {
            Ok(length) => n = length,
            Err(e) => {
                say_word(&rt, e);
                return;
            }
        }
        asked = queue::next(asked, queue::word_of(&name[..n]));
    }
    let path = &name[..n];
    let said = match asked {
        Asked::File(stop, trial) => {
            if replace::is_regular(&rt, path) {
                serve(&rt, path, stop, trial)
            } else {
                Ok(())
            }
        }
        Asked::Usage => say_usage(&rt),
        Asked::Options(_, _) | Asked::Misused => {
            let _ = say_usage(&rt.stderr());
            Ok(())
        }
    };
    if let Err(e) = said {
        console::fail(&rt, b"edit: standard output", e);
    }
}
