// Standard input line by line: a line is handed out as soon as it is whole, and nothing is read while one is.
// No contract says what a read gives.
#![tactic(auto)]

ghost use Rattle.std.specs.Prelude.{◌-◌, ◌≤◌, ◌≡◌, IfSome, drop, length, take};
ghost use Rattle.line_input.specs.Places.{Inside};

use console::fail;
use std::io::Read;
use text::line_end;

// How many bytes the buffer takes: the longest line that is looked at, and its line feed.
const ROOM: usize = 65537;

// What the next bytes belong to: the line at hand; one that was handed out already; nothing, since no more are to be
// read.
#[derive(Clone, Copy, PartialEq, Eq)]
enum More {
    Line,
    Passing,
    Ended,
}

// What is left of the input: from where to where it is in the buffer, and what comes after it.
#[derive(Clone, Copy)]
pub struct Input {
    buffer: [u8; ROOM],
    from: usize,
    to: usize,
    more: More,
    ghost held: { (from ≤ to) × (to ≤ 65537) },
}

impl Input {
    pub fn new() -> Input {
        Input {
            buffer: [0u8; ROOM],
            from: 0,
            to: 0,
            more: More::Line,
        }
    }

    // The next line of standard input, without its line feed; none where the input has ended. Of a line of more than
    // 65,536 bytes the first 65,537 are handed out, once; at the end of the input a rest that is not empty is a line.
    // Where a read fails, says why on standard error, after `name`, and the input has ended.
    pub fn next_line(&mut self, rt: &HostRuntime, name: &[u8]) -> Option<&[u8]>
        ensures { IfSome result (λ line. length line.now ≤ 65537) }
    {
        let (from, end) = self.find(rt, name)?;
        Some(self.line_of(from, end))
    }

    // The bytes of the buffer from one place to another: those of a line that is handed out.
    pub fn line_of(&self, from: usize, end: usize) -> &[u8]
        requires { (from ≤ end) × (end ≤ 65537) }
        ensures { result.now ≡ take (end - from) (drop from self.now.buffer) }
    {
        &self.buffer[from..end]
    }

    // Reads until a line can be handed out, and answers from where to where it is in the buffer.
    fn find(&mut self, rt: &HostRuntime, name: &[u8]) -> Option<(usize, usize)>
        ensures { Inside 65537 result }
    {
        for _ in 0..u64::MAX {
            let end = line_end(&self.buffer[..self.to], self.from);
            if end < self.to || self.more == More::Ended || self.to - self.from == ROOM {
                return self.hand_out(end);
            }
            self.refill(rt, name);
        }
        None
    }

    // Hands out the line that ends at `end`, at its line feed or where the buffer ends. What is read after a line without
    // line feed belongs to it.
    fn hand_out(&mut self, end: usize) -> Option<(usize, usize)>
        requires { (self.old.from ≤ end) × (end ≤ self.old.to) }
        ensures { Inside 65537 result }
    {
        let from = self.from;
        if end < self.to {
            self.from = end + 1;
            return Some((from, end));
        }
        if from == end {
            return None;
        }
        self.from = end;
        if self.more == More::Line {
            self.more = More::Passing;
        }
        Some((from, end))
    }

    // Moves what is left to the start, and reads once.
    fn refill(&mut self, rt: &HostRuntime, name: &[u8]) {
        let n = self.to - self.from;
        self.buffer.copy_within(self.from..self.to, 0);
        self.from = 0;
        self.to = n;
        match rt.stdin().read(&mut self.buffer[n..]) {
            Ok(0) => self.more = More::Ended,
            Ok(more) => {
                self.to = n + more;
                if self.more == More::Passing {
                    self.pass();
                }
            }
            Err(e) => {
                fail(rt, name, e);
                self.to = 0;
                self.more = More::Ended;
            }
        }
    }

    // Passes over the rest of a line that was handed out already.
    fn pass(&mut self) {
        let end = line_end(&self.buffer[..self.to], 0);
        if end < self.to {
            self.from = end + 1;
            self.more = More::Line;
        } else {
            self.from = self.to;
        }
    }
}
