// Answers as numbers, for callers outside the library: how a call ended, the number of the
// refusal, and the values (docs/FORMAT.md 6.2).
#![tactic(auto)]

ghost use Rattle.std.specs.Prelude.{◌≡◌, ℕ, List, [], ◌∷◌, Ok};
ghost use Rattle.answers.specs.OnFile.{OnFile};
ghost use Rattle.answers.specs.Values.{answer, check_values, done, refused as refusedAnswer, unread as unreadAnswer, with_file};
ghost use Rattle.calls.specs.Calls.{figure_of};
ghost use Rattle.edit_answers.specs.Answers.{edit_reply, face_edit_reply};
ghost use Rattle.errors.specs.Numbers.{Reply, call_reply, done as doneReply, not_there_reply};
ghost use Rattle.answers.specs.Read.{edited_bytes};
ghost use Rattle.pattern.specs.Checks.{pattern_faults};
ghost use Rattle.store.specs.Store.{held};
ghost use Rattle.solid.specs.Solid.{solid_error_reply};
ghost use Rattle.store_write.specs.Writing.{no_space_reply, written, written_reply};

use calls::ShellFigure;
use edge::EdgeID;
use edit_answers::{EditError, FaceEditError};
use errors::{CallError, NotThere, Refusal};
use solid::SolidError;
use store::{SPANS, Spans, TABLES, Tables};
use store_read::load;
use store_write::{NoSpace, put_file};
use vertex::VertexID;

// An answer. `outcome` is 0 done, 1 refused by the reading checks, 2 refused by the call. `fourth` is
// 0: room for one number more.
#[repr(C)]
#[derive(Clone, Copy)]
pub struct Answer {
    pub outcome: usize,
    pub number: usize,
    pub first: usize,
    pub second: usize,
    pub third: usize,
    pub fourth: usize,
}

// Done, with these values.
pub fn done_with(first: usize, second: usize, third: usize) -> Answer
    ensures { result ≡ done first second third }
{
    Answer {
        outcome: 0,
        number: 0,
        first,
        second,
        third,
        fourth: 0,
    }
}

// Refused by the reading checks, with body and record.
pub fn unread(f: Refusal) -> Answer
    ensures { result ≡ unreadAnswer f }
{
    Answer {
        outcome: 1,
        number: f.number(),
        first: f.body(),
        second: f.record(),
        third: 0,
        fourth: 0,
    }
}

// Refused by the call: a number; for a solid with the shell, for a lent slice that is too short with
// the length that the file needs.
pub fn refused(number: usize, first: usize) -> Answer
    ensures { result ≡ refusedAnswer number first }
{
    Answer {
        outcome: 2,
        number,
        first,
        second: 0,
        third: 0,
        fourth: 0,
    }
}

// The answer of the reading checks.
pub fn check_values(a: Result<(), Refusal>) -> Answer
    ensures { result ≡ check_values a }
{
    match a {
        Ok(()) => done_with(0, 0, 0),
        Err(f) => unread(f),
    }
}

// What a call that is done gives, in numbers.
pub trait Values {
    ghost values: { Self → List ℕ };

    fn done(self) -> Answer
        ensures { result ≡ answer (doneReply (values self)) };
}

// Why a call is refused by itself, in numbers.
pub trait Reason {
    ghost reply: { Self → Reply };

    fn refused(self) -> Answer
        ensures { result ≡ answer (reply self) };
}

// The answer of a call.
pub fn call_values<T: Values, E: Reason>(a: Result<T, CallError<E>>) -> Answer
    ensures { result ≡ answer (call_reply T.values E.reply a) }
{
    match a {
        Ok(x) => x.done(),
        Err(CallError::Unread(f)) => unread(f),
        Err(CallError::Refused(e)) => e.refused(),
    }
}

// The answer of an edit whose file is written: what it gives as two numbers, then the length of the file.
pub fn edit_values<T: Values, E: Reason>(
    a: Result<T, CallError<E>>,
    file: Result<usize, CallError<NoSpace>>,
) -> Answer
    ensures { result ≡ answer (with_file (call_reply T.values E.reply a) (written_reply file)) }
{
    let edit = call_values(a);
    let written = call_values(file);
    if edit.outcome != 0 {
        return edit;
    }
    if written.outcome != 0 {
        return written;
    }
    done_with(edit.first, edit.second, written.first)
}

// What an edit of a shell answers; if it was done, the pattern's file is written. Each such edit loads its file itself:
// by `on_file` its closure would have to promise that it leaves no fault, and the contract would say more than the three lines.
pub fn put_edited<T: Values>(
    edit: Result<T, CallError<EditError>>,
    t: &Tables,
    spans: &Spans,
    out: &mut [u8],
) -> Answer
    requires { (x : T) → edit ≡ Ok x → pattern_faults (held t.now spans.now) ≡ [] }
    ensures value { result ≡ answer (with_file (call_reply T.values edit_reply edit) (written_reply (written (held t.now spans.now) out.old))) }
    ensures out_after { out.new ≡ edited_bytes edit (held t.now spans.now) out.old }
{
    match edit {
        Err(_) => call_values(edit),
        Ok(_) => edit_values(edit, put_file(t, spans, out)),
    }
}

// The answer of a call on the pattern of a file, in a store of its own: length and contents table are judged first, the
// rest by the call. It is lent, and not taken, since what a closure that is taken wrote to a lent list is not known after.
pub fn on_file<T: Values, E: Reason, F: FnMut(&mut Tables, &mut Spans) -> Result<T, CallError<E>>>(
    file: &[u8],
    call: &mut F,
) -> Answer
    requires { F.IsAlwaysCallable call.old }
    ensures { OnFile F.FnMut (λ r. answer (call_reply T.values E.reply r)) call.old file.now result call.new }
{
    let mut t = [0; TABLES];
    let mut spans = [0.0; SPANS];
    match load(file, &mut t, &mut spans) {
        Err(f) => unread(f),
        Ok(()) => call_values(call(&mut t, &mut spans)),
    }
}

impl Values for () {
    ghost values = { λ x. [] };

    fn done(self) -> Answer {
        done_with(0, 0, 0)
    }
}

impl Values for usize {
    ghost values = { λ n. n ∷ [] };

    fn done(self) -> Answer {
        done_with(self, 0, 0)
    }
}

impl Values for (usize, usize) {
    ghost values = { λ p. p.0 ∷ p.1 ∷ [] };

    fn done(self) -> Answer {
        done_with(self.0, self.1, 0)
    }
}

impl Values for EdgeID {
    ghost values = { λ a. a.0 ∷ [] };

    fn done(self) -> Answer {
        done_with(usize::from(self.0), 0, 0)
    }
}

impl Values for (EdgeID, EdgeID) {
    ghost values = { λ p. p.0.0 ∷ p.1.0 ∷ [] };

    fn done(self) -> Answer {
        let (a, b) = self;
        done_with(usize::from(a.0), usize::from(b.0), 0)
    }
}

impl Values for VertexID {
    ghost values = { λ v. v.0 ∷ [] };

    fn done(self) -> Answer {
        done_with(usize::from(self.0), 0, 0)
    }
}

impl Values for ShellFigure {
    ghost values = { figure_of };

    fn done(self) -> Answer {
        match self {
            ShellFigure::Condition(w) => done_with(w.0 as usize, 0, 0),
            ShellFigure::Openings(k, m, l) => done_with(k, m, l),
            ShellFigure::Connected(b) => done_with(b as usize, 0, 0),
            ShellFigure::Components(k, m) => done_with(k, m, 0),
            ShellFigure::Singular(k) => done_with(k, 0, 0),
        }
    }
}

impl Reason for NotThere {
    ghost reply = { not_there_reply };

    fn refused(self) -> Answer {
        refused(3, 0)
    }
}

// With the length that the file needs.
impl Reason for NoSpace {
    ghost reply = { no_space_reply };

    fn refused(self) -> Answer {
        refused(17, self.needed)
    }
}

// The shell's own reason, and the shell.
impl Reason for SolidError {
    ghost reply = { solid_error_reply };

    fn refused(self) -> Answer {
        refused(self.reason.number(), self.shell)
    }
}

impl Reason for EditError {
    ghost reply = { edit_reply };

    fn refused(self) -> Answer {
        refused(self.number(), 0)
    }
}

impl Reason for FaceEditError {
    ghost reply = { face_edit_reply };

    fn refused(self) -> Answer {
        refused(self.number(), 0)
    }
}
