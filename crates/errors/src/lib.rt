// The refusals of the reading checks with their values (docs/FORMAT.md 2.2; the Rust's errors.rs).
#![tactic(auto)]

ghost use Rattle.std.specs.Prelude.{◌≡◌};
ghost use Rattle.errors.specs.Numbers.{wire_number, number, body, record_number};
ghost use Rattle.errors.specs.declared.CallError.TheVariants.{Unread};

// Why a wire is refused: numbers 6, 7 and 8.
#[derive(Clone, Copy)]
pub enum WireError {
    EmptyWire,
    NotClosedWire,
    NotSimpleWire,
}

// Why the reading checks refuse a pattern: numbers 1 to 8.
#[derive(Clone, Copy)]
pub enum Refusal {
    // 1: the body whose place in the file is wrong.
    Layout(usize),
    // 2: the body whose count is over its limit.
    Limit(usize),
    // 3: body and record of a number that names nothing, or of a sum.
    Unnamed(usize, usize),
    // 4: the edge.
    Span(usize),
    // 5: the edge.
    SameVertex(usize),
    // 6, 7, 8: the wire, and what is wrong with it.
    Wire(usize, WireError),
}

// Why a call is refused: the pattern, by the reading checks; or what is asked, by the call itself.
#[derive(Clone, Copy)]
pub enum CallError<E> {
    Unread(Refusal),
    Refused(E),
}

// The reading checks come first, and their `?` ends the call.
impl<E> From<Refusal> for CallError<E> {
    ghost from_gives = { λ f r. r ≡ Unread f };

    fn from(f: Refusal) -> CallError<E> {
        CallError::Unread(f)
    }
}

// 3: a number that names nothing.
#[derive(Clone, Copy)]
pub struct NotThere;

impl WireError {
    // Document 01's number.
    pub fn number(self) -> usize
        ensures { result ≡ wire_number self }
    {
        match self {
            WireError::EmptyWire => 6,
            WireError::NotClosedWire => 7,
            WireError::NotSimpleWire => 8,
        }
    }
}

impl Refusal {
    // Document 01's number.
    pub fn number(self) -> usize
        ensures { result ≡ number self }
    {
        match self {
            Refusal::Layout(_) => 1,
            Refusal::Limit(_) => 2,
            Refusal::Unnamed(_, _) => 3,
            Refusal::Span(_) => 4,
            Refusal::SameVertex(_) => 5,
            Refusal::Wire(_, e) => e.number(),
        }
    }

    // The body that the refusal names.
    pub fn body(self) -> usize
        ensures { result ≡ body self }
    {
        match self {
            Refusal::Layout(b) => b,
            Refusal::Limit(b) => b,
            Refusal::Unnamed(b, _) => b,
            Refusal::Span(_) => 1,
            Refusal::SameVertex(_) => 1,
            Refusal::Wire(_, _) => 3,
        }
    }

    // The record that the refusal names.
    pub fn record(self) -> usize
        ensures { result ≡ record_number self }
    {
        match self {
            Refusal::Layout(_) => 0,
            Refusal::Limit(_) => 0,
            Refusal::Unnamed(_, k) => k,
            Refusal::Span(k) => k,
            Refusal::SameVertex(k) => k,
            Refusal::Wire(k, _) => k,
        }
    }
}
