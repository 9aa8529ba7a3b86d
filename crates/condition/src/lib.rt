// The condition of a shell, and the tally of its uses (shell.rs: ShellCondition, Boundaries).
#![tactic(auto)]

ghost use Rattle.std.specs.Prelude.{◌≡◌, ℕ, ◌%◌, ◌+◌, ◌-◌, ◌<◌, ◌≤◌, min, replicate};
ghost use Rattle.edge.specs.Uses.{edge_number};
ghost use Rattle.condition.specs.Tallies.{condition_in, digit, inserted, inserted_all, least, next_state, odds_in, use_condition, with_digit};
ghost use Rattle.edge.specs.Below.{EdgesBelow};

// The condition of a shell: a lower one is worse.
#[derive(Clone, Copy, PartialEq, Eq, PartialOrd, Ord)]
pub struct Condition(pub u8);

impl Condition {
    pub const IRREGULAR: Condition = Condition(0);

    pub const REGULAR: Condition = Condition(1);

    pub const ORIENTED: Condition = Condition(2);

    pub const CLOSED: Condition = Condition(3);

    // Joining two takes the lower.
    pub fn join(self, other: Condition) -> Condition
        ensures { result.0 ≡ min self.0 other.0 }
    {
        self.min(other)
    }
}

// Of each edge a state, four to a byte: 0 no use yet; 1 an odd number of uses, the last one along; 3
// an odd number, the last one reversed; 2 an even number, at least two. `worst` is 3 until an edge
// has two uses alike (1) or three uses (0).
#[derive(Clone, Copy)]
pub struct Tally {
    pub states: [u8; 256],
    pub worst: u8,
}

impl Tally {
    // No uses.
    pub fn new() -> Tally
        ensures { (result.states ≡ replicate 256 0) × (result.worst ≡ 3) }
    {
        Tally {
            states: [0u8; 256],
            worst: 3,
        }
    }

    // The tally after one use.
    pub fn insert(mut self, u: u16) -> Tally
        requires { edge_number u < 1024 }
        ensures { result ≡ inserted self u }
    {
        let e = (u % 1024) as usize; // the edge: its number is below 1024
        let way = 1 + 2 * (u / 32768) as u8;
        let b = self.states[e / 4];
        let s = state_in(b, e % 4);
        let worst = Condition(self.worst).join(use_condition(s, way));
        self.states[e / 4] = with_state(b, e % 4, next_state(s, way));
        self.worst = worst.0;
        self
    }
}

// The tally after four uses, in sequence. Compiled, the tally is moved once for the four: use by use it
// took more than twice as long.
fn insert_four(t: Tally, four: &[u16; 4]) -> Tally
    requires { EdgesBelow 1024 four.now }
    ensures { result ≡ inserted_all t four.now }
{
    t.insert(four[0])
        .insert(four[1])
        .insert(four[2])
        .insert(four[3])
}

// The tally after the uses of a part, in sequence.
pub fn tally_part(mut t: Tally, part: &[u16]) -> Tally
    requires { EdgesBelow 1024 part.now }
    ensures { result ≡ inserted_all t part.now }
{
    let (fours, rest) = part.as_chunks::<4>();
    for four in fours {
        t = insert_four(t, four);
    }
    for &u in rest {
        t = t.insert(u);
    }
    t
}

// The condition that the tally gives, where the first n edges are all that have uses.
pub fn condition_of(t: Tally, n: usize) -> Condition
    requires { n ≤ 1024 }
    ensures { result.0 ≡ condition_in t n }
{
    let mut closed = Condition::CLOSED;
    for &b in &t.states[..n / 4] {
        closed = closed.join(byte_condition(b));
    }
    for e in n / 4 * 4..n {
        closed = closed.join(state_condition(state_in(t.states[e / 4], e % 4)));
    }
    Condition(t.worst).join(closed)
}

// Which of the first n edges have an odd number of uses: 16 there, else 0.
pub fn odd_of(t: Tally, n: usize) -> [u8; 1024]
    requires { n ≤ 1024 }
    ensures { result ≡ odds_in t n }
{
    let mut out = [0u8; 1024];
    for e in 0..n {
        out[e] = 16 * (state_in(t.states[e / 4], e % 4) % 2);
    }
    out
}

// The state at place d of a byte.
fn state_in(b: u8, d: usize) -> u8
    requires { d < 4 }
    ensures { (result ≡ digit b d) × (result < 4) }
{
    (b >> (2 * d)) % 4
}

// The byte with the state s at place d.
fn with_state(b: u8, d: usize, s: u8) -> u8
    requires { (d < 4) × (s < 4) }
    ensures { result ≡ with_digit b d s }
{
    let k = 2 * d;
    b - (((b >> k) % 4) << k) + (s << k)
}

// The state after one use more, that way.
fn next_state(s: u8, way: u8) -> u8
    requires { way < 4 }
    ensures { (result ≡ next_state way s) × (result < 4) }
{
    if s % 2 == 0 { way } else { 2 }
}

// What one use more, that way, makes of the condition.
fn use_condition(s: u8, way: u8) -> Condition
    ensures { result.0 ≡ use_condition way s }
{
    if s == 2 {
        return Condition::IRREGULAR;
    }
    if s == way {
        return Condition::REGULAR;
    }
    Condition::CLOSED
}

// With an odd number of uses an edge leaves the shell Oriented.
fn state_condition(s: u8) -> Condition
    ensures { result.0 ≡ 3 - s % 2 }
{
    if s % 2 == 1 {
        Condition::ORIENTED
    } else {
        Condition::CLOSED
    }
}

// The same for the four edges of a byte.
fn byte_condition(b: u8) -> Condition
    ensures { result.0 ≡ least 4 (λ (d : ℕ). 3 - digit b d % 2) }
{
    let low = state_in(b, 0) % 2 + state_in(b, 1) % 2;
    let high = state_in(b, 2) % 2 + state_in(b, 3) % 2;
    if low + high != 0 {
        return Condition::ORIENTED;
    }
    Condition::CLOSED
}
