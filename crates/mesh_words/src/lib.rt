// The words of a mesh, as its bytes come: where they begin and end, and what they add to the mesh.
#![tactic(auto)]

ghost use Rattle.std.specs.Prelude.{false, List, [], ◌≡◌, ◌<◌, ◌≤◌, ℕ, Float, length};
ghost use Rattle.mesh.specs.Mesh.{no_mesh};
ghost use Rattle.mesh.specs.Reading.{State, corner_at, end_word, ink, keyed, moved, release, spell, spelled, start};
ghost use Rattle.mesh_edges.specs.Index.{Indexed};
ghost use Rattle.mesh_words.specs.Places.{is_place};
ghost use Rattle.pattern.specs.Contents.{Pattern};
ghost use Rattle.store.specs.Store.{held};

use mesh::LineFault;
use mesh_corners::corner_of;
use mesh_draw::{Filled, add_point, add_side, no_mesh};
use mesh_edges::Index;
use store::{Spans, Tables};
use words::saturated;

// A number that no place has.
#[derive(Clone, Copy)]
pub struct OtherNumber {
    pub number: u64,
    pub ghost other: { is_place number ≡ false },
}

// A place in a line: before its first word, in it, in what is passed over, between the words of an `f`, in one of them; what
// is wrong with the line, once the mesh is refused; or a number that no place has, since a list that is lent may hold any.
#[derive(Clone, Copy)]
pub enum Place {
    Start,
    Key,
    Rest,
    Between,
    Word,
    Refused(LineFault),
    Other(OtherNumber),
}

impl Place {
    ghost use Rattle.mesh_words.specs.Following.{place_fault};

    // What is wrong with the line, once the mesh is refused. A number above those of the faults counts as under three points.
    pub fn fault(self) -> Option<LineFault>
        ensures { result ≡ place_fault self }
    {
        match self {
            Place::Refused(f) => Some(f),
            Place::Other(k) => {
                if k.number >= 30 {
                    Some(LineFault::TooFew)
                } else {
                    None
                }
            }
            _ => None,
        }
    }
}

// How far a mesh is read: the number of the line, modulo 2 to the 64th; how many bytes of the word are kept; of the face that
// is being read how many points, 3 for more, which is all that is asked of them; how far the tables are filled; of the face
// the first point and the last; the place in the line; whether a carriage return is held back, and whether the word's slash
// was met, each a plain yes or no; the first bytes of the word, up to its slash, in fixed memory, since there is no heap.
// The larger fields come first: a reader goes from hand to hand by value, and is copied a tenth faster so.
#[derive(Clone, Copy)]
pub struct Reader {
    pub line: u64,
    pub length: usize,
    pub corners: usize,
    pub filled: Filled,
    pub place: Place,
    pub first: u16,
    pub last: u16,
    pub held: bool,
    pub slashed: bool,
    pub word: [u8; 11],
}

// Tables, spans and index are lent one by one: had a struct these three references, each function would have to promise of
// each that it is still the one that was lent.
impl Reader {
    ghost use Rattle.mesh_words.specs.Following.{Follows, inks, place_number};
    ghost use Rattle.mesh_words.specs.declared.Place.TheVariants.{Between, Start};

    // Before the first byte.
    pub fn new() -> Reader
        ensures { (p : Pattern) (index : List ℕ) → Indexed [] index → Follows (start 1 no_mesh) result p index }
    {
        Reader {
            line: 1,
            place: Place::Start,
            held: false,
            word: [0; 11],
            length: 0,
            slashed: false,
            corners: 0,
            first: 0,
            last: 0,
            filled: no_mesh(),
        }
    }

    // A byte more of the word.
    fn spell(mut self, b: u8) -> Reader
        ensures { (st : State) (p : Pattern) (index : List ℕ) → Follows st self p index → Follows (spell b st) result p index }
    {
        if self.slashed {
            return self;
        }
        if let Place::Word = self.place {
            if b == b'/' {
                self.slashed = true;
                return self;
            }
        }
        let n = self.length;
        if n >= 11 {
            return self;
        }
        self.word[n] = b;
        self.length = n + 1;
        self
    }

    // The first byte of a word.
    fn begin(mut self, place: Place, b: u8) -> Reader
        ensures { (st : State) (p : Pattern) (index : List ℕ) → Follows st self p index → st.place < 30 → place_number place < 5 → (place_number place < 3 → st.place < 3) → Follows (spell b (spelled [] false (moved (place_number place) st))) result p index }
    {
        self.place = place;
        self.length = 0;
        self.slashed = false;
        self.spell(b)
    }

    // A byte of a word: the first of it, or a later one.
    pub fn ink(self, b: u8) -> Reader
        ensures { (st : State) (p : Pattern) (index : List ℕ) → Follows st self p index → Follows (ink b st) result p index }
    {
        match self.place {
            Place::Start => self.begin(Place::Key, b),
            Place::Between => self.begin(Place::Word, b),
            _ => self.spell(b),
        }
    }

    // More bytes of a word. Its table is filled beside the reader, which is slow to copy.
    fn spell_all(mut self, bytes: &[u8]) -> Reader
        ensures { (st : State) (p : Pattern) (index : List ℕ) → Follows st self p index → (self.place ≡ Start → ⊥) → (self.place ≡ Between → ⊥) → Follows (inks bytes.now st) result p index }
    {
        if self.slashed {
            return self;
        }
        let place = self.place;
        let mut word = self.word;
        let mut n = self.length;
        for b in bytes {
            if let Place::Word = place {
                if *b == b'/' {
                    self.word = word;
                    self.length = n;
                    self.slashed = true;
                    return self;
                }
            }
            if n < 11 {
                word[n] = *b;
                n += 1;
            }
        }
        self.word = word;
        self.length = n;
        self
    }

    // Bytes of a word: the first of it and later ones, or later ones.
    pub fn ink_all(self, bytes: &[u8]) -> Reader
        ensures { (st : State) (p : Pattern) (index : List ℕ) → Follows st self p index → Follows (inks bytes.now st) result p index }
    {
        let n = bytes.len();
        if n == 0 {
            return self;
        }
        let r = self.ink(bytes[0]);
        r.spell_all(&bytes[1..n])
    }

    // A carriage return that was held back is a byte of a word.
    pub fn release(mut self) -> Reader
        ensures { (st : State) (p : Pattern) (index : List ℕ) → Follows st self p index → st.place < 30 → Follows (release st) result p index }
    {
        if self.held {
            self.held = false;
            return self.ink(b'\r');
        }
        self
    }

    // The first word of a line has ended.
    fn key(mut self, t: &mut Tables) -> Reader
        ensures { (st : State) (spans : List Float) (index : List ℕ) → Follows st self (held t.old spans) index → st.place ≡ 1 → Follows (keyed st) result (held t.new spans) index }
    {
        self.place = Place::Rest;
        if self.length != 1 {
            return self;
        }
        let b = self.word[0];
        if b == b'f' {
            self.place = Place::Between;
            return self;
        }
        if b != b'v' {
            return self;
        }
        let f = self.filled;
        self.filled = add_point(f, (self.line % 4294967296) as u32, t);
        self
    }

    // A point of the face that is being read.
    fn corner(mut self, p: u16, t: &mut Tables, spans: &mut Spans, index: &mut Index) -> Reader
        ensures { (st : State) (q : ℕ) → Follows st self (held t.old spans.old) index.old → st.place ≡ 4 → (length st.mesh.points ≤ 2048 → p ≡ q) → Follows (moved 3 (corner_at q st)) result (held t.new spans.new) index.new }
    {
        let k = self.corners;
        let last = self.last;
        self.place = Place::Between;
        self.last = p;
        if k == 0 {
            self.corners = 1;
            self.first = p;
            return self;
        }
        let f = self.filled;
        self.filled = add_side(f, last, p, t, spans, index);
        self.corners = if k < 3 { k + 1 } else { 3 };
        self
    }

    // A word of an `f` has ended.
    fn end_corner(mut self, t: &mut Tables, spans: &mut Spans, index: &mut Index) -> Reader
        ensures { (st : State) → Follows st self (held t.old spans.old) index.old → st.place ≡ 4 → Follows (end_word st) result (held t.new spans.new) index.new }
    {
        // A word keeps at most 11 bytes.
        let n = self.length;
        if n > 11 {
            return self;
        }
        let bytes = self.word;
        let named = corner_of(&bytes[0..n], self.filled.points);
        match named {
            Err(f) => {
                self.place = Place::Refused(f);
                self
            }
            Ok(p) => self.corner(saturated(p as u64), t, spans, index),
        }
    }

    // A word has ended, if one was begun.
    pub fn end_word(self, t: &mut Tables, spans: &mut Spans, index: &mut Index) -> Reader
        ensures { (st : State) → Follows st self (held t.old spans.old) index.old → Follows (end_word st) result (held t.new spans.new) index.new }
    {
        match self.place {
            Place::Key => self.key(t),
            Place::Word => self.end_corner(t, spans, index),
            _ => self,
        }
    }
}
