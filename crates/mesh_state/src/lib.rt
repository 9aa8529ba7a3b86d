// A reader of a mesh in a lent list of numbers.
#![tactic(auto)]

ghost use Rattle.std.specs.Prelude.{◌≡◌};
ghost use Rattle.mesh_state.specs.State.{filled_in, reader_in};
ghost use Rattle.mesh_words.specs.Following.{place_in, place_number};

use mesh::LineFault;
use mesh_draw::Filled;
use mesh_words::{OtherNumber, Place, Reader};

// The numbers of a reader.
pub const NUMBERS: usize = 24;

pub type Numbers = [u64; NUMBERS];

// The number of a place in a line.
fn place_number(k: Place) -> u64
    ensures { result ≡ place_number k }
{
    match k {
        Place::Start => 0,
        Place::Key => 1,
        Place::Rest => 2,
        Place::Between => 3,
        Place::Word => 4,
        Place::Refused(f) => f.number() as u64,
        Place::Other(n) => n.number,
    }
}

// The place that a number says, any number.
fn place_in(n: u64) -> Place
    ensures { result ≡ place_in n }
{
    match n {
        0 => Place::Start,
        1 => Place::Key,
        2 => Place::Rest,
        3 => Place::Between,
        4 => Place::Word,
        30 => Place::Refused(LineFault::NotNumber),
        31 => Place::Refused(LineFault::NotGiven),
        32 => Place::Refused(LineFault::TooFew),
        _ => Place::Other(OtherNumber { number: n }),
    }
}

fn filled_in(numbers: &Numbers) -> Filled
    ensures { result ≡ filled_in numbers.now }
{
    Filled {
        points: numbers[8] as usize,
        edges: numbers[9] as usize,
        uses: numbers[10] as usize,
        begun: numbers[11] as usize,
        faces: numbers[12] as usize,
    }
}

// The reader that the numbers hold; any numbers hold one.
pub fn reader_in(numbers: &Numbers) -> Reader
    ensures { result ≡ reader_in numbers.now }
{
    Reader {
        line: numbers[0],
        place: place_in(numbers[1]),
        held: numbers[2] != 0,
        word: [
            (numbers[13] % 256) as u8,
            (numbers[14] % 256) as u8,
            (numbers[15] % 256) as u8,
            (numbers[16] % 256) as u8,
            (numbers[17] % 256) as u8,
            (numbers[18] % 256) as u8,
            (numbers[19] % 256) as u8,
            (numbers[20] % 256) as u8,
            (numbers[21] % 256) as u8,
            (numbers[22] % 256) as u8,
            (numbers[23] % 256) as u8,
        ],
        length: numbers[3] as usize,
        slashed: numbers[4] != 0,
        corners: numbers[5] as usize,
        first: (numbers[6] % 65536) as u16,
        last: (numbers[7] % 65536) as u16,
        filled: filled_in(numbers),
    }
}

// The numbers of a reader.
fn numbers_of(r: Reader) -> Numbers
    ensures { reader_in result ≡ r }
{
    [
        r.line,
        place_number(r.place),
        u64::from(r.held),
        r.length as u64,
        u64::from(r.slashed),
        r.corners as u64,
        u64::from(r.first),
        u64::from(r.last),
        r.filled.points as u64,
        r.filled.edges as u64,
        r.filled.uses as u64,
        r.filled.begun as u64,
        r.filled.faces as u64,
        u64::from(r.word[0]),
        u64::from(r.word[1]),
        u64::from(r.word[2]),
        u64::from(r.word[3]),
        u64::from(r.word[4]),
        u64::from(r.word[5]),
        u64::from(r.word[6]),
        u64::from(r.word[7]),
        u64::from(r.word[8]),
        u64::from(r.word[9]),
        u64::from(r.word[10]),
    ]
}

// Puts a reader into the list.
pub fn put_reader(r: Reader, numbers: &mut Numbers)
    ensures { reader_in numbers.new ≡ r }
{
    *numbers = numbers_of(r);
}
