// The face and the face rule (the Rust's face.rs, Face::try_new).
#![tactic(auto)]

ghost use Rattle.std.specs.Prelude.{◌≡◌, [], ◌%◌, ◌+◌, ◌<◌, ◌≤◌, length};
ghost use Rattle.lists.specs.Lists.{sum, split};
ghost use Rattle.errors.specs.Faults.{first as firstFault, each};
ghost use Rattle.face.specs.Faces.{outline_faults, shared_faults, face_faults, face_rule};

use errors::{Refusal, WireError};
use wire::{Marks, Wire};
use words::sum_of;

// The number of a face is its identity.
#[derive(Clone, Copy)]
pub struct FaceID(pub u16);

impl FaceID {
    // The face of a listing: the listing's number without its sign.
    pub fn of_listing(l: u16) -> FaceID
        ensures { result.0 ≡ l % 32768 }
    {
        FaceID(l % 32768)
    }
}

// A face: how many wires it has, taken in sequence, and its surface.
#[repr(C)]
#[derive(Clone, Copy)]
pub struct Face {
    pub wires: u16,
    pub surface: u16,
}

// Each wire by itself. The wires have these lengths and stand in `wires` in sequence; the first has
// number `first`.
fn check_wires(
    wires: &Wire,
    lengths: &[u16],
    marks: &mut Marks,
    first: usize,
) -> Result<(), Refusal>
    requires lengths_in_bounds { (sum lengths.now ≤ length wires.now.uses.now) × (first + length lengths.now ≤ 2048) }
    requires stamps { marks.old.stamp + length lengths.now < 65536 }
    ensures value { result ≡ firstFault (each (outline_faults wires.now.ends.fronts.now wires.now.ends.backs.now) first (split lengths.now wires.now.uses.now)) }
    ensures stamp_after { marks.new.stamp ≤ marks.old.stamp + length lengths.now }
{
    let mut at: usize = 0;
    for (k, length) in lengths.iter().enumerate() {
        let n = usize::from(*length);
        if let Err(e) = wires.part(at, n).check(marks) {
            return Err(Refusal::Wire(first + k, e));
        }
        at += n;
    }
    Ok(())
}

// No two of the wires share a point; each meets no point twice.
fn disjoint_wires(
    wires: &Wire,
    lengths: &[u16],
    marks: &mut Marks,
    first: usize,
) -> Result<(), Refusal>
    requires lengths_in_bounds { (sum lengths.now ≤ length wires.now.uses.now) × (first + length lengths.now ≤ 2048) }
    requires stamps { marks.old.stamp < 65535 }
    requires uses_value { each (outline_faults wires.now.ends.fronts.now wires.now.ends.backs.now) first (split lengths.now wires.now.uses.now) ≡ [] }
    ensures value { result ≡ firstFault (shared_faults wires.now.ends.fronts.now wires.now.ends.backs.now [] first (split lengths.now wires.now.uses.now)) }
    ensures stamp_after { marks.new.stamp ≡ marks.old.stamp + 1 }
{
    marks.next();
    let mut at: usize = 0;
    for (k, length) in lengths.iter().enumerate() {
        let n = usize::from(*length);
        if marks.stamp_points(&wires.part(at, n)) {
            return Err(Refusal::Wire(first + k, WireError::NotSimpleWire));
        }
        at += n;
    }
    Ok(())
}

// The face rule for one face.
fn check_face(wires: &Wire, lengths: &[u16], marks: &mut Marks, first: usize) -> Result<(), Refusal>
    requires lengths_in_bounds { (sum lengths.now ≤ length wires.now.uses.now) × (first + length lengths.now ≤ 2048) }
    requires stamps { marks.old.stamp + length lengths.now + 1 < 65536 }
    ensures value { result ≡ firstFault (face_faults wires.now.ends.fronts.now wires.now.ends.backs.now first (split lengths.now wires.now.uses.now)) }
    ensures stamp_after { marks.new.stamp ≤ marks.old.stamp + length lengths.now + 1 }
{
    check_wires(wires, lengths, marks, first)?;
    // One wire alone shares no point.
    if lengths.len() < 2 {
        return Ok(());
    }
    disjoint_wires(wires, lengths, marks, first)
}

// The face rule, face by face: `counts` has the faces' numbers of wires, `lengths` the wires' lengths.
pub fn check_faces(wires: &Wire, lengths: &[u16], counts: &[u16]) -> Result<(), Refusal>
    requires counts_in_bounds { (length counts.now ≤ 256) × (length lengths.now ≤ 2048) }
    requires counts_value { (sum counts.now ≡ length lengths.now) × (sum lengths.now ≡ length wires.now.uses.now) }
    ensures { result ≡ firstFault (face_rule wires.now.ends.fronts.now wires.now.ends.backs.now 0 (split counts.now (split lengths.now wires.now.uses.now))) }
{
    let mut marks = Marks::new();
    let mut at: usize = 0;
    let mut first: usize = 0;
    for count in counts {
        let n = usize::from(*count);
        let part = &lengths[first..first + n];
        let total = sum_of(part);
        check_face(&wires.part(at, total), part, &mut marks, first)?;
        at += total;
        first += n;
    }
    Ok(())
}
