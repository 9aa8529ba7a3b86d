// What is asked of a wire, and the marks by which its points are found again.
ghost use Rattle.std.specs.Prelude.{◌≡◌, ◌+◌, ◌<◌, ◌≤◌, length};
ghost use Rattle.lists.specs.Lists.{no_dup};
ghost use Rattle.lists.specs.Marks.{stamped, met, Below};
ghost use Rattle.wire.specs.Wires.{closed, points, wire_faults, end_from};
ghost use Rattle.wire.specs.OfWire.{of_wire};
ghost use Rattle.errors.specs.Sequence.{first_of_wire};

use crate::Wire;
use errors::WireError;
use vertex::VertexID;

// Marks of the points, each the stamp that the point got last, or 0. No mark is above the stamp in use: with
// the next one no point is marked, and nothing has to be cleared.
#[derive(Clone, Copy)]
pub struct Marks {
    marks: [u16; 2048],
    stamp: u16,
    ghost long: { length marks ≡ 2048 },
    ghost below: { Below (stamp + 1) marks },
}

impl Marks {
    // No point is marked.
    pub fn new() -> Marks
        ensures { result.stamp ≡ 0 }
    {
        Marks {
            marks: [0; 2048],
            stamp: 0,
        }
    }

    // Takes the next stamp.
    pub fn next(&mut self)
        requires { self.old.stamp < 65535 }
        ensures stamp_after { self.new.stamp ≡ self.old.stamp + 1 }
        ensures marks_after { self.new.marks ≡ self.old.marks }
    {
        self.stamp += 1;
    }

    // Stamps the points of a wire; whether one had the stamp when its turn came.
    pub fn stamp_points(&mut self, wire: &Wire) -> bool
        ensures value { result ≡ met self.old.stamp (of_wire points wire.now) self.old.marks }
        ensures marks_after { self.new.marks ≡ stamped self.old.stamp (of_wire points wire.now) self.old.marks }
        ensures stamp_after { self.new.stamp ≡ self.old.stamp }
    {
        stamp_points(wire, &mut self.marks, self.stamp)
    }
}

// The same in any marks that are lent, with any stamp.
pub fn stamp_points(wire: &Wire, marks: &mut [u16], stamp: u16) -> bool
    requires { length marks.old ≡ 2048 }
    ensures value { result ≡ met stamp (of_wire points wire.now) marks.old }
    ensures marks_after { marks.new ≡ stamped stamp (of_wire points wire.now) marks.old }
{
    let ends = wire.ends;
    let mut again = false;
    for u in wire.uses {
        let p = ends.front_of(*u);
        if marks[p] == stamp {
            again = true;
        }
        marks[p] = stamp;
    }
    again
}

impl<'a> Wire<'a> {
    // Whether each use's back is the next one's front, and the last one's the first one's.
    pub fn is_closed(&self) -> bool
        ensures { result ≡ of_wire closed self.now }
    {
        let [head, rest @ ..] = self.uses else {
            return true;
        };
        let ends = self.ends;
        let first = ends.front_of(*head);
        let mut at = ends.back_of(*head);
        for u in rest {
            if at != ends.front_of(*u) {
                return false;
            }
            at = ends.back_of(*u);
        }
        at == first
    }

    // Whether no point is met twice.
    pub fn is_simple(&self, marks: &mut Marks) -> bool
        requires { marks.old.stamp < 65535 }
        ensures value { result ≡ no_dup (of_wire points self.now) }
        ensures stamp_after { marks.new.stamp ≡ marks.old.stamp + 1 }
    {
        marks.next();
        !marks.stamp_points(self)
    }

    // Judges one wire: 6, 7, 8.
    pub fn check(&self, marks: &mut Marks) -> Result<(), WireError>
        requires { marks.old.stamp < 65535 }
        ensures value { result ≡ first_of_wire (of_wire wire_faults self.now) }
        ensures stamp_after { marks.new.stamp ≤ marks.old.stamp + 1 }
    {
        if self.uses.len() == 0 {
            return Err(WireError::EmptyWire);
        }
        if !self.is_closed() {
            return Err(WireError::NotClosedWire);
        }
        if !self.is_simple(marks) {
            return Err(WireError::NotSimpleWire);
        }
        Ok(())
    }

    // The place of the first use that ends at a vertex.
    pub fn find_end(&self, v: VertexID) -> Option<usize>
        ensures { result ≡ end_from self.now.ends.fronts.now self.now.ends.backs.now 0 v.0 self.now.uses.now }
    {
        let p = usize::from(v.0);
        // As in `find_use`.
        let mut k: usize = 0;
        loop {
            if k >= self.uses.len() {
                break None;
            }
            if self.ends.back_of(self.uses[k]) == p {
                break Some(k);
            }
            k += 1;
        }
    }
}
