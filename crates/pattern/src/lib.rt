// The pattern in storage, and the reading checks from the counts on.
#![tactic(auto)]

ghost use Rattle.std.specs.Prelude.{◌≡◌, ◌≤◌, length};
ghost use Rattle.errors.specs.Faults.{first as firstFault, each};
ghost use Rattle.pattern.specs.Contents.{layout};
ghost use Rattle.pattern.specs.Checks.{count_faults, edge_faults, name_faults, sum_faults};
ghost use Rattle.pattern.specs.Columns.{Checkable, column_faults, list_faults};

use edge::{Edge, Ends};
use errors::Refusal;
use face::check_faces;
use wire::Wire;
use words::sum_of;

// How many bodies a file has, and how many bytes the longest file.
pub const BODIES: usize = 7;

pub const LONGEST: usize = 41048;

// How many records each body has; where each begins, and where the file ends.
pub type Counts = [usize; BODIES];

pub type Starts = [usize; BODIES + 1];

// The layout of a file: the first offset, and for each body the bytes of a record and the limit.
#[derive(Clone, Copy)]
pub struct Layout {
    pub first: usize,
    pub sizes: Counts,
    pub limits: Counts,
}

pub fn file_layout() -> Layout
    ensures { result ≡ layout }
{
    Layout {
        first: 56,
        sizes: [4, 20, 2, 2, 4, 2, 2],
        limits: [2048, 1024, 4096, 1024, 256, 16, 512],
    }
}

// Counts in body order: 2.
pub fn check_counts(counts: Counts) -> Result<(), Refusal>
    ensures { result ≡ firstFault (count_faults counts) }
{
    let lay = file_layout();
    for (b, count) in counts.iter().enumerate() {
        if *count > lay.limits[b] {
            return Err(Refusal::Limit(b));
        }
    }
    Ok(())
}

// One edge for its points, ends and span: 3, 5, 4.
pub fn check_edge(e: Edge, k: usize, points: usize) -> Result<(), Refusal>
    ensures { result ≡ firstFault (edge_faults points k e) }
{
    let front = usize::from(e.front.0);
    let back = usize::from(e.back.0);
    let curve = e.curve;
    let span = curve.is_span();
    if front >= points {
        return Err(Refusal::Unnamed(1, k));
    }
    if back >= points {
        return Err(Refusal::Unnamed(1, k));
    }
    if front == back {
        return Err(Refusal::SameVertex(k));
    }
    if !span {
        return Err(Refusal::Span(k));
    }
    Ok(())
}

// Uses or listings: 3.
fn check_names(numbers: &[u16], body: usize, names: usize) -> Result<(), Refusal>
    ensures { result ≡ firstFault (each (name_faults body names) 0 numbers.now) }
{
    for (k, number) in numbers.iter().enumerate() {
        if usize::from(*number % 32768) >= names {
            return Err(Refusal::Unnamed(body, k));
        }
    }
    Ok(())
}

// The sum of numbers against a count: 3.
fn check_sum(ns: &[u16], body: usize, total: usize) -> Result<(), Refusal>
    requires { length ns.now ≤ 4096 }
    ensures { result ≡ firstFault (sum_faults body ns.now total) }
{
    if sum_of(ns) == total {
        Ok(())
    } else {
        Err(Refusal::Unnamed(body, ns.len()))
    }
}

// The lists of a pattern, each as long as its count: the ends of the edges, the uses, the lengths of the
// wires, the faces' numbers of wires, the shells' numbers of listings, the listings.
#[derive(Clone, Copy)]
pub struct Lists<'a> {
    pub ends: Ends<'a>,
    pub uses: &'a [u16],
    pub wires: &'a [u16],
    pub faces: &'a [u16],
    pub shells: &'a [u16],
    pub listings: &'a [u16],
}

impl<'a> Lists<'a> {
    // The records after the edges: uses, sums, listings.
    fn check_numbers(&self) -> Result<(), Refusal>
        requires { (length self.now.wires.now ≤ 1024) × (length self.now.faces.now ≤ 256) × (length self.now.shells.now ≤ 16) }
        ensures { result ≡ firstFault (list_faults (length self.now.ends.fronts.now) self.now.uses.now self.now.wires.now self.now.faces.now self.now.shells.now self.now.listings.now) }
    {
        check_names(self.uses, 2, self.ends.fronts.len())?;
        check_sum(self.wires, 3, self.uses.len())?;
        check_sum(self.faces, 4, self.wires.len())?;
        check_sum(self.shells, 5, self.listings.len())?;
        check_names(self.listings, 6, self.faces.len())
    }

    // The reading checks after those of the edges: the other records, the face rule.
    pub fn check(&self) -> Result<(), Refusal>
        requires { Checkable self.now.ends.fronts.now self.now.ends.backs.now self.now.wires.now self.now.faces.now self.now.shells.now }
        ensures { result ≡ firstFault (column_faults self.now.ends.fronts.now self.now.ends.backs.now self.now.uses.now self.now.wires.now self.now.faces.now self.now.shells.now self.now.listings.now) }
    {
        self.check_numbers()?;
        let wires = Wire {
            uses: self.uses,
            ends: self.ends,
        };
        check_faces(&wires, self.wires, self.faces)
    }
}
