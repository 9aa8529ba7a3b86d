// A Wavefront OBJ mesh, as a pattern: what is wrong with one, and why its import is refused.
#![tactic(auto)]

ghost use Rattle.std.specs.Prelude.{◌≡◌};
ghost use Rattle.errors.specs.declared.CallError.TheVariants.{Refused};
ghost use Rattle.mesh.specs.Mesh.{fault_number};

use errors::CallError;

// What is wrong with a line: a word that is no number (30), a point that is not yet given or zero (31), under three
// points (32).
#[derive(Clone, Copy)]
pub enum LineFault {
    NotNumber,
    NotGiven,
    TooFew,
}

impl LineFault {
    // Its number.
    pub fn number(self) -> usize
        ensures { result ≡ fault_number self }
    {
        match self {
            LineFault::NotNumber => 30,
            LineFault::NotGiven => 31,
            LineFault::TooFew => 32,
        }
    }
}

// Why an import is refused, by itself: a fault with the number of its line; no space (17) with the length that the
// pattern's file needs.
#[derive(Clone, Copy)]
pub enum MeshError {
    Line(LineFault, u64),
    NoSpace(usize),
}

impl From<MeshError> for CallError<MeshError> {
    ghost from_gives = { λ e r. r ≡ Refused e };

    fn from(e: MeshError) -> CallError<MeshError> {
        CallError::Refused(e)
    }
}
