// The refusals of the edits, their own: a call that edits answers the new numbers, or `CallError` of one of these.
#![tactic(auto)]

ghost use Rattle.std.specs.Prelude.{◌≡◌};
ghost use Rattle.edit_answers.specs.Answers.{edit_number, face_edit_number};
ghost use Rattle.errors.specs.declared.CallError.TheVariants.{Refused};

use errors::{CallError, WireError};

// The refusal of an edit of a shell, its own.
#[derive(Clone, Copy)]
pub enum EditError {
    // 3: a number that names nothing, or is no label.
    Unnamed,
    // 14: the point is in the shell already.
    VertexInShell,
    // 15
    EdgeNotInShell,
    // 16
    CurveRefuses,
    // 17: the point table, the edge table or the use list would pass its limit.
    NoSpace,
    // 23: no wire, or over two, ends at the point.
    NotOneOrTwoWires,
    // 24: the two wires do not match.
    Unmatched,
    // 25: the joined ends are equal.
    SameEnds,
    // 26: the joined span is out of range or not above its start.
    SpanRefused,
    // 27: some face of the shell is also listed in another.
    SharedFace,
    // 29: the uses do not meet.
    Disconnected,
}

// The refusal of an edit of a face, its own.
#[derive(Clone, Copy)]
pub enum FaceEditError {
    // 3: a number that names nothing.
    Unnamed,
    // 6, 7, 8: what is wrong with the added wire.
    Wire(WireError),
    // 9: the added wire shares a point with the face's own.
    NotDisjointWires,
    // 17: the result is longer than a lent list.
    NoSpace,
    // 18: the face has not exactly one wire.
    NotOneWire,
    // 19: the cutting wire's ends are not on the face's wire.
    EndsNotOnWire,
    // 20: the surfaces or the signs of the faces differ.
    FacesDiffer,
    // 21: uses with opposite ends are of different edges.
    OppositeEdges,
    // 22
    NothingRemains,
    // 28: the result breaks the face rule.
    FaceRule,
}

impl EditError {
    // Document 01's number.
    pub fn number(self) -> usize
        ensures { result ≡ edit_number self }
    {
        match self {
            EditError::Unnamed => 3,
            EditError::VertexInShell => 14,
            EditError::EdgeNotInShell => 15,
            EditError::CurveRefuses => 16,
            EditError::NoSpace => 17,
            EditError::NotOneOrTwoWires => 23,
            EditError::Unmatched => 24,
            EditError::SameEnds => 25,
            EditError::SpanRefused => 26,
            EditError::SharedFace => 27,
            EditError::Disconnected => 29,
        }
    }
}

impl FaceEditError {
    // Document 01's number.
    pub fn number(self) -> usize
        ensures { result ≡ face_edit_number self }
    {
        match self {
            FaceEditError::Unnamed => 3,
            FaceEditError::Wire(e) => e.number(),
            FaceEditError::NotDisjointWires => 9,
            FaceEditError::NoSpace => 17,
            FaceEditError::NotOneWire => 18,
            FaceEditError::EndsNotOnWire => 19,
            FaceEditError::FacesDiffer => 20,
            FaceEditError::OppositeEdges => 21,
            FaceEditError::NothingRemains => 22,
            FaceEditError::FaceRule => 28,
        }
    }
}

impl From<EditError> for CallError<EditError> {
    ghost from_gives = { λ e r. r ≡ Refused e };

    fn from(e: EditError) -> CallError<EditError> {
        CallError::Refused(e)
    }
}
