// The vertex, a point of the pattern: its number is its identity (the Rust's vertex.rs).
#![tactic(auto)]

#[repr(C)]
#[derive(Clone, Copy)]
pub struct VertexID(pub u16);
