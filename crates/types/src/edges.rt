//! The edges between types.

/// A type and one of its supertypes. Types count from 0; a number from 32 on is no type.
#[derive(Clone, Copy, PartialEq, Eq, Debug)]
pub struct Edge {
    pub subtype: u32,
    pub supertype: u32,
}
