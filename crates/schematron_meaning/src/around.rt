use crate::role::Role;

/// What a node is to those that stand in it.
#[derive(Clone, Copy, PartialEq, Eq)]
pub struct Around {
    pub role: Role,
    /// The number of the element that they stand in, where those that give their texts are left out.
    pub number: u32,
}
