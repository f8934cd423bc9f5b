//! The key of a value in a table.

/// Names a value of a table. A key is given out once: by [`Table::insert`](crate::Table::insert),
/// for one value.
#[derive(Clone, Copy, Debug, PartialEq, Eq)]
#[repr(C)]
pub struct Key {
    /// The slot of the value, counted from 0.
    pub index: u32,
    /// How many values were removed from that slot before this one was put in.
    pub generation: u32,
}
