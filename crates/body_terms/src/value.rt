//! What a step writes into a cell.

/// A value that a step writes: a number, or what a register holds.
#[derive(Clone, Copy, Debug, PartialEq, Eq)]
pub enum Value {
    /// This number.
    Const(u32),
    /// The value of the word that was loaded into this register.
    Of(u8),
    /// The link of the slot that was made into this register: its number plus 1.
    Made(u8),
}

/// The values that a new node's five cells get.
#[derive(Clone, Copy, Debug, PartialEq, Eq)]
pub struct Init {
    /// One value for each cell, in order.
    pub cells: [Value; 5],
}
