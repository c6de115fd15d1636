//! The type `Difference`: a leaf's first sample in a plane that differs, with both values.

/// The first sample of a leaf in a plane that differs from the sample of the plan.
#[derive(Copy, Clone, Debug, PartialEq, Eq)]
pub struct Difference {
    /// The leaf, counted from 0 in coding order.
    pub leaf: u32,
    /// 0 for Y, 1 for U and 2 for V.
    pub plane: u8,
    /// The row of the sample in its plane.
    pub row: u16,
    /// The column of the sample in its plane.
    pub column: u16,
    /// The sample that the trace has, of up to 16 bits whatever the depth.
    pub given: u16,
    /// The sample of the slow definition.
    pub defined: u16,
}
