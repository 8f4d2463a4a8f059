//! The fields of a message one by one, as they are written and shown.

/// A field of a message: its name in the standard, and its value.
#[derive(Clone, Copy)]
pub struct Field<'a> {
    /// The name.
    pub name: &'static str,
    /// The value.
    pub value: Item<'a>,
}

/// The value of a field, by its kind on the wire (BOLT 1, "Fundamental Types"). Numbers are written with the
/// highest byte first.
#[derive(Clone, Copy)]
pub enum Item<'a> {
    /// One byte.
    U8(u8),
    /// Two bytes.
    U16(u16),
    /// Four bytes.
    U32(u32),
    /// Eight bytes.
    U64(u64),
    /// As many bytes as the field always has.
    Fixed(&'a [u8]),
    /// Bytes after their length in two bytes.
    Sized(&'a [u8]),
    /// Signatures after their count in two bytes.
    Listed(&'a [[u8; 64]]),
}
