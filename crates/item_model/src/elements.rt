use gem_ids::Listed;

/// The elements of an item that are all of one kind.
pub type Elements<T> = Listed<T>;
/// The bytes of a binary item, or the characters of an ASCII item.
pub type Bytes = Elements<u8>;
/// The truth values of a boolean item.
pub type Bools = Elements<bool>;
/// The numbers of an I1 item: signed, of one byte each.
pub type I8s = Elements<i8>;
/// The numbers of an I2 item: signed, of two bytes each.
pub type I16s = Elements<i16>;
/// The numbers of an I4 item: signed, of four bytes each.
pub type I32s = Elements<i32>;
/// The numbers of an I8 item: signed, of eight bytes each.
pub type I64s = Elements<i64>;
/// The numbers of a U1 item: unsigned, of one byte each.
pub type U8s = Elements<u8>;
/// The numbers of a U2 item: unsigned, of two bytes each.
pub type U16s = Elements<u16>;
/// The numbers of a U4 item: unsigned, of four bytes each.
pub type U32s = Elements<u32>;
/// The numbers of a U8 item: unsigned, of eight bytes each.
pub type U64s = Elements<u64>;
