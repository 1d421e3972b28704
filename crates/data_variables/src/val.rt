/// The value of an equipment constant: a number, or a truth value.
#[derive(Clone, Copy)]
pub enum Val {
    Number(u32),
    Truth(bool),
}
