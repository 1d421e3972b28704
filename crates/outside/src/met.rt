/// What a door answers.
#[derive(Drop)]
pub enum Met<I, O> {
    /// Both ends of a link that came up.
    Link(I, O),
    /// No link has come up yet.
    NotYet,
    /// The door gives no more links.
    Closed,
}
