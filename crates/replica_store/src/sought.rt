/// What is at a place of a list.
#[derive(Drop)]
pub enum Sought<T> {
    /// The item there.
    Found(T),
    /// The list ends before: the place is this one after its end.
    Past(u64),
}
