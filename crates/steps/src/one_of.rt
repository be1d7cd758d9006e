// A choice between two.

// Two values, of which one is chosen: the first, or else the second. So measures or policies of different types can be held by one
// type. It is no enum of two, since a measure of two makes figures of both.
#[derive(Clone, Copy)]
pub struct OneOf<A, B> {
    pub first: bool,
    pub a: A,
    pub b: B,
}
