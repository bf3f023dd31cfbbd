/// Bits for an input: where it stands in a row, if it does.
#[derive(Clone, Copy)]
pub struct Driven {
    pub place: Option<usize>,
    pub bits: u128,
}
