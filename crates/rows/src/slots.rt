// What stands in a row that is used.
#[derive(Clone, Copy)]
pub struct Slot<T> {
    pub handle: u64,
    pub value: T,
}

// A row that was found, and its value.
#[derive(Clone, Copy)]
pub struct Found<T> {
    pub row: usize,
    pub value: T,
}
