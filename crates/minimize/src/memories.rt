// Memory for one table in the layout of a book: place 0 is for the start, place 1 + q * s + a for arc (q, a), where there are s letters.
pub struct TableMemory<'a, W> {
    pub targets: &'a mut [u16],
    pub weights: &'a mut [W],
    pub marks: &'a mut [u8],
}

// Memory with one place for each state of a least table: for its representative and for its factor.
pub struct StateMemory<'a, W> {
    pub representatives: &'a mut [u16],
    pub factors: &'a mut [W],
}

// Memory for work.
pub struct WorkMemory<'a, W> {
    pub numbers: &'a mut [u16],
    pub elements: &'a mut [W],
}
