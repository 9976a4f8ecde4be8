/// What was added: the number of the pass, the amount, and the answer, which is the sum after it.
#[derive(Clone, Copy, Debug, PartialEq, Eq)]
pub struct Line {
    pub by: u32,
    pub amount: u32,
    pub sum: u64,
}
