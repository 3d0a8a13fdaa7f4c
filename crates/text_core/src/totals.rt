/// What a whole script consisted of.
#[derive(Clone, Copy, Debug, PartialEq, Eq)]
pub struct Totals {
    /// The number of lines that were read, skipped ones too.
    pub lines: u64,
    /// The number of reply lines that were written.
    pub replies: u64,
}
