//! A loaded image.

/// A page of 4096 bytes.
#[derive(Drop)]
pub struct ImagePage {
    /// The page has the addresses from `4096 * number`.
    pub number: u64,
    /// What is allowed: 4 to read, 2 to write, 1 to execute.
    pub perm: u8,
    pub bytes: [u8; 4096],
}

/// The memory with which a program starts, and what it is told of its file.
#[derive(Drop)]
pub struct Image {
    /// The pages of the segments, in rising order of number.
    pub pages: Vec<ImagePage>,
    /// The address of the first instruction.
    pub entry: u64,
    /// Where the program header table stands in memory, or 0.
    pub phdr: u64,
    /// How many entries the program header table has.
    pub phnum: u16,
    /// The end of the highest page.
    pub break_at: u64,
}
