// A sheet's rows, and what a call of a sheet answers.
use blocks::Block;

// A block, and the columns of its inputs: below 8 one names a word of the tick, from 8 on an answer word of a row further up.
#[derive(Clone, Copy)]
pub struct Row {
    pub block: Block,
    pub first: u64,
    pub second: u64,
    pub third: u64,
}

// The refusal number, the row at fault for 2, 6 and 7, and whether any row warned. No `Result`: document 01 answers all three, C gets
// them as they are (`SheetWords`), and `SheetStarted` and `SheetTicked` speak of them.
#[derive(Clone, Copy)]
pub struct SheetAnswer {
    pub refusal: u64,
    pub row: usize,
    pub warning: bool,
}
