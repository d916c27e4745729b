/// A change of a board: a piece is claimed, a cell is filled with a word, a piece is done. Pieces and cells are
/// numbered from 0.
#[derive(Clone, Copy, Drop)]
pub enum Event {
    Claim(u32),
    Put(u32, u64),
    Done(u32),
}
