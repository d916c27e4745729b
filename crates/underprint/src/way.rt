/// A way along a row or a column.
#[derive(Clone, Copy, Debug, Drop, PartialEq, Eq)]
pub enum Way {
    Left,
    Right,
    Above,
    Below,
}
