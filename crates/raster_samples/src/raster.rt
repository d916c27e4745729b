/// What the number 0 stands for in a raster: paper, or full ink.
#[derive(Clone, Copy, Debug, Drop, PartialEq, Eq)]
pub enum Zero {
    Paper,
    Ink,
}

/// The samples of a raster in one direction: how many there are, and the bytes from one to the next.
#[derive(Clone, Copy, Debug, Drop, PartialEq, Eq)]
pub struct Axis {
    pub count: u32,
    pub stride: i64,
}

/// How planes lie in a memory.
#[derive(Clone, Copy, Debug, Drop, PartialEq, Eq)]
pub struct Raster {
    /// The bytes of a sample: 1, or 2 with the lower one first.
    pub sample_size: u32,
    /// The greatest number of a sample.
    pub maxval: u32,
    /// What 0 stands for.
    pub zero: Zero,
    /// Where the first sample of the first row of the first plane begins, in bytes.
    pub origin: u64,
    /// The samples of a row.
    pub pixels: Axis,
    /// The rows of a plane.
    pub rows: Axis,
    pub planes: Axis,
}

/// Whether a raster is read or written.
#[derive(Clone, Copy, Debug, Drop, PartialEq, Eq)]
pub enum Access {
    Read,
    Write,
}

/// What is wrong with a raster.
#[derive(Clone, Copy, Debug, Drop, PartialEq, Eq)]
pub enum RasterFault {
    /// A sample has neither one byte nor two.
    SampleSize,
    /// The maxval is 0, or greater than a sample holds.
    Maxval,
    /// The strides are such that samples overlap.
    Strides,
    /// A sample lies outside the memory.
    Extent,
}

/// Some columns of some rows of a plane, in samples.
#[derive(Clone, Copy, Debug, Drop, PartialEq, Eq)]
pub struct Rectangle {
    pub plane: u32,
    pub left: u32,
    pub top: u32,
    pub width: u32,
    pub height: u32,
}
