//! The numbers of the rule and the limits of pages, sheets, jobs and words, each once. Contracts name them by
//! specs/Limits.antt.

/// The number 1 in ten-thousandths, the unit of a job's numbers.
pub const SCALE: u32 = 10_000;

/// One half-sample: the product of a width in points, a factor and a resolution in pixels per inch, the first two in
/// ten-thousandths, that comes to 1/2 a sample. It is 36 times the square of the scale.
pub const HALF_SAMPLE: u64 = 3_600_000_000;

/// The greatest width or height of a page, in samples.
pub const MOST_SIDE: u32 = 16_384;

/// The greatest width or height of a sheet, in samples.
pub const MOST_SHEET_SIDE: u32 = 262_144;

/// The most samples that all plates of a page have together.
pub const MOST_SAMPLES: u64 = 160_000_000;

/// The greatest maxval: the greatest number in two bytes.
pub const MOST_MAXVAL: u32 = 65_535;

/// The most plates of a page.
pub const MOST_PLATES: usize = 16;

/// The most bytes of a colorant's name.
pub const LONGEST_NAME: usize = 64;

/// The most zones that a job makes, beside zone 0.
pub const MOST_JOB_ZONES: usize = 250;

/// The most vertices of one path.
pub const MOST_VERTICES: usize = 4_096;

/// The most vertices that the paths of all zones of a page have together.
pub const MOST_VERTICES_IN_ALL: u64 = 16_384;

/// How far from the origin a vertex may stand: a million points, in ten-thousandths.
pub const MOST_COORDINATE: u64 = 10_000_000_000;

/// The greatest resolution, in pixels per inch.
pub const MOST_RESOLUTION: u32 = 10_000;

/// The greatest reach of a trap, in half-samples.
pub const MOST_REACH: u32 = 256;

/// The code of a column's answer that stands level with the row. Codes are offsets in half-samples plus this, so that
/// within reach none of them is 0, which is the code of no answer.
pub const LEVEL_CODE: u32 = MOST_REACH + 1;

/// The greatest number of rows of a band.
pub const MOST_BAND_HEIGHT: u32 = 4_096;

/// The greatest number of workers.
pub const MOST_WORKERS: u32 = 64;
