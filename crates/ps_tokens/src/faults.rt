use crate::parameters::Key;

/// What is wrong with a job.
#[derive(Clone, Copy, Debug, Drop, PartialEq, Eq)]
pub enum FaultKind {
    /// The job has more than 1,048,576 bytes.
    JobTooLong,
    /// No token stands here.
    BadToken,
    /// A number's whole part is above 1,000,000.
    NumberTooLarge,
    /// A bracket is open at the end.
    Unclosed,
    /// A closing bracket does not match the innermost open one.
    Unmatched,
    /// A dictionary ends after a key that has no value.
    OddDictionary,
    /// A key of a dictionary is no literal name.
    KeyNotName,
    /// An operator stands inside a bracket.
    NameInside,
    /// A bracket opens inside 16 others.
    TooDeep,
    /// A word is no operator.
    UnknownOperator,
    /// An operator's operands are not exactly its own.
    WrongOperands,
    /// A parameter's value is not of its kind.
    WrongKind(Key),
    /// A parameter's number is outside its range.
    OutOfRange(Key),
    /// A value that has to be a dictionary is none.
    NotDictionary,
    /// A dictionary lacks an entry that it has to have.
    MissingKey,
    /// The type of trapping details is not 1001.
    WrongType,
    /// A neutral density is no number from 0.001 to 10.
    BadDensity,
    /// A colorant's type is none of the four.
    BadKind,
    /// A resolution is not two equal whole numbers from 1 to 10,000.
    BadResolution,
    /// The path has no current point.
    NoCurrentPoint,
    /// A coordinate is more than 1,000,000 points from the origin.
    CoordinateRange,
    /// A path has more than 4,096 vertices, or all zones together more than 16,384.
    TooManyVertices,
    /// There are more than 250 zones.
    TooManyZones,
    /// A page that is trapped has no resolution.
    NoPageDevice,
    /// The job ends without `showpage`.
    NoShowpage,
    /// An object stands after `showpage`.
    AfterShowpage,
}

/// A fault and its place: an offset into the job's bytes.
#[derive(Clone, Copy, Debug, Drop, PartialEq, Eq)]
pub struct JobFault {
    pub kind: FaultKind,
    pub at: u32,
}

/// Why a job was not read.
#[derive(Clone, Copy, Debug, Drop, PartialEq, Eq)]
pub enum JobError {
    Fault(JobFault),
    OutOfMemory,
}
