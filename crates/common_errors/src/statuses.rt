//! The statuses that a program exits with, by name. They are this project's own.

/// The work is done.
pub const DONE: u8 = 0;

/// A word of the command is not UTF-8. Only a main function gives it.
pub const NOT_TEXT: u8 = 1;

/// The words are no command of the program.
pub const USAGE: u8 = 2;

/// The job has a fault, or lacks the details of a plate's colorant.
pub const JOB_REFUSED: u8 = 3;

/// A plate's file has a fault, or the plates do not make a page.
pub const PAGE_REFUSED: u8 = 4;

/// A file could not be read.
pub const NOT_READ: u8 = 5;

/// A file could not be written, or a result could not be printed.
pub const NOT_WRITTEN: u8 = 6;

/// Out of memory.
pub const OUT_OF_MEMORY: u8 = 7;

/// A trap set has a bad line, or is for other plates.
pub const SET_REFUSED: u8 = 8;

/// Some lines of a list of jobs were refused, and the others are done.
pub const LINES_REFUSED: u8 = 9;
