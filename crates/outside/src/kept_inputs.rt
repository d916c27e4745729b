ghost use Rattle.std.specs.Prelude.{◌≤◌, IfOk, length};

use crate::ahead::{Ahead, read_once};
use crate::tray::DeviceError;
use std::alloc::Allocator;
use std::fs::OpenFile;
use std::io::{Read, Seek};
use std::rt::Files;
use std::{fs, io};

// The system's error code where a process may open no more files (EMFILE).
const TOO_MANY_OPEN: i32 = 24;

// A file that is read. Where it has a name it is kept under it when another file is begun.
#[derive(Drop)]
pub(crate) struct Input<F: Drop, A: Allocator> {
    name: Option<String<A>>,
    file: F,
    is_regular: bool,
}

// Open files that were begun before, by the names that they were opened with.
#[derive(Drop)]
pub(crate) struct KeptInputs<F: Drop, A: Allocator> {
    inputs: Vec<Input<F, A>, A>,
    most: usize,
}

impl<F: Drop, A: Allocator> KeptInputs<F, A> {
    // Keeps no file yet, and later at most `most`.
    pub(crate) fn new(alloc: A, most: usize) -> KeptInputs<F, A> {
        KeptInputs {
            inputs: Vec::new(alloc),
            most,
        }
    }

    // Keeps a file that has a name. Where there are `most` already, or memory runs out, it is closed.
    pub(crate) fn keep(&mut self, input: Option<Input<F, A>>) {
        if let Some(input) = input
            && input.name.is_some()
            && self.inputs.len() < self.most
        {
            let _closed = self.inputs.push(input);
        }
    }

    // Takes out the file that was opened by that name.
    fn take(&mut self, name: &str) -> Option<Input<F, A>> {
        for place in 0..self.inputs.len() {
            if self.inputs[place].is_named(name) {
                return Some(self.inputs.swap_remove(place));
            }
        }
        None
    }
}

impl<F: Drop, A: Allocator> Input<F, A> {
    fn is_named(&self, name: &str) -> bool {
        match &self.name {
            Some(own) => own.as_str() == name,
            None => false,
        }
    }
}

impl<F: Read + Drop, A: Allocator> Input<F, A> {
    // Reads on, in a regular file by way of the buffer.
    pub(crate) fn read(&mut self, ahead: &mut Ahead, buf: &mut [u8]) -> Result<usize, DeviceError>
        ensures within { IfOk result (λ n. n ≤ length buf.new) }
    {
        if self.is_regular {
            ahead.read(&mut self.file, buf)
        } else {
            read_once(&mut self.file, buf)
        }
    }
}

// Begins the file of that name: the one that is kept under it, from its first byte on, or else the one on the disk now.
pub(crate) fn begin_input<R: Files + Alloc>(
    files: &R,
    kept: &mut KeptInputs<R::File, R::A>,
    name: &str,
) -> Option<Input<R::File, R::A>> {
    match kept.take(name) {
        Some(input) => rewound(input),
        None => open_input(files, kept, name),
    }
}

// A file from its first byte on.
fn rewound<F: Seek + Drop, A: Allocator>(input: Input<F, A>) -> Option<Input<F, A>> {
    let mut input = input;
    match input.file.rewind() {
        Ok(_) => Some(input),
        Err(_) => None,
    }
}

// Opens the file of that name. Where too many are open, the kept ones are closed first.
fn open_input<R: Files + Alloc>(
    files: &R,
    kept: &mut KeptInputs<R::File, R::A>,
    name: &str,
) -> Option<Input<R::File, R::A>> {
    let file = fs::open(files, name);
    if are_too_many(&file) && !kept.inputs.is_empty() {
        kept.inputs.clear();
        return input_of(files.alloc(), 0, name, fs::open(files, name).ok());
    }
    input_of(files.alloc(), kept.most, name, file.ok())
}

// Whether a file was not opened since too many are.
fn are_too_many<F>(file: &io::Result<F>) -> bool {
    match file {
        Ok(_) => false,
        Err(error) => error.raw_os_error() == Some(TOO_MANY_OPEN),
    }
}

// A file that was just opened. It will be kept unless memory runs out. One that cannot be begun again, as a pipe, is
// kept too, so that beginning it again fails and does not wait for another writer.
fn input_of<F: OpenFile + Drop, A: Allocator>(
    alloc: A,
    most: usize,
    name: &str,
    file: Option<F>,
) -> Option<Input<F, A>> {
    let file = file?;
    let is_regular = is_regular(&file);
    let name = if most > 0 {
        String::from_str(alloc, name).ok()
    } else {
        None
    };
    Some(Input {
        name,
        file,
        is_regular,
    })
}

fn is_regular<F: OpenFile>(file: &F) -> bool {
    match file.metadata() {
        Ok(metadata) => metadata.is_file(),
        Err(_) => false,
    }
}
