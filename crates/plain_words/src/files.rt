//! The names and the files in the words for plates, each in a list of its own.

ghost use Rattle.std.specs.Prelude.{◌≡◌, IfOk, map};
ghost use Rattle.plain_words.specs.Inputs.{inputs_of, names_of};
ghost use Rattle.plain_words.specs.Parts.{CopyNames, before_colon, copy_of, input_of, parts_of};
ghost use Rattle.plain_words.specs.Plates.{inputs_of as plate_inputs_of, names_of as plate_names_of, outputs_of as plate_outputs_of};
ghost use Rattle.plain_words.specs.Places.{part_at as part_spec};

use crate::places::{Place, part_at};
use lists::list::List;
use lists::memory::push;
use lists::names::{NameList, OutOfMemory, copy_name};
use std::alloc::Global;
use std::convert::AsStr;

// The names of the colorants: what stands before the first colon of each word.
fn first_names<S: AsStr>(alloc: Global, words: &[S]) -> Result<NameList, OutOfMemory>
    ensures { IfOk result (λ names. names ≡ map before_colon (map S.text words.now)) }
{
    let mut names = List::new(alloc);
    for word in words {
        let name = copy_name(alloc, part_at(word.as_str(), Place::First).as_bytes())?;
        push(&mut names, name)?;
    }
    Ok(names)
}

// The file at that place of each word.
fn files_at<'a, S: AsStr>(
    alloc: Global,
    words: &'a [S],
    place: Place,
) -> Result<Vec<&'a str>, OutOfMemory>
    ensures { let named = map (part_spec place) (map S.text words.now) in
        IfOk result (λ files. map (λ file. file.now) files.items ≡ named) }
{
    let mut files = Vec::new(alloc);
    for word in words {
        if files.push(part_at(word.as_str(), place)).is_err() {
            return Err(OutOfMemory);
        }
    }
    Ok(files)
}

/// The colorants' names in words NAME:IN:OUT.
pub fn plate_names<S: AsStr>(alloc: Global, words: &[S]) -> Result<NameList, OutOfMemory>
    ensures { let named = plate_names_of (map parts_of (map S.text words.now)) in
        IfOk result (λ names. names ≡ named) }
{
    first_names(alloc, words)
}

/// The files to read plates from, in words NAME:IN:OUT.
pub fn plate_inputs<S: AsStr>(alloc: Global, words: &[S]) -> Result<Vec<&str>, OutOfMemory>
    ensures { let named = plate_inputs_of (map parts_of (map S.text words.now)) in
        IfOk result (λ files. map (λ file. file.now) files.items ≡ named) }
{
    files_at(alloc, words, Place::Second)
}

/// The files to write plates to, in words NAME:IN:OUT.
pub fn plate_outputs<S: AsStr>(alloc: Global, words: &[S]) -> Result<Vec<&str>, OutOfMemory>
    ensures { let named = plate_outputs_of (map parts_of (map S.text words.now)) in
        IfOk result (λ files. map (λ file. file.now) files.items ≡ named) }
{
    files_at(alloc, words, Place::AfterSecond)
}

/// The colorants' names in words NAME:IN.
pub fn input_names<S: AsStr>(alloc: Global, words: &[S]) -> Result<NameList, OutOfMemory>
    ensures { let named = names_of (map input_of (map S.text words.now)) in
        IfOk result (λ names. names ≡ named) }
{
    first_names(alloc, words)
}

/// The files to read plates from, in words NAME:IN.
pub fn input_files<S: AsStr>(alloc: Global, words: &[S]) -> Result<Vec<&str>, OutOfMemory>
    ensures { let named = inputs_of (map input_of (map S.text words.now)) in
        IfOk result (λ files. map (λ file. file.now) files.items ≡ named) }
{
    files_at(alloc, words, Place::AfterFirst)
}

/// The files to read plates from, in words IN:OUT.
pub fn copy_inputs<S: AsStr>(alloc: Global, words: &[S]) -> Result<Vec<&str>, OutOfMemory>
    ensures { let named = map (λ (p : CopyNames). p.input) (map copy_of (map S.text words.now)) in
        IfOk result (λ files. map (λ file. file.now) files.items ≡ named) }
{
    files_at(alloc, words, Place::First)
}

/// The files to write plates to, in words IN:OUT.
pub fn copy_outputs<S: AsStr>(alloc: Global, words: &[S]) -> Result<Vec<&str>, OutOfMemory>
    ensures { let named = map (λ (p : CopyNames). p.output) (map copy_of (map S.text words.now)) in
        IfOk result (λ files. map (λ file. file.now) files.items ≡ named) }
{
    files_at(alloc, words, Place::AfterFirst)
}
