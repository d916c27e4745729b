// The words of a line.

ghost use Rattle.std.specs.Prelude.{◌≡◌, ◌≤◌, false, IfOk, IsTrue, length, map, string_bytes};
ghost use Rattle.std.specs.List.{list_any, slice_split};
ghost use Rattle.plain_words.specs.Parts.{parts_of};
ghost use Rattle.job_list.specs.Lines.{are_plates as plates_spec, is_lf, is_space, line_of, line_of_words as words_spec, line_with};
ghost use Rattle.page_model.specs.Limits.{most_plates};

use crate::line::ListLine;
use lists::names::OutOfMemory;
use plain_words::files::{plate_inputs, plate_names, plate_outputs};
use plain_words::plates::{are_plates, have_distinct_names};
use std::alloc::{AllocError, Global};

// Reads a line's bytes as a job; `None` where they are no line.
pub(crate) fn read_line(alloc: Global, text: &[u8]) -> Result<Option<ListLine>, OutOfMemory>
    requires { list_any is_lf text.now ≡ false }
    ensures { IfOk result (λ line. line ≡ line_of text.now) }
{
    match str::from_utf8(text) {
        Ok(text) => read_words(alloc, words_of(alloc, text)?.as_slice()),
        Err(_) => Ok(None),
    }
}

// The words of a text, with one space between any two.
fn words_of<'a>(alloc: Global, text: &'a str) -> Result<Vec<&'a str>, OutOfMemory>
    ensures { IfOk result (λ words.
        map (λ w. w.now) words.items ≡ slice_split is_space text.now) }
{
    match split(alloc, text) {
        Ok(words) => Ok(words),
        Err(_) => Err(OutOfMemory),
    }
}

fn split<'a>(alloc: Global, text: &'a str) -> Result<Vec<&'a str>, AllocError>
    ensures { IfOk result (λ words.
        map (λ w. w.now) words.items ≡ slice_split is_space text.now) }
{
    text.split(' ').collect(alloc)
}

fn read_words(alloc: Global, words: &[&str]) -> Result<Option<ListLine>, OutOfMemory>
    ensures { IfOk result (λ line. line ≡ words_spec (map (λ w. w.now) words.now)) }
{
    match words {
        [job, report, plates @ ..] => {
            if !job.is_empty() && !report.is_empty() && are_named_plates(plates) {
                Ok(Some(line_of_parts(alloc, *job, *report, plates)?))
            } else {
                Ok(None)
            }
        }
        _ => Ok(None),
    }
}

fn line_of_parts(
    alloc: Global,
    job: &str,
    report: &str,
    plates: &[&str],
) -> Result<ListLine, OutOfMemory>
    requires some { 1 ≤ length plates.now }
    requires few { length plates.now ≤ most_plates }
    ensures { IfOk result (λ line. line
        ≡ line_with job.now report.now (map parts_of (map (λ w. w.now) plates.now))) }
{
    let names = plate_names(alloc, plates)?;
    let inputs = plate_inputs(alloc, plates)?;
    let outs = plate_outputs(alloc, plates)?;
    Ok(ListLine {
        job: text_of(alloc, job)?,
        report: text_of(alloc, report)?,
        names,
        inputs: copies_of(alloc, inputs.as_slice())?,
        outs: copies_of(alloc, outs.as_slice())?,
    })
}

fn text_of(alloc: Global, text: &str) -> Result<String, OutOfMemory>
    ensures { IfOk result (λ copy. string_bytes copy ≡ text.now) }
{
    match String::from_str(alloc, text) {
        Ok(copy) => Ok(copy),
        Err(_) => Err(OutOfMemory),
    }
}

// Copies of these texts.
fn copies_of(alloc: Global, texts: &[&str]) -> Result<Vec<String>, OutOfMemory>
    ensures { IfOk result (λ copies. map string_bytes copies.items
        ≡ map (λ t. t.now) texts.now) }
{
    let mut copies = Vec::new(alloc);
    for text in texts {
        if copies.push(text_of(alloc, *text)?).is_err() {
            return Err(OutOfMemory);
        }
    }
    Ok(copies)
}

// Whether these are one to sixteen words NAME:IN:OUT with different names.
fn are_named_plates(words: &[&str]) -> bool
    ensures value { result ≡ plates_spec (map (λ w. w.now) words.now) }
    ensures count { IsTrue result → (1 ≤ length words.now) × (length words.now ≤ most_plates) }
{
    are_plates(words) && have_distinct_names(words)
}
