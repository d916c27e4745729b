//! A program's words: its arguments.

ghost use Rattle.std.specs.Prelude.{◌≡◌, ◌≢◌, ◌⊎◌, IfErr, IfOk, drop};
ghost use Rattle.std.specs.Vec.Iter.{into_iter_items};
ghost use Rattle.common_errors.specs.Statuses.{not_text, out_of_memory};

use crate::statuses::{NOT_TEXT, OUT_OF_MEMORY};
use std::alloc::{AllocError, Global};
use std::env;
use std::env::Args;
use std::io::ErrorKind;

/// The words after the program's name, or the status to exit with: one of them is not UTF-8, or memory ran out.
pub fn words(rt: &HostRuntime) -> Result<Vec<String>, u8>
    ensures { IfErr result (λ status. (status ≡ not_text) ⊎ (status ≡ out_of_memory)) }
{
    match env::args(rt) {
        Ok(args) => words_of(rt.alloc(), args),
        Err(error) => Err(status_without(error.kind())),
    }
}

/// All arguments of a program but the first, its name; or the status for out of memory.
pub fn words_of(alloc: Global, args: Args) -> Result<Vec<String>, u8>
    ensures words { IfOk result (λ words. words.items ≡ drop 1 (into_iter_items args)) }
    ensures memory { IfErr result (λ status. status ≡ out_of_memory) }
{
    let mut args = args;
    let _name = args.next();
    collect_words(alloc, args).map_err(|_| OUT_OF_MEMORY)
}

/// The status to exit with where the system could not give the words, for this reason.
pub fn status_without(kind: ErrorKind) -> u8
    ensures text { kind ≡ ErrorKind.InvalidData → result ≡ not_text }
    ensures memory { kind ≢ ErrorKind.InvalidData → result ≡ out_of_memory }
{
    match kind {
        ErrorKind::InvalidData => NOT_TEXT,
        _ => OUT_OF_MEMORY,
    }
}

fn collect_words(alloc: Global, args: Args) -> Result<Vec<String>, AllocError>
    ensures { IfOk result (λ words. words.items ≡ into_iter_items args) }
{
    let mut words = Vec::new(alloc);
    for word in args {
        words.push(word)?;
    }
    Ok(words)
}
