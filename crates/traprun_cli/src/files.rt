// The files that the pages of a run are written to.

ghost use Rattle.std.specs.Prelude.{◌≡◌, IfOk, map, string_bytes};
ghost use Rattle.plain_words.specs.Parts.{parts_of};
ghost use Rattle.plain_words.specs.Plates.{outputs_of as outputs_spec};
ghost use Rattle.traprun_cli.specs.Pages.{numbered as numbered_spec};

use lists::names::OutOfMemory;
use plain_words::parts::plate_parts;
use std::alloc::Global;

/// The files that the plates of page number `page` are written to.
pub fn outputs_at(alloc: Global, words: &[String], page: u32) -> Result<Vec<String>, OutOfMemory>
    ensures { let named = outputs_spec (map parts_of (map string_bytes words.now)) in
        IfOk result (λ files. map string_bytes files.items ≡ map (numbered_spec page) named) }
{
    let mut files = Vec::new(alloc);
    for word in words {
        let file = numbered_name(alloc, plate_parts(word.as_str()).output, page)?;
        if files.push(file).is_err() {
            return Err(OutOfMemory);
        }
    }
    Ok(files)
}

/// A name followed by `.` and the number of a page.
pub fn numbered_name(alloc: Global, name: &str, page: u32) -> Result<String, OutOfMemory>
    ensures { IfOk result (λ file. string_bytes file ≡ numbered_spec page name.now) }
{
    match format!(in alloc; "{name}.{page}") {
        Ok(file) => Ok(file),
        Err(_) => Err(OutOfMemory),
    }
}
