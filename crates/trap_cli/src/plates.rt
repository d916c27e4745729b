ghost use Rattle.std.specs.Prelude.{◌≡◌, ◌≤◌, IfOk, IfSome, map, option_map, vec_len};
ghost use Rattle.trap_cli.specs.Plates.{plates_of};
ghost use Rattle.trap_cli.specs.Stored.{plates_in};
ghost use Rattle.page_model.specs.Limits.{most_plates};

use lists::names::OutOfMemory;
use plain_words::plates::{are_plates, stand_together};
use std::alloc::Global;

// The plates of the words, if each has its form and they go together, and with the report.
pub(crate) fn read_plates<'a>(
    alloc: Global,
    report: &str,
    words: &[&'a str],
) -> Result<Option<Vec<&'a str>>, OutOfMemory>
    ensures meaning { IfOk result
        (λ r. option_map (λ v. plates_in v.items) r
        ≡ plates_of report.now (map (λ w. w.now) words.now)) }
    ensures count { IfOk result (λ r. IfSome r (λ v. (1 ≤ vec_len v) × (vec_len v ≤ most_plates))) }
{
    if !are_plates(words) || !stand_together(report, words) {
        return Ok(None);
    }
    match copies_of(alloc, words) {
        Ok(plates) => Ok(Some(plates)),
        Err(OutOfMemory) => Err(OutOfMemory),
    }
}

fn copies_of<'a>(alloc: Global, words: &[&'a str]) -> Result<Vec<&'a str>, OutOfMemory>
    ensures { IfOk result (λ v. v.items ≡ words.now) }
{
    match Vec::from_slice(alloc, words) {
        Ok(copies) => Ok(copies),
        Err(_) => Err(OutOfMemory),
    }
}
