// The new tints of a row, plate by plate: written to the planes and counted, while they are in the cache.

ghost use Rattle.std.specs.Prelude.{◌≡◌, ◌<◌, ◌≤◌, ◌+◌, ◌*◌, ◌||◌, false, ℕ, length, slice_index_or};
ghost use Rattle.lists.specs.Words.{count_below};
ghost use Rattle.page_model.specs.Counts.{plate_changes, sample_changes};
ghost use Rattle.page_model.specs.Page.{height, plates, width};
ghost use Rattle.page_tally.specs.Standing.{ArePlatesCounted, AreTrappedTo, IsNewRow, IsTrappedTo};

use crate::changes::{note_differences, plate_row};
use crate::planes::put_plate_row;
use page_model::page::Page;
use page_model::parts::{Plane, PlaneList};
use row_values::tints_of_row;

/// Writes the new tints of plate c to row y of its plane, marks the samples that change, and returns how many do. The
/// rows are compared once: if they are equal, nothing else is done.
fn take_plate(
    page: &Page,
    row: &[u16],
    y: u32,
    c: u32,
    plane: &mut Plane,
    changes: &mut [bool],
) -> u64
    requires row { IsNewRow page.now y row.now }
    requires line { y < height page.now }
    requires plate { c < plates page.now }
    requires plane { IsTrappedTo page.now c (y * width page.now) plane.old }
    requires changes { length changes.old ≡ width page.now }
    ensures plane { IsTrappedTo page.now c ((y + 1) * width page.now) plane.new }
    ensures count { result ≡ count_below (λ x. plate_changes page.now c (record { x = x; y = y }))
        (width page.now) }
    ensures few { result ≤ width page.now }
    ensures len { length changes.new ≡ width page.now }
    ensures each { (x : ℕ) → x < width page.now → slice_index_or changes.new x false
        ≡ (slice_index_or changes.old x false
        || plate_changes page.now c (record { x = x; y = y })) }
{
    let after = plate_row(page, row, y, c);
    let count = put_plate_row(page, y, c, after, plane);
    if count > 0 {
        note_differences(tints_of_row(page, c, y), after, changes);
    }
    count
}

/// Adds the new tints of row y: writes them to the planes, counts for each plate the samples that change, and marks
/// those at which some plate changes.
pub fn take_plates(
    page: &Page,
    row: &[u16],
    y: u32,
    planes: &mut PlaneList,
    counts: &mut [u64],
    changes: &mut [bool],
)
    requires row { IsNewRow page.now y row.now }
    requires line { y < height page.now }
    requires planes { AreTrappedTo page.now planes.old (y * width page.now) }
    requires counts { ArePlatesCounted page.now (y * width page.now) counts.old }
    requires changes { length changes.old ≡ width page.now }
    ensures planes { AreTrappedTo page.now planes.new ((y + 1) * width page.now) }
    ensures counts { ArePlatesCounted page.now ((y + 1) * width page.now) counts.new }
    ensures len { length changes.new ≡ width page.now }
    ensures each { (x : ℕ) → x < width page.now → slice_index_or changes.new x false
        ≡ sample_changes page.now (record { x = x; y = y }) }
{
    let _valid = page.plates();
    changes.fill(false);
    for c in 0..page.plates() {
        let plane = planes.item_mut(c as usize);
        counts[c as usize] += take_plate(page, row, y, c, plane, changes);
    }
}
