// The rows of a strip.

ghost use Rattle.std.specs.Prelude.{◌≡◌, ◌+◌, ◌-◌, ◌<◌, ◌≤◌, ℕ, length, map};
ghost use Rattle.page_model.specs.Planes.{tints_of};
ghost use Rattle.plate_rows.specs.Rereading.{IsReadTo, ReadsNext};
ghost use Rattle.plate_rows.specs.Trays.{open_at, tray_at};
ghost use Rattle.sheet_stream.specs.Holding.{AreAlike};
ghost use Rattle.sheet_stream.specs.RowReading.{ReadsStrip, with_rows};
ghost use Rattle.page_model.specs.Limits.{most_plates};

use crate::common::copy_planes;
use lists::list::List;
use outside::tray::Tray;
use page_model::parts::PageParts;
use pgm_plates::rows::OpenPlate;
use plate_rows::error::RereadError;
use plate_rows::rereading::{NextRows, read_next};
use std::alloc::Global;

/// Reads the first rows of each plate, plate k by tray k, and fills the strip's planes. `bytes` is the buffer that
/// samples are read through, piece by piece. It allocates nothing.
///
/// It stops at the first plate that has a fault now or can't be read; the strip's tints must not be used then.
pub fn read_strip<T: Tray>(
    alloc: Global,
    trays: &mut [T],
    plates: &[OpenPlate],
    strip: &mut PageParts,
    bytes: &mut [u8],
) -> Result<(), RereadError>
    requires few { length plates.now ≤ most_plates }
    requires trays { length plates.now ≤ length trays.old }
    requires planes { length strip.old.planes ≡ length plates.now }
    requires read { (k : ℕ) → k < length plates.now → IsReadTo (open_at plates.now k) 0
        (length (tints_of strip.old.planes k)) (tray_at (map T.state trays.old) k) }
    requires workspace { 2 ≤ length bytes.old }
    ensures { ReadsStrip plates.now (record { done = 0; kept = 0 }) 0 strip.old strip.new
        (map T.state trays.old) (map T.state trays.new) result }
{
    let top = NextRows { done: 0, kept: 0 };
    fill_planes(alloc, trays, plates, top, strip, bytes)
}

/// Makes the rows of the next strip: those that it has in common with the current strip are copied from it, after the
/// first `by` tints of each of its planes, and the next rows of each plate are read after them, plate k by tray k,
/// until the next strip's planes are full. `bytes` is the buffer that samples are read through, piece by piece. It
/// allocates nothing.
///
/// It stops at the first plate that has a fault now or can't be read; the next strip's tints must not be used then.
pub fn read_ahead<T: Tray>(
    alloc: Global,
    trays: &mut [T],
    plates: &[OpenPlate],
    next: NextRows,
    strip: &PageParts,
    by: usize,
    ahead: &mut PageParts,
    bytes: &mut [u8],
) -> Result<(), RereadError>
    requires few { length plates.now ≤ most_plates }
    requires trays { length plates.now ≤ length trays.old }
    requires planes { length strip.now.planes ≡ length plates.now }
    requires alike { AreAlike strip.now.planes ahead.old.planes }
    requires common { (k : ℕ) → k < length plates.now
        → by + next.kept ≤ length (tints_of strip.now.planes k) }
    requires read { (k : ℕ) → k < length plates.now → IsReadTo (open_at plates.now k) next.done
        (length (tints_of strip.now.planes k) - next.kept) (tray_at (map T.state trays.old) k) }
    requires workspace { 2 ≤ length bytes.old }
    ensures { ReadsStrip plates.now next by (with_rows strip.now ahead.old) ahead.new
        (map T.state trays.old) (map T.state trays.new) result }
{
    copy_planes(alloc, &strip.planes, by, next.kept, &mut ahead.planes);
    fill_planes(alloc, trays, plates, next, ahead, bytes)
}

// Reads the next rows of each plate after those that are kept, until the strip's planes are full.
fn fill_planes<T: Tray>(
    alloc: Global,
    trays: &mut [T],
    plates: &[OpenPlate],
    next: NextRows,
    strip: &mut PageParts,
    bytes: &mut [u8],
) -> Result<(), RereadError>
    requires few { length plates.now ≤ most_plates }
    requires trays { length plates.now ≤ length trays.old }
    requires planes { length strip.old.planes ≡ length plates.now }
    requires kept { (k : ℕ) → k < length plates.now
        → next.kept ≤ length (tints_of strip.old.planes k) }
    requires read { (k : ℕ) → k < length plates.now → IsReadTo (open_at plates.now k) next.done
        (length (tints_of strip.old.planes k) - next.kept) (tray_at (map T.state trays.old) k) }
    requires workspace { 2 ≤ length bytes.old }
    ensures read { ReadsNext plates.now next strip.old.planes strip.new.planes
        (map T.state trays.old) (map T.state trays.new) result }
    ensures count { length strip.new.planes ≡ length strip.old.planes }
    ensures resolution { strip.new.resolution ≡ strip.old.resolution }
    ensures inks { strip.new.inks ≡ strip.old.inks }
    ensures zones { strip.new.zones ≡ strip.old.zones }
{
    let mut planes = std::mem::replace(&mut strip.planes, List::new(alloc)).into_vec();
    let result = read_next(alloc, trays, plates, next, planes.as_mut_slice(), bytes);
    strip.planes = List::from_vec(planes);
    result
}
