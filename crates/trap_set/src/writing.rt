// A set is written row by row.

ghost use Rattle.std.specs.Prelude.{◌≡◌, ◌<◌, ◌∷◌, ◌++◌, [], IsTrue, codes, length};
ghost use Rattle.std.specs.List.{flat_map};
ghost use Rattle.lists.specs.Words.{list_below};
ghost use Rattle.page_model.specs.Shapes.{AreOneShape, wide, tall};
ghost use Rattle.trap_set.specs.Holding.{Puts};
ghost use Rattle.trap_set.specs.Rows.{row_text, rows_text, run_text};
ghost use Rattle.trap_set.specs.Runs.{ArePair, run_at, tint_at};
ghost use Rattle.trap_set.specs.SetText.{head_of, number, page_line, run_line, title_line};

use crate::holding::{Stored, put, put_number};
use crate::samples::{begins_at, run_length, skip_same, tint_of};
use outside::rack::Rack;
use outside::tray::DeviceError;
use page_model::parts::PlaneList;

/// Appends a space and a number, for each of these numbers.
fn put_numbers<R: Rack>(
    rack: &mut R,
    stored: &mut Stored,
    numbers: &[u32],
) -> Result<(), DeviceError>
    requires { IsTrue (R.state rack.old).is_open }
    ensures { Puts (flat_map number numbers.now)
        stored.old.items stored.new.items (R.state rack.old) (R.state rack.new) result }
{
    for n in numbers {
        put_number(rack, stored, *n)?;
    }
    Ok(())
}

/// Appends a sample's tints.
fn put_tints<R: Rack>(
    rack: &mut R,
    stored: &mut Stored,
    planes: &PlaneList,
    x: u32,
    y: u32,
) -> Result<(), DeviceError>
    requires is_open { IsTrue (R.state rack.old).is_open }
    requires shape { AreOneShape planes.now }
    requires column { x < wide planes.now }
    requires row { y < tall planes.now }
    ensures { Puts (flat_map number (list_below
        (λ c. tint_at planes.now c x y) (length planes.now)))
        stored.old.items stored.new.items (R.state rack.old) (R.state rack.new) result }
{
    for c in 0..planes.len() as u32 {
        put_number(rack, stored, u32::from(tint_of(planes, c, x, y)))?;
    }
    Ok(())
}

/// Appends the first words of a run's line: its row, its column, and its number of samples.
fn put_place<R: Rack>(
    rack: &mut R,
    stored: &mut Stored,
    x: u32,
    y: u32,
    count: u32,
) -> Result<(), DeviceError>
    requires { IsTrue (R.state rack.old).is_open }
    ensures { Puts (codes "run" ++ flat_map number (y ∷ x ∷ count ∷ []))
        stored.old.items stored.new.items (R.state rack.old) (R.state rack.new) result }
{
    put(rack, stored, b"run")?;
    put_numbers(rack, stored, &[y, x, count])
}

/// Appends a sample's tints and the end of the line.
fn put_last_tints<R: Rack>(
    rack: &mut R,
    stored: &mut Stored,
    planes: &PlaneList,
    x: u32,
    y: u32,
) -> Result<(), DeviceError>
    requires is_open { IsTrue (R.state rack.old).is_open }
    requires shape { AreOneShape planes.now }
    requires column { x < wide planes.now }
    requires row { y < tall planes.now }
    ensures { Puts (flat_map number (list_below (λ c. tint_at planes.now c x y) (length planes.now))
        ++ 10 ∷ []) stored.old.items stored.new.items (R.state rack.old) (R.state rack.new) result }
{
    put_tints(rack, stored, planes, x, y)?;
    put(rack, stored, b"\n")
}

/// Appends the line of the run that begins at a sample.
fn put_run<R: Rack>(
    rack: &mut R,
    stored: &mut Stored,
    old: &PlaneList,
    new: &PlaneList,
    x: u32,
    y: u32,
    width: u32,
) -> Result<(), DeviceError>
    requires is_open { IsTrue (R.state rack.old).is_open }
    requires pair { ArePair old.now new.now }
    requires width { width ≡ wide old.now }
    requires column { x < width }
    requires row { y < tall old.now }
    ensures { Puts (run_line (run_at old.now new.now x y))
        stored.old.items stored.new.items (R.state rack.old) (R.state rack.new) result }
{
    let count = run_length(old, new, x, y, width);
    put_place(rack, stored, x, y, count)?;
    put_last_tints(rack, stored, new, x, y)
}

/// Appends the line of the run that begins at a sample, if one does.
fn put_sample<R: Rack>(
    rack: &mut R,
    stored: &mut Stored,
    old: &PlaneList,
    new: &PlaneList,
    x: u32,
    y: u32,
    width: u32,
) -> Result<(), DeviceError>
    requires is_open { IsTrue (R.state rack.old).is_open }
    requires pair { ArePair old.now new.now }
    requires width { width ≡ wide old.now }
    requires column { x < width }
    requires row { y < tall old.now }
    ensures { Puts (run_text old.now new.now y x)
        stored.old.items stored.new.items (R.state rack.old) (R.state rack.new) result }
{
    if begins_at(old, new, x, y) {
        return put_run(rack, stored, old, new, x, y, width);
    }
    Ok(())
}

/// Appends the lines of the runs of a row. Spans in which nothing changes are skipped.
fn put_row<R: Rack>(
    rack: &mut R,
    stored: &mut Stored,
    old: &PlaneList,
    new: &PlaneList,
    y: u32,
    width: u32,
) -> Result<(), DeviceError>
    requires is_open { IsTrue (R.state rack.old).is_open }
    requires pair { ArePair old.now new.now }
    requires width { width ≡ wide old.now }
    requires row { y < tall old.now }
    ensures { Puts (row_text old.now new.now y (wide old.now))
        stored.old.items stored.new.items (R.state rack.old) (R.state rack.new) result }
{
    let mut x = 0;
    while x < width {
        let next = skip_same(old, new, y, x, width);
        if x < next {
            x = next;
        } else {
            put_sample(rack, stored, old, new, x, y, width)?;
            x += 1;
        }
    }
    Ok(())
}

/// Appends the lines of all runs.
pub(crate) fn put_rows<R: Rack>(
    rack: &mut R,
    stored: &mut Stored,
    old: &PlaneList,
    new: &PlaneList,
    width: u32,
    height: u32,
) -> Result<(), DeviceError>
    requires is_open { IsTrue (R.state rack.old).is_open }
    requires pair { ArePair old.now new.now }
    requires width { width ≡ wide old.now }
    requires height { height ≡ tall old.now }
    ensures { Puts (rows_text old.now new.now (tall old.now))
        stored.old.items stored.new.items (R.state rack.old) (R.state rack.new) result }
{
    for y in 0..height {
        put_row(rack, stored, old, new, y, width)?;
    }
    Ok(())
}

/// Appends the first line, and the sides and the maxval of the second.
fn put_sides<R: Rack>(
    rack: &mut R,
    stored: &mut Stored,
    width: u32,
    height: u32,
    maxval: u32,
) -> Result<(), DeviceError>
    requires { IsTrue (R.state rack.old).is_open }
    ensures { Puts ((title_line ++ codes "page") ++ flat_map number (width ∷ height ∷ maxval ∷ []))
        stored.old.items stored.new.items (R.state rack.old) (R.state rack.new) result }
{
    put(rack, stored, b"trap set\npage")?;
    put_numbers(rack, stored, &[width, height, maxval])
}

/// Appends the number of planes.
fn put_count<R: Rack>(rack: &mut R, stored: &mut Stored, plates: u32) -> Result<(), DeviceError>
    requires { IsTrue (R.state rack.old).is_open }
    ensures { Puts (codes " plates" ++ number plates)
        stored.old.items stored.new.items (R.state rack.old) (R.state rack.new) result }
{
    put(rack, stored, b" plates")?;
    put_number(rack, stored, plates)
}

/// Appends the number of planes, and the end of the line.
fn put_plates<R: Rack>(rack: &mut R, stored: &mut Stored, plates: u32) -> Result<(), DeviceError>
    requires { IsTrue (R.state rack.old).is_open }
    ensures { Puts ((codes " plates" ++ number plates) ++ 10 ∷ [])
        stored.old.items stored.new.items (R.state rack.old) (R.state rack.new) result }
{
    put_count(rack, stored, plates)?;
    put(rack, stored, b"\n")
}

/// Appends the first two lines.
pub(crate) fn put_head<R: Rack>(
    rack: &mut R,
    stored: &mut Stored,
    planes: &PlaneList,
) -> Result<(), DeviceError>
    requires is_open { IsTrue (R.state rack.old).is_open }
    requires shape { AreOneShape planes.now }
    ensures { Puts (title_line ++ page_line (head_of planes.now))
        stored.old.items stored.new.items (R.state rack.old) (R.state rack.new) result }
{
    let first = &planes.as_slice()[0];
    let plates = planes.len() as u32;
    put_sides(rack, stored, first.width, first.height, first.maxval)?;
    put_plates(rack, stored, plates)
}
