ghost use Rattle.std.specs.Prelude.{◌≡◌, ◌++◌, [], IsTrue, OnOk};
ghost use Rattle.outside.specs.Writing.{FillsFile, WritesFile};
ghost use Rattle.page_model.specs.Shapes.{wide, tall};
ghost use Rattle.trap_set.specs.Holding.{Puts};
ghost use Rattle.trap_set.specs.Rows.{rows_text};
ghost use Rattle.trap_set.specs.Runs.{ArePair};
ghost use Rattle.trap_set.specs.SetText.{head_of, page_line, set_text, title_line};

use crate::holding::{Stored, flush, put};
use crate::writing::{put_head, put_rows};
use outside::rack::Rack;
use outside::tray::DeviceError;
use page_model::parts::PlaneList;

/// Appends the first two lines, and those of the runs.
fn put_lines<R: Rack>(
    rack: &mut R,
    stored: &mut Stored,
    old: &PlaneList,
    new: &PlaneList,
    width: u32,
    height: u32,
) -> Result<(), DeviceError>
    requires is_open { IsTrue (R.state rack.old).is_open }
    requires pair { ArePair old.now new.now }
    requires width { width ≡ wide old.now }
    requires height { height ≡ tall old.now }
    ensures { Puts ((title_line ++ page_line (head_of old.now))
        ++ rows_text old.now new.now (tall old.now))
        stored.old.items stored.new.items (R.state rack.old) (R.state rack.new) result }
{
    put_head(rack, stored, old)?;
    put_rows(rack, stored, old, new, width, height)
}

/// Appends the whole set.
fn put_set<R: Rack>(
    rack: &mut R,
    stored: &mut Stored,
    old: &PlaneList,
    new: &PlaneList,
    width: u32,
    height: u32,
) -> Result<(), DeviceError>
    requires is_open { IsTrue (R.state rack.old).is_open }
    requires pair { ArePair old.now new.now }
    requires width { width ≡ wide old.now }
    requires height { height ≡ tall old.now }
    ensures { Puts (set_text old.now new.now)
        stored.old.items stored.new.items (R.state rack.old) (R.state rack.new) result }
{
    put_lines(rack, stored, old, new, width, height)?;
    put(rack, stored, b"end\n")
}

/// Appends the whole set, and writes all of it.
fn put_whole<R: Rack>(
    rack: &mut R,
    stored: &mut Stored,
    old: &PlaneList,
    new: &PlaneList,
    width: u32,
    height: u32,
) -> Result<(), DeviceError>
    requires is_open { IsTrue (R.state rack.old).is_open }
    requires pair { ArePair old.now new.now }
    requires width { width ≡ wide old.now }
    requires height { height ≡ tall old.now }
    ensures puts { Puts (set_text old.now new.now)
        stored.old.items stored.new.items (R.state rack.old) (R.state rack.new) result }
    ensures none { OnOk result (stored.new.items ≡ []) }
{
    put_set(rack, stored, old, new, width, height)?;
    flush(rack, stored)
}

/// Writes the set to the open file.
fn fill_set<R: Rack>(rack: &mut R, old: &PlaneList, new: &PlaneList) -> Result<(), DeviceError>
    requires is_open { IsTrue (R.state rack.old).is_open }
    requires pair { ArePair old.now new.now }
    ensures { FillsFile (set_text old.now new.now) (R.state rack.old) (R.state rack.new) result }
{
    let first = &old.as_slice()[0];
    let mut stored = Stored::new();
    put_whole(rack, &mut stored, old, new, first.width, first.height)?;
    rack.finish()
}

/// Writes the set of the changes between two lists of planes of one shape to the file `name`. It allocates nothing.
pub fn write_set<R: Rack>(
    rack: &mut R,
    name: &str,
    old: &PlaneList,
    new: &PlaneList,
) -> Result<(), DeviceError>
    requires { ArePair old.now new.now }
    ensures { WritesFile name.now (set_text old.now new.now)
        (R.state rack.old) (R.state rack.new) result }
{
    rack.create(name)?;
    fill_set(rack, old, new)
}
