ghost use Rattle.std.specs.Prelude.{◌≡◌, ◌+◌, IsTrue};
ghost use Rattle.trap_c.specs.Places.{IsPlaced, across_of, core_of as core_spec, down_of, is_place as place_spec, is_wide as wide_spec, is_wide_along, lies_along, rows_after as rows_spec};

use crate::layout::Layout;
use page_model::bounds::MOST_SHEET_SIDE;
use sheet_geometry::cuts::Cut;

/// Where a window stands on its sheet, and which of its samples are its core, all in samples, columns from the left and
/// rows from the top: the sheet's sides; the window's first column and row on the sheet; the core's first column and row in
/// the window, and its sides. It is C's `struct trap_place`.
#[repr(C)]
#[derive(Clone, Copy, Debug, Drop, PartialEq, Eq)]
pub struct Place {
    pub sheet_width: u32,
    pub sheet_height: u32,
    pub left: u32,
    pub top: u32,
    pub core_left: u32,
    pub core_top: u32,
    pub core_width: u32,
    pub core_height: u32,
}

/// The columns of a place, or its rows: the sheet's side; where the window begins on it, and its length; where the core
/// begins in the window, and its length.
#[derive(Clone, Copy, Debug, Drop, PartialEq, Eq)]
pub struct Along {
    pub side: u32,
    pub from: u32,
    pub wide: u32,
    pub core_from: u32,
    pub core: u32,
}

/// The core's columns and rows in the window.
pub fn core_of(place: &Place) -> Cut
    ensures { result ≡ core_spec place.now }
{
    Cut {
        left: place.core_left,
        top: place.core_top,
        width: place.core_width,
        height: place.core_height,
    }
}

fn across(layout: Layout, place: &Place) -> Along
    ensures { result ≡ across_of layout place.now }
{
    Along {
        side: place.sheet_width,
        from: place.left,
        wide: layout.width,
        core_from: place.core_left,
        core: place.core_width,
    }
}

fn down(layout: Layout, place: &Place) -> Along
    ensures { result ≡ down_of layout place.now }
{
    Along {
        side: place.sheet_height,
        from: place.top,
        wide: layout.height,
        core_from: place.core_top,
        core: place.core_height,
    }
}

fn sum(a: u32, b: u32) -> u64
    ensures { result ≡ a + b }
{
    u64::from(a) + u64::from(b)
}

fn lies(along: &Along) -> bool
    ensures { result ≡ lies_along along.now }
{
    along.side <= MOST_SHEET_SIDE
        && sum(along.from, along.wide) <= u64::from(along.side)
        && 1 <= along.core
        && sum(along.core_from, along.core) <= u64::from(along.wide)
}

/// Whether the window is within a sheet, and its core, which is not empty, within the window.
pub fn is_place(layout: Layout, place: &Place) -> bool
    ensures value { result ≡ place_spec layout place.now }
    ensures placed { IsTrue result → IsPlaced layout place.now }
{
    lies(&across(layout, place)) && lies(&down(layout, place))
}

fn is_wide_enough(along: &Along, halo: u32) -> bool
    ensures { result ≡ is_wide_along halo along.now }
{
    (along.from == 0 || halo <= along.core_from)
        && (sum(along.from, along.wide) == u64::from(along.side)
            || sum(along.core_from, along.core) + u64::from(halo) <= u64::from(along.wide))
}

/// Whether the window goes on beyond its core by at least `halo` samples, on each side that is no border of the sheet.
pub fn is_wide(layout: Layout, place: &Place, halo: u32) -> bool
    ensures { result ≡ wide_spec halo layout place.now }
{
    is_wide_enough(&across(layout, place), halo) && is_wide_enough(&down(layout, place), halo)
}

/// The number of rows of the sheet below the window.
pub fn rows_after(layout: Layout, place: &Place) -> u32
    requires { IsPlaced layout place.now }
    ensures { result ≡ rows_spec layout place.now }
{
    place.sheet_height - (place.top + layout.height)
}
