ghost use Rattle.std.specs.Prelude.{◌≡◌, ◌+◌, ◌*◌, ◌<◌, ◌≤◌, ℕ, length, slice_index};
ghost use Rattle.page_model.specs.Limits.{most_sheet_side};
ghost use Rattle.draw_back.specs.Fields.{Lists, entry};

use std::marker::Model;

/// Rows of a page as marks and one ink's tints: `width * height` of each, row by row from the top. A mark is 0 where
/// the pixel is not covered, 2 where it is covered and may change, and 1 where it is covered and stays.
#[derive(Drop)]
pub struct Field<'a> {
    width: usize,
    height: usize,
    marks: &'a [u8],
    tints: &'a [u16],
}

impl<'a> Model for Field<'a> {
    ghost use Rattle.std.specs.Prelude.{◌≤◌};
    ghost use Rattle.page_model.specs.Limits.{most_sheet_side};
    ghost use Rattle.draw_back.specs.Fields.{AreFull, Lists};

    ghost Value = { Lists };

    ghost view = { λ f. record {
      wide = f.width;
      tall = f.height;
      marks = f.marks.now;
      tints = f.tints.now;
    } };

    ghost invariant = { λ f. (f.width ≤ most_sheet_side) × (f.height ≤ most_sheet_side)
        × AreFull (record {
          wide = f.width;
          tall = f.height;
          marks = f.marks.now;
          tints = f.tints.now;
        }) };
}

/// Row k of a list with `width` entries a row.
fn row_of_bytes<'a>(items: &'a [u8], width: usize, k: usize) -> &'a [u8]
    requires narrow { width ≤ most_sheet_side }
    requires low { k ≤ most_sheet_side }
    requires inside { (k + 1) * width ≤ length items.now }
    ensures len { length result.now ≡ width }
    ensures each { (x : ℕ) → x < width
        → slice_index result.now x ≡ slice_index items.now (k * width + x) }
{
    let start = k * width;
    &items[start..start + width]
}

/// Row k of a list with `width` entries a row.
fn row_of_tints<'a>(items: &'a [u16], width: usize, k: usize) -> &'a [u16]
    requires narrow { width ≤ most_sheet_side }
    requires low { k ≤ most_sheet_side }
    requires inside { (k + 1) * width ≤ length items.now }
    ensures len { length result.now ≡ width }
    ensures each { (x : ℕ) → x < width
        → slice_index result.now x ≡ slice_index items.now (k * width + x) }
{
    let start = k * width;
    &items[start..start + width]
}

impl<'a> Field<'a> {
    /// The rows of these lists.
    pub fn new(width: usize, height: usize, marks: &'a [u8], tints: &'a [u16]) -> Field<'a>
        requires narrow { width ≤ most_sheet_side }
        requires low { height ≤ most_sheet_side }
        requires marks { length marks.now ≡ width * height }
        requires tints { length tints.now ≡ width * height }
        ensures { result ≡ record {
          wide = width;
          tall = height;
          marks = marks.now;
          tints = tints.now;
        } }
    {
        Field {
            width,
            height,
            marks,
            tints,
        }
    }

    /// The columns.
    pub(crate) fn width(&self) -> usize
        ensures width { result ≡ self.now.wide }
        ensures narrow { result ≤ most_sheet_side }
    {
        self.width
    }

    /// The rows.
    pub(crate) fn height(&self) -> usize
        ensures height { result ≡ self.now.tall }
        ensures low { result ≤ most_sheet_side }
    {
        self.height
    }

    /// The marks of row k.
    pub(crate) fn marks(&self, k: usize) -> &[u8]
        requires { k < self.now.tall }
        ensures len { length result.now ≡ self.now.wide }
        ensures each { (x : ℕ) → x < self.now.wide
            → slice_index result.now x ≡ entry self.now.marks self.now.wide x k }
    {
        row_of_bytes(self.marks, self.width, k)
    }

    /// The tints of row k.
    pub(crate) fn tints(&self, k: usize) -> &[u16]
        requires { k < self.now.tall }
        ensures len { length result.now ≡ self.now.wide }
        ensures each { (x : ℕ) → x < self.now.wide
            → slice_index result.now x ≡ entry self.now.tints self.now.wide x k }
    {
        row_of_tints(self.tints, self.width, k)
    }
}
