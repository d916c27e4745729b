// Rows of a page that follow one another, and lists that hold values of rows.

ghost use Rattle.std.specs.Prelude.{◌≡◌, ◌<◌, ◌≤◌, ◌+◌, ◌*◌, ℕ, length, slice_index};
ghost use Rattle.page_model.specs.Limits.{most_column, most_side};

/// The rows `first..first + count` of a page.
#[derive(Clone, Copy, Debug, Drop, PartialEq, Eq)]
pub struct Rows {
    pub first: u32,
    pub count: u32,
}

/// Row k of a list of bytes with `width` of them a row.
pub(crate) fn row_of_bytes<'a>(items: &'a [u8], width: usize, k: usize) -> &'a [u8]
    requires narrow { width ≤ most_side }
    requires row { k ≤ most_side }
    requires inside { (k + 1) * width ≤ length items.now }
    ensures len { length result.now ≡ width }
    ensures each { (x : ℕ) → x < width
        → slice_index result.now x ≡ slice_index items.now (k * width + x) }
{
    let start = k * width;
    &items[start..start + width]
}

/// Row k of a list of numbers with `wide` of them a row.
pub fn row_of<'a>(items: &'a [u16], wide: usize, k: usize) -> &'a [u16]
    requires narrow { wide ≤ most_column + 1 }
    requires row { k ≤ most_side }
    requires inside { (k + 1) * wide ≤ length items.now }
    ensures len { length result.now ≡ wide }
    ensures each { (x : ℕ) → x < wide
        → slice_index result.now x ≡ slice_index items.now (k * wide + x) }
{
    let start = k * wide;
    &items[start..start + wide]
}
