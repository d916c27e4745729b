// What the page of two tiles is after trapping: the edge between column 7 and column 8 decides in each row, and cyan
// spreads under black as far as sample 13.
ghost use Rattle.std.specs.Prelude.{◌≡◌, ℕ, ◌<◌};
ghost use Rattle.band_claims.specs.TableKeys.{IsFit};
ghost use Rattle.band_pieces.specs.Fills.{HasCells};
ghost use Rattle.page_model.specs.Page.{height, plates, width};

use band_claims::Closed;
use band_pieces::{read_marks, read_tints, read_zones};
use page_model::page::Page;
use row_values::Rows;

fn tint_at(plate: usize, x: usize) -> u16 {
    match plate {
        0 => if x < 14 { 255 } else { 0 },
        3 => if x < 8 { 0 } else { 255 },
        _ => 0,
    }
}

/// Whether these are the tints of a row, plate after plate.
fn are_tints(tints: &[u16]) -> bool {
    let mut all = true;
    for k in 0..tints.len() {
        all = all & (tints[k] == tint_at(k / 16, k % 16));
    }
    all
}

/// Whether these are the marks and the zones of a row.
fn are_marks(marks: &[u8], zones: &[u8]) -> bool {
    let mut all = true;
    for x in 0..marks.len() {
        all = all & (marks[x] == if x == 7 { 1 } else { 0 });
    }
    for x in 0..zones.len() {
        all = all & (zones[x] == 0);
    }
    all
}

/// Whether row y is, in the cells, what it is after trapping.
fn is_row(closed: &Closed, page: &Page, y: u32) -> bool
    requires fit { IsFit closed.now.table_key }
    requires page { page.now ≡ closed.now.table_key.page.value }
    requires cells { (i : ℕ) → HasCells closed.now i }
    requires row { y < height page.now }
    requires wide { width page.now ≡ 16 }
    requires deep { plates page.now ≡ 4 }
{
    let rows = Rows { first: y, count: 1 };
    let mut tints = [9u16; 64];
    read_tints(closed, &mut (), page, closed.layout(), rows, &mut tints);
    let mut marks = [9u8; 16];
    read_marks(closed, &mut (), page, closed.layout(), rows, &mut marks);
    let mut zones = [9u8; 16];
    read_zones(closed, &mut (), page, closed.layout(), rows, &mut zones);
    are_tints(&tints) && are_marks(&marks, &zones)
}

/// Whether the cells are those of the page of two tiles, and every piece is done.
pub fn is_whole(closed: &Closed, page: &Page) -> bool
    requires fit { IsFit closed.now.table_key }
    requires page { page.now ≡ closed.now.table_key.page.value }
    requires cells { (i : ℕ) → HasCells closed.now i }
{
    let _valid = page.plates();
    if page.width() != 16 || page.plates() != 4 || page.height() != 8 {
        return false;
    }
    let mut all = true;
    for y in 0..8 {
        all = is_row(closed, page, y) && all;
    }
    all
}
