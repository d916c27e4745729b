// The rows of a piece's band, and the rows near them that it needs.
ghost use Rattle.std.specs.Prelude.{◌≡◌, ℕ, ◌+◌, ◌<◌, ◌≤◌};
ghost use Rattle.page_model.specs.Bands.{AreBands, pieces_of};
ghost use Rattle.page_model.specs.Columns.{halo};
ghost use Rattle.band_pieces.specs.Spans.{rows_of_piece};

use page_model::bands::Bands;
use row_values::Rows;

/// The rows of the band of a piece.
pub(crate) fn rows_of(bands: &Bands, piece: u32) -> Rows
    requires bands { AreBands bands.now }
    requires piece { piece < pieces_of bands.now }
    ensures value { result ≡ rows_of_piece bands.now piece }
    ensures some { 1 ≤ result.count }
    ensures inside { result.first + result.count ≤ bands.now.rows }
    ensures few { result.count ≤ bands.now.height }
{
    let band = piece % bands.count;
    Rows {
        first: bands.first(band),
        count: bands.rows_of(band),
    }
}

/// These rows, and the row below them if the page has one.
pub(crate) fn rows_below(bands: &Bands, rows: Rows) -> Rows
    requires bands { AreBands bands.now }
    requires inside { rows.first + rows.count ≤ bands.now.rows }
    ensures first { result.first ≡ rows.first }
    ensures here { rows.count ≤ result.count }
    ensures few { result.count ≤ rows.count + 1 }
    ensures inside { result.first + result.count ≤ bands.now.rows }
    ensures below { rows.first + rows.count < bands.now.rows → rows.count < result.count }
{
    Rows {
        first: rows.first,
        count: (rows.count + 1).min(bands.rows - rows.first),
    }
}

/// These rows, and those of the page within its reach above and below them.
pub(crate) fn rows_near(bands: &Bands, rows: Rows) -> Rows
    requires bands { AreBands bands.now }
    requires inside { rows.first + rows.count ≤ bands.now.rows }
    ensures above { result.first ≤ rows.first }
    ensures under { rows.first + rows.count ≤ result.first + result.count }
    ensures near_above { rows.first ≤ result.first + halo bands.now.reach2 }
    ensures near_under { result.first + result.count
        ≤ rows.first + rows.count + halo bands.now.reach2 }
    ensures inside { result.first + result.count ≤ bands.now.rows }
    ensures far_above { (row : ℕ) → rows.first ≤ row + halo bands.now.reach2 → result.first ≤ row }
    ensures far_under { (row : ℕ) → row < bands.now.rows
        → row < rows.first + rows.count + halo bands.now.reach2
        → row < result.first + result.count }
{
    let halo = (bands.reach2 + 1) / 2;
    let first = rows.first.saturating_sub(halo);
    Rows {
        first,
        count: (rows.first + rows.count + halo).min(bands.rows) - first,
    }
}
