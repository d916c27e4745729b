ghost use Rattle.std.specs.Prelude.{◌≡◌, ◌+◌, ◌-◌, ◌*◌, ◌<◌, ◌≤◌, ◌^◌};
ghost use Rattle.page_model.specs.Bands.{AreBands};
ghost use Rattle.band_core.specs.Layouts.{IsLayout};
ghost use Rattle.band_core.specs.Most.{most_cells, most_before};
ghost use Rattle.band_core.specs.Packing.{IsBits};
ghost use Rattle.band_core.specs.Places.{piece_count, per_row, bits_of, lanes_of, cells_in, value_total, cell_total, first_cell_of, cells_of};
ghost use Rattle.page_model.specs.Limits.{most_band_height, most_plates, most_side};

use page_model::bands::Bands;
use std::marker::Model;

/// Where the cells of each piece are in the table, for pages of a width and number of plates, in bands. Cells are
/// numbered from 0, those of piece 0 first.
#[derive(Clone, Copy, Drop)]
pub struct Layout {
    bands: Bands,
    width: u32,
    plates: u32,
}

impl Model for Layout {
    ghost use Rattle.band_core.specs.Layouts.{Layout, IsLayout};

    ghost Value = { Layout };

    ghost view = { λ a. record { bands = a.bands; width = a.width; plates = a.plates } };

    ghost invariant = { λ a. IsLayout
        (record { bands = a.bands; width = a.width; plates = a.plates }) };

    ghost inverse = { λ a. record { bands = a.bands; width = a.width; plates = a.plates } };
}

/// The number of bits of a value of each phase: 8 for zones, 2 for marks, 10 for column answers, 16 for tints.
pub fn bits(phase: u32) -> u32
    ensures value { result ≡ bits_of phase }
    ensures bits { IsBits result }
{
    match phase {
        0 => 8,
        1 => 2,
        2 => 10,
        _ => 16,
    }
}

/// The number of values of a cell of each phase.
pub fn lanes(phase: u32) -> u32
    ensures value { result ≡ lanes_of phase }
    ensures some { 1 ≤ result }
    ensures few { result ≤ 31 }
{
    match phase {
        0 => 7,
        1 => 31,
        2 => 6,
        _ => 3,
    }
}

impl Layout {
    /// The layout for pages with `width` columns and `plates` plates, in these bands.
    pub fn new(width: u32, plates: u32, bands: &Bands) -> Layout
        requires bands { AreBands bands.now }
        requires some_width { 1 ≤ width }
        requires narrow { width ≤ most_side }
        requires some_plates { 1 ≤ plates }
        requires few_plates { plates ≤ most_plates }
        ensures value { result ≡ record { bands = bands.now; width = width; plates = plates } }
        ensures valid { IsLayout result }
    {
        Layout {
            bands: *bands,
            width,
            plates,
        }
    }

    /// The bands.
    pub fn bands(&self) -> &Bands
        ensures value { result.now ≡ self.now.bands }
        ensures valid { IsLayout self.now }
    {
        &self.bands
    }

    /// The number of values of a row of a phase: a zone or a mark for each sample, an answer for each doubled column, a
    /// tint for each plate and sample.
    #[tactic(auto, using(crate::proofs::Places::per_row_few))]
    pub fn row_values(&self, phase: u32) -> u32
        ensures value { result ≡ per_row self.now phase }
        ensures few { result ≤ 262144 }
    {
        match phase {
            2 => 2 * self.width - 1,
            3 => self.plates * self.width,
            _ => self.width,
        }
    }

    /// The number of values of a piece.
    #[tactic(auto, using(crate::proofs::Places::rows_fit))]
    pub fn values(&self, piece: u32) -> u32
        requires piece { piece < piece_count self.now }
        ensures value { result ≡ value_total self.now piece }
    {
        let row = self.row_values(piece / self.bands.count);
        self.bands.rows_of(piece % self.bands.count) * row
    }

    /// The number of cells of a piece.
    #[tactic(auto, using(crate::proofs::Places::some_cells), unfolding(crate::specs::Places::cell_total))]
    pub fn cell_count(&self, piece: u32) -> u32
        requires piece { piece < piece_count self.now }
        ensures value { result ≡ cell_total self.now piece }
        ensures some { 1 ≤ result }
    {
        let rows = self.bands.rows_of(piece % self.bands.count);
        self.cells_of_rows(piece / self.bands.count, rows)
    }

    /// The number of the first cell of a piece.
    pub fn first_cell(&self, piece: u32) -> u32
        requires piece { piece < piece_count self.now }
        ensures value { result ≡ first_cell_of self.now piece }
        ensures bound { result < 2 ^ 31 }
    {
        let phase = piece / self.bands.count;
        let band = piece % self.bands.count;
        self.before_phase(phase) + self.before_band(phase, band)
    }

    /// The number of all cells.
    pub fn cells(&self) -> u32
        ensures value { result ≡ cells_of self.now }
        ensures bound { result < 2 ^ 31 }
    {
        self.before_phase(4)
    }

    // The number of cells of some rows.
    #[tactic(auto, using(crate::proofs::Places::rows_fit))]
    fn cells_of_rows(&self, phase: u32, rows: u32) -> u32
        requires rows { rows ≤ most_band_height }
        ensures { result ≡ cells_in self.now phase rows }
    {
        let lanes = lanes(phase);
        (rows * self.row_values(phase) + lanes - 1) / lanes
    }

    // The number of cells of a phase in the bands before one: these bands have all their rows.
    #[tactic(auto, using(crate::proofs::Places::before_fits))]
    fn before_band(&self, phase: u32, band: u32) -> u32
        requires phase { phase < 4 }
        requires band { band < self.now.bands.count }
        ensures value { result ≡ band * cells_in self.now phase self.now.bands.height }
        ensures bound { result ≤ most_cells phase }
    {
        band * self.cells_of_rows(phase, self.bands.height)
    }

    // The number of cells of a phase.
    #[tactic(auto, using(crate::proofs::Places::all_fit, crate::proofs::Places::next_phase))]
    fn cells_of_phase(&self, phase: u32) -> u32
        requires phase { phase < 4 }
        ensures value { first_cell_of self.now ((phase + 1) * self.now.bands.count)
            ≡ first_cell_of self.now (phase * self.now.bands.count) + result }
        ensures bound { result ≤ most_cells phase }
    {
        let last = self.bands.count - 1;
        self.before_band(phase, last) + self.cells_of_rows(phase, self.bands.rows_of(last))
    }

    // The number of cells of the phases before one.
    fn before_phase(&self, phase: u32) -> u32
        requires phase { phase ≤ 4 }
        ensures value { result ≡ first_cell_of self.now (phase * self.now.bands.count) }
        ensures bound { result ≤ most_before phase }
    {
        let mut start = 0;
        for q in 0..phase {
            start += self.cells_of_phase(q);
        }
        start
    }
}
