ghost use Rattle.std.specs.Prelude.{◌≡◌, ◌<◌, ◌≤◌};
ghost use Rattle.page_model.specs.Bands.{AreBands, first_row, rows_in};
ghost use Rattle.page_model.specs.Limits.{most_band_height, most_reach, most_side};

/// A page of `rows` rows, cut from the top into `count` bands of `height` rows; the last band may have fewer. `reach2`
/// is the reach of the page in half-samples. `Bands::new` makes it.
#[derive(Clone, Copy, Debug, Drop, PartialEq, Eq)]
pub struct Bands {
    pub rows: u32,
    pub height: u32,
    pub count: u32,
    pub reach2: u32,
}

impl Bands {
    /// Cuts a page of `rows` rows into bands of `height` rows. `reach2` is the page's reach in half-samples.
    #[tactic(auto, using(crate::proofs::BandLemmas::some_bands, crate::proofs::BandLemmas::few_bands))]
    pub fn new(rows: u32, height: u32, reach2: u32) -> Bands
        requires some_rows { 1 ≤ rows }
        requires few_rows { rows ≤ most_side }
        requires some_height { 1 ≤ height }
        requires low { height ≤ most_band_height }
        requires near { reach2 ≤ most_reach }
        ensures made { AreBands result }
        ensures rows { result.rows ≡ rows }
        ensures height { result.height ≡ height }
        ensures reach { result.reach2 ≡ reach2 }
    {
        Bands {
            rows,
            height,
            count: (rows + height - 1) / height,
            reach2,
        }
    }

    /// The page row, from 0 at the top, that is a band's first.
    #[tactic(auto, using(crate::proofs::BandLemmas::band_begins))]
    pub fn first(&self, band: u32) -> u32
        requires bands { AreBands self.now }
        requires band { band < self.now.count }
        ensures value { result ≡ first_row self.now band }
        ensures inside { result < self.now.rows }
    {
        band * self.height
    }

    /// The number of rows of a band.
    #[tactic(auto, using(crate::proofs::BandLemmas::band_begins))]
    pub fn rows_of(&self, band: u32) -> u32
        requires bands { AreBands self.now }
        requires band { band < self.now.count }
        ensures value { result ≡ rows_in self.now band }
        ensures some { 1 ≤ result }
    {
        let first = self.first(band);
        self.height.min(self.rows - first)
    }
}
