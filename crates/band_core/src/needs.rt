ghost use Rattle.std.specs.Prelude.{◌≡◌, ◌<◌, ◌≤◌, true};
ghost use Rattle.lists.specs.Words.{count_below};
ghost use Rattle.page_model.specs.Bands.{AreBands, pieces_of, piece_of};
ghost use Rattle.band_core.specs.Listing.{lowest_band, highest_band, need_total, need_number};
ghost use Rattle.band_core.specs.Needs.{halo_bands, is_need};

use page_model::bands::Bands;

/// The number of pieces of work: four phases of each band.
pub fn pieces(bands: &Bands) -> u32
    requires bands { AreBands bands.now }
    ensures value { result ≡ pieces_of bands.now }
    ensures few { result ≤ 65536 }
{
    4 * bands.count
}

/// The number of the piece of a phase of a band: 0 for zones, 1 for edges, 2 for columns, 3 for traps.
#[tactic(auto, using(page_model::proofs::BandLemmas::piece_inside))]
pub fn piece(bands: &Bands, phase: u32, band: u32) -> u32
    requires bands { AreBands bands.now }
    requires phase { phase < 4 }
    requires band { band < bands.now.count }
    ensures value { result ≡ piece_of bands.now phase band }
    ensures inside { result < pieces_of bands.now }
{
    phase * bands.count + band
}

/// The number of pieces that a piece needs.
pub fn need_count(bands: &Bands, piece: u32) -> u32
    requires bands { AreBands bands.now }
    requires piece { piece < pieces_of bands.now }
    ensures value { result ≡ count_below (is_need bands.now piece) (pieces_of bands.now) }
{
    count_of_needs(bands, piece)
}

/// Need number `k` of a piece, counted from 0, in ascending order. It is a piece with a lesser number.
pub fn need_at(bands: &Bands, piece: u32, k: u32) -> u32
    requires bands { AreBands bands.now }
    requires piece { piece < pieces_of bands.now }
    requires k { k < count_below (is_need bands.now piece) (pieces_of bands.now) }
    ensures need { is_need bands.now piece result ≡ true }
    ensures order { count_below (is_need bands.now piece) result ≡ k }
    ensures lesser { result < piece }
{
    number_of_need(bands, piece, k)
}

fn halo(bands: &Bands) -> u32
    requires { AreBands bands.now }
    ensures { result ≡ halo_bands bands.now }
{
    ((bands.reach2 + 1) / 2 + bands.height - 1) / bands.height
}

fn lowest(bands: &Bands, band: u32) -> u32
    requires { AreBands bands.now }
    ensures { result ≡ lowest_band bands.now band }
{
    band.saturating_sub(halo(bands))
}

fn highest(bands: &Bands, band: u32) -> u32
    requires bands { AreBands bands.now }
    requires band { band < bands.now.count }
    ensures { result ≡ highest_band bands.now band }
{
    (band + halo(bands)).min(bands.count - 1)
}

#[tactic(auto, unfolding(crate::specs::Listing::need_total))]
fn count_of_needs(bands: &Bands, piece: u32) -> u32
    requires bands { AreBands bands.now }
    requires piece { piece < pieces_of bands.now }
    ensures { result ≡ need_total bands.now piece }
{
    let band = piece % bands.count;
    match piece / bands.count {
        0 => 0,
        1 => if band + 1 < bands.count { 2 } else { 1 },
        2 => highest(bands, band) + 1 - lowest(bands, band),
        _ => 2,
    }
}

#[tactic(auto, unfolding(crate::specs::Listing::need_number))]
fn number_of_need(bands: &Bands, piece: u32, k: u32) -> u32
    requires bands { AreBands bands.now }
    requires piece { piece < pieces_of bands.now }
    requires k { k < need_total bands.now piece }
    ensures { result ≡ need_number bands.now piece k }
{
    let band = piece % bands.count;
    match piece / bands.count {
        1 => band + k,
        2 => bands.count + lowest(bands, band) + k,
        _ => if k == 0 { band } else { 2 * bands.count + band },
    }
}
