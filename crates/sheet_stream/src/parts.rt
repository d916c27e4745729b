// A sheet that streams: how its strips are cut, its open plates, and the names of their files.

ghost use Rattle.std.specs.Prelude.{◌≡◌};
ghost use Rattle.sheet_stream.specs.OnSheet.{strip_cut};

use crate::core_rows::StripCut;
use crate::rows::Progress;
use page_model::parts::PageParts;
use pgm_plates::rows::{Header, OpenPlate};
use sheet_geometry::spans::{Ruler, Span};
use std::alloc::Global;

/// How the strips of a sheet are cut and written.
#[derive(Clone, Copy, Drop)]
pub struct StripPlan {
    pub across: Ruler,
    pub down: Ruler,
    pub header: Header,
    pub workers: usize,
}

/// A sheet that streams, with its plates open.
#[derive(Clone, Copy, Drop)]
pub struct OpenSheet<'a> {
    /// What the lists of its strips are allocated by.
    pub alloc: Global,
    /// The sheet without its tints.
    pub outline: &'a PageParts,
    /// How its strips are cut and written.
    pub plan: &'a StripPlan,
    /// Its plates, in their order.
    pub plates: &'a [OpenPlate],
}

/// The names of the files of a sheet's plates, in the order of the plates.
#[derive(Drop)]
pub struct PlateNames<'a, S> {
    /// The files that are read.
    pub inputs: &'a [S],
    /// The files that are written.
    pub outputs: &'a [S],
}

/// What is done beside the trapping of a strip.
#[derive(Clone, Copy, Drop)]
pub struct Neighbours {
    /// The rows of the strip before it, whose core is written.
    pub last: Span,
    /// How far the sheet was read.
    pub progress: Progress,
    /// The rows of the strip after it, which is read.
    pub next: Span,
}

/// How the strip of these rows is cut, as a sheet of its own.
pub fn cut_of(plan: &StripPlan, row: &Span) -> StripCut
    ensures { result ≡ strip_cut plan.now.across plan.now.down row.now }
{
    StripCut {
        across: plan.across,
        down: Ruler {
            side: row.wide,
            ..plan.down
        },
        row: Span {
            from: 0,
            wide: row.wide,
            skip: row.skip,
            core: row.core,
        },
    }
}
