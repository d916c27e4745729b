// How large the windows of a sheet are. No byte that is written depends on it.

ghost use Rattle.sheet_geometry.specs.Outline.{IsOutlineSheet};
ghost use Rattle.sheet_files.specs.Streaming.{StreamsBy};

use page_model::parts::PageParts;
use sheet_geometry::budget::Budget;
use sheet_geometry::plan::{Plan, Rulers, plan_sheet};

/// The usual window: its rows, and its samples in all plates, unless its halo takes more.
pub const WINDOW: Budget = Budget {
    rows: 128,
    samples: 400_000,
};

// A deep strip has less halo for its rows, and its workers wait for each other less often.
const DEEP_WINDOW: Budget = Budget {
    rows: 256,
    samples: 800_000,
};

// The most samples in all plates of a strip of deep windows, and of one whose rows can be reduced.
const MOST_DEEP: u64 = 8_388_608;

const MOST_STRIP: u64 = 67_108_864;

// A strip has at least so many rows, however wide the sheet is: fewer are not worth their halo.
const LEAST_ROWS: u64 = 32;

/// The rulers of a sheet's strips; if these have the usual rows, those of strips that are twice as high in a narrow
/// sheet, and lower in a wide one, so that a strip takes about as much memory however wide the sheet is.
pub fn rulers_for(outline: &PageParts, rulers: Rulers) -> Rulers
    requires by { StreamsBy outline.now rulers }
    ensures { StreamsBy outline.now result }
{
    if rulers.down.most != WINDOW.rows {
        return rulers;
    }
    match plan_sheet(outline, &window_for(outline)) {
        Ok(Plan::Strips(fit)) => fit,
        _ => rulers,
    }
}

fn window_for(outline: &PageParts) -> Budget
    requires { IsOutlineSheet outline.now }
{
    let planes = outline.planes.as_slice();
    let wide = planes.len() as u64 * u64::from(planes[0].width);
    if wide <= MOST_DEEP / u64::from(DEEP_WINDOW.rows) {
        return DEEP_WINDOW;
    }
    let rows = (MOST_STRIP / wide).max(LEAST_ROWS);
    Budget {
        rows: rows.min(u64::from(WINDOW.rows)) as u32,
        samples: WINDOW.samples,
    }
}
