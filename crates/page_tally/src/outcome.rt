// The result of trapping a page: its planes after trapping, and the counts. An engine either adds one row after the
// other from the top, counted or not, or sets whole planes and then adds the counts of some rows after others.

ghost use Rattle.std.specs.Prelude.{◌≡◌, ◌<◌, ◌≤◌, ◌+◌, ◌*◌, IfOk, MatchOption, length, slice_set};
ghost use Rattle.page_model.specs.Counts.{page_counts};
ghost use Rattle.page_model.specs.Page.{height, plates, width};
ghost use Rattle.page_model.specs.Tints.{trapped_planes};
ghost use Rattle.page_model.specs.Zones.{AreZones};
ghost use Rattle.page_tally.specs.Standing.{AreMarks, ArePlatesCounted, AreTrappedTo, AreZonesCounted, HasRows, IsNewRow, KeepsWorkspace, KeepsRow};
ghost use Rattle.page_tally.specs.Shapes.{HasShape, shape_of};
ghost use Rattle.page_tally.specs.Tallies.{AreRowsCounted, HasPlates};
ghost use Rattle.page_tally.specs.Uncounted.{HasTints};

use crate::changes::count_changed;
use crate::counting::{count_zones, edges_in};
use crate::planes::{copies_of, copy_all_over, put_row};
use crate::sums::add_counts;
use crate::taking::take_plates;
use lists::list::List;
use lists::memory::{no_counts, vec_of};
use page_model::page::Page;
use page_model::parts::{Counts, OutOfMemory, Plane, PlaneList};
use row_values::Rows;
use std::alloc::Global;

/// A page after trapping: its planes, and its counts.
#[derive(Drop)]
pub struct Trapped {
    pub planes: PlaneList,
    pub counts: Counts,
}

/// The planes of a page after trapping and its counts, for the rows that were added so far. The other rows of the
/// planes are still the page's own.
#[derive(Drop)]
pub struct Outcome {
    pub planes: PlaneList,
    /// For each zone the number of its samples.
    pub zone_samples: Vec<u64>,
    /// For each zone the number of its samples that change.
    pub zone_changed: Vec<u64>,
    /// For each plate the number of its samples that change.
    pub plate_changed: Vec<u64>,
    /// The number of deciding edges.
    pub edges: u64,
    /// A buffer that marks the samples of a row that change. Its contents between calls mean nothing.
    pub changes: Vec<bool>,
}

impl Outcome {
    /// Allocates the result of a page: copies of its planes, and all counts 0, with no row added. Nothing more is
    /// allocated later.
    pub fn new(alloc: Global, page: &Page) -> Result<Outcome, OutOfMemory>
        ensures { IfOk result (λ outcome. HasRows page.now 0 outcome) }
    {
        let zones = page.zones() as usize;
        Ok(Outcome {
            planes: copies_of(alloc, page)?,
            zone_samples: no_counts(alloc, zones)?,
            zone_changed: no_counts(alloc, zones)?,
            plate_changed: no_counts(alloc, page.plates() as usize)?,
            edges: 0,
            changes: vec_of(alloc, false, page.width() as usize)?,
        })
    }

    /// Begins anew with another page of the same shape, with no row added. It allocates nothing.
    pub fn start(&mut self, page: &Page)
        requires shape { HasShape (shape_of page.now) self.old }
        ensures rows { HasRows page.now 0 self.new }
        ensures workspace { KeepsWorkspace self.old self.new }
    {
        let _valid = page.plates();
        self.start_uncounted(page);
        self.zone_samples.as_mut_slice().fill(0);
        self.zone_changed.as_mut_slice().fill(0);
        self.plate_changed.as_mut_slice().fill(0);
        self.edges = 0;
    }

    /// Begins anew with another page of the same shape, whose rows are not counted: the counts then mean nothing. It
    /// allocates nothing.
    pub fn start_uncounted(&mut self, page: &Page)
        requires shape { HasShape (shape_of page.now) self.old }
        ensures tints { HasTints page.now 0 self.new }
        ensures workspace { KeepsWorkspace self.old self.new }
    {
        let _valid = page.plates();
        let alloc = *self.changes.allocator();
        copy_all_over(alloc, page, &mut self.planes);
    }

    /// Adds the new tints of row y, the next one, and counts nothing. `None` means that the row's tints are unchanged.
    pub fn take_uncounted(&mut self, page: &Page, y: u32, tints: Option<&[u16]>)
        requires rows { HasTints page.now y self.old }
        requires line { y < height page.now }
        requires tints { MatchOption tints (KeepsRow page.now y)
            (λ row. IsNewRow page.now y row.now) }
        ensures rows { HasTints page.now (y + 1) self.new }
        ensures workspace { KeepsWorkspace self.old self.new }
    {
        if let Some(row) = tints {
            put_row(page, row, y, &mut self.planes);
        }
    }

    /// Adds row y, the next one: its zones, its marks and its new tints, plate after plate. `None` means that the row's
    /// tints are unchanged.
    pub fn take_in(
        &mut self,
        page: &Page,
        y: u32,
        zones: &[u8],
        marks: &[u8],
        tints: Option<&[u16]>,
    )
        requires rows { HasRows page.now y self.old }
        requires line { y < height page.now }
        requires zones { AreZones page.now y zones.now }
        requires marks { AreMarks page.now y marks.now }
        requires tints { MatchOption tints (KeepsRow page.now y)
            (λ row. IsNewRow page.now y row.now) }
        ensures rows { HasRows page.now (y + 1) self.new }
        ensures workspace { KeepsWorkspace self.old self.new }
    {
        let _valid = page.plates();
        self.edges += edges_in(marks);
        count_zones(page, zones, 0, y, &mut self.zone_samples);
        if let Some(row) = tints {
            self.take_tints(page, y, zones, row);
        }
    }

    // Adds the new tints of row y.
    fn take_tints(&mut self, page: &Page, y: u32, zones: &[u8], row: &[u16])
        requires line { y < height page.now }
        requires zones { AreZones page.now y zones.now }
        requires row { IsNewRow page.now y row.now }
        requires planes { AreTrappedTo page.now self.old.planes (y * width page.now) }
        requires zone_changed { AreZonesCounted page.now 0 (y * width page.now)
            self.old.zone_changed.items }
        requires plate_changed { ArePlatesCounted page.now (y * width page.now)
            self.old.plate_changed.items }
        requires changes { length self.old.changes.items ≡ width page.now }
        ensures planes { AreTrappedTo page.now self.new.planes ((y + 1) * width page.now) }
        ensures zone_changed { AreZonesCounted page.now 0 ((y + 1) * width page.now)
            self.new.zone_changed.items }
        ensures plate_changed { ArePlatesCounted page.now ((y + 1) * width page.now)
            self.new.plate_changed.items }
        ensures changes { length self.new.changes.items ≡ width page.now }
        ensures workspace { KeepsWorkspace self.old self.new }
        ensures zone_samples { self.new.zone_samples ≡ self.old.zone_samples }
        ensures edges { self.new.edges ≡ self.old.edges }
    {
        take_plates(
            page,
            row,
            y,
            &mut self.planes,
            &mut self.plate_changed,
            &mut self.changes,
        );
        count_changed(page, zones, 0, y, &self.changes, &mut self.zone_changed);
    }

    /// Sets the plane of plate c, and the number of its samples that change. All else stays unchanged.
    pub fn put_in(&mut self, c: usize, plane: Plane, changed: u64)
        requires plane { c < length self.old.planes }
        requires count { c < length self.old.plate_changed.items }
        ensures planes { self.new.planes ≡ slice_set self.old.planes c plane }
        ensures plate_changed { self.new.plate_changed.items
            ≡ slice_set self.old.plate_changed.items c changed }
        ensures workspace { KeepsWorkspace self.old self.new }
        ensures zone_samples { self.new.zone_samples ≡ self.old.zone_samples }
        ensures zone_changed { self.new.zone_changed ≡ self.old.zone_changed }
        ensures edges { self.new.edges ≡ self.old.edges }
        ensures changes { self.new.changes ≡ self.old.changes }
    {
        self.plate_changed[c] = changed;
        let _empty = self.planes.set(c, plane);
    }

    /// Adds the counts of the next rows: the samples of each zone, those that change, and the deciding edges.
    pub fn add(
        &mut self,
        page: &Page,
        rows: Rows,
        zone_samples: &[u64],
        zone_changed: &[u64],
        edges: u64,
    )
        requires plates { HasPlates page.now rows.first self.old }
        requires inside { rows.first + rows.count ≤ height page.now }
        requires counted { AreRowsCounted page.now rows.first (rows.first + rows.count)
            zone_samples.now zone_changed.now edges }
        ensures plates { HasPlates page.now (rows.first + rows.count) self.new }
        ensures workspace { KeepsWorkspace self.old self.new }
    {
        let _valid = page.plates();
        self.edges += edges;
        add_counts(&mut self.zone_samples, zone_samples);
        add_counts(&mut self.zone_changed, zone_changed);
    }

    /// The page after trapping, once all its rows were added.
    #[tactic(auto, unfolding(page_model::specs::Counts::page_counts))]
    pub fn into_trapped(self, page: &Page) -> Trapped
        requires { HasRows page.now (height page.now) self }
        ensures planes { result.planes ≡ trapped_planes page.now }
        ensures counts { result.counts ≡ page_counts page.now }
    {
        let _valid = page.plates();
        let Outcome {
            planes,
            zone_samples,
            zone_changed,
            plate_changed,
            edges,
            changes: _,
        } = self;
        Trapped {
            planes,
            counts: Counts {
                zone_samples: List::from_vec(zone_samples),
                zone_changed: List::from_vec(zone_changed),
                edges,
                plate_changed: List::from_vec(plate_changed),
            },
        }
    }
}
