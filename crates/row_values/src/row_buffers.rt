ghost use Rattle.std.specs.Prelude.{◌≡◌, ◌<◌, ◌-◌, ◌*◌, IfOk, vec_len};
ghost use Rattle.page_model.specs.Page.{plates, width};
ghost use Rattle.row_values.specs.Workspace.{Serves};

use lists::memory::vec_of;
use page_model::arms::Arm;
use page_model::page::Page;
use page_model::parts::OutOfMemory;
use row_envelope::HullBuf;
use std::alloc::Global;
use std::marker::Model;
use zone_map::SpanBuf;

/// The buffers that rows are made with, for pages of one width and number of plates: the crossings of a row, its arms
/// with their columns, the index of each sample's nearest arm, the hull of the arms, and a tint for each plate. They
/// are allocated once. Contracts see the capacity of each, so that a function that leaves it unchanged is known to have
/// allocated nothing.
#[derive(Drop)]
pub struct RowBuffers {
    pub(crate) width: u32,
    pub(crate) plates: u32,
    pub(crate) spans: SpanBuf,
    pub(crate) arms: Vec<Arm>,
    pub(crate) columns: Vec<u32>,
    pub(crate) places: Vec<Option<u32>>,
    pub(crate) hull: HullBuf,
    pub(crate) tints: Vec<u16>,
}

impl Model for RowBuffers {
    ghost use Rattle.std.specs.Prelude.{◌≡◌, ◌-◌, ◌*◌, vec_capacity, vec_len};
    ghost use Rattle.row_values.specs.Workspace.{Workspace};

    ghost Value = { Workspace };

    ghost view = { λ w. record {
      wide = w.width;
      deep = w.plates;
      arms = vec_capacity w.arms;
      columns = vec_capacity w.columns;
      places = vec_capacity w.places;
      tints = vec_capacity w.tints;
      spans = w.spans;
      hull = w.hull;
    } };

    ghost invariant = { λ w. (w.spans.wide ≡ w.width) × (vec_len w.arms ≡ 2 * w.width - 1)
        × (vec_len w.columns ≡ 2 * w.width - 1) × (vec_len w.places ≡ w.width)
        × (w.hull.columns ≡ 2 * w.width - 1) × (vec_len w.tints ≡ w.plates) };
}

impl RowBuffers {
    /// Allocates the buffers for pages of this page's width and number of plates.
    pub fn new(alloc: Global, page: &Page) -> Result<RowBuffers, OutOfMemory>
        ensures { IfOk result (λ workspace. Serves workspace page.now) }
    {
        let width = page.width();
        let plates = page.plates();
        let doubled = 2 * width as usize - 1;
        Ok(RowBuffers {
            width,
            plates,
            spans: SpanBuf::new(alloc, width)?,
            arms: vec_of(alloc, Arm::new(0, 0), doubled)?,
            columns: vec_of(alloc, 0u32, doubled)?,
            places: vec_of(alloc, None, width as usize)?,
            hull: HullBuf::new(alloc, width)?,
            tints: vec_of(alloc, 0u16, plates as usize)?,
        })
    }
}
