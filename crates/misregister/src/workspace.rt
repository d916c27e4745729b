ghost use Rattle.std.specs.Prelude.{◌≡◌, ◌*◌, IfOk, vec_len};
ghost use Rattle.misregister.specs.Sides.{Sides};

use lists::memory::vec_of;
use page_model::parts::OutOfMemory;
use std::alloc::Global;
use std::marker::Model;

/// The buffers of the count: one row of a plate, how far down each column is bared, and the page's samples.
#[derive(Drop)]
pub(crate) struct Workspace {
    /// For each sample of a row 2 where the plate has no ink, else 1.
    pub(crate) row: Vec<u8>,
    /// For each column the first row that none of the rows so far bares.
    pub(crate) until: Vec<u32>,
    /// For each sample of the page 2 where no plate so far has ink, 1 where one has and all can leave it bare, else 0.
    pub(crate) shades: Vec<u8>,
}

/// The buffers in which the risk of pages of one size is counted. They are allocated once. Contracts see the capacity of
/// each, so that a function that leaves it unchanged is known to have allocated nothing.
#[derive(Drop)]
pub struct RiskBuf {
    width: u32,
    height: u32,
    pub(crate) workspace: Workspace,
}

impl Model for RiskBuf {
    ghost use Rattle.std.specs.Prelude.{◌≡◌, ◌*◌, vec_capacity, vec_len};
    ghost use Rattle.misregister.specs.Sides.{Sides};

    ghost Value = { Sides };

    ghost view = { λ b. record {
      wide = b.width;
      tall = b.height;
      row = vec_capacity b.workspace.row;
      until = vec_capacity b.workspace.until;
      shades = vec_capacity b.workspace.shades;
    } };

    ghost invariant = { λ b. (vec_len b.workspace.row ≡ b.width) × (vec_len b.workspace.until ≡ b.width)
        × (vec_len b.workspace.shades ≡ b.width * b.height) };
}

impl RiskBuf {
    /// Allocates the buffers for pages of `width` columns and `height` rows: a byte for each sample, and five more for
    /// each column.
    pub fn new(alloc: Global, width: u32, height: u32) -> Result<RiskBuf, OutOfMemory>
        ensures wide { IfOk result (λ buf. buf.wide ≡ width) }
        ensures tall { IfOk result (λ buf. buf.tall ≡ height) }
    {
        let row = vec_of(alloc, 0u8, width as usize)?;
        let until = vec_of(alloc, 0u32, width as usize)?;
        let shades = vec_of(alloc, 0u8, width as usize * height as usize)?;
        Ok(RiskBuf {
            width,
            height,
            workspace: Workspace { row, until, shades },
        })
    }
}
