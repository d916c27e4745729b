use crate::bounds::SCALE;
use lists::list::List;
pub use lists::names::{CallList, Name, NameList, OutOfMemory};

/// Tints or samples, row by row from the top.
pub type Tints = List<u16>;

/// Counts of samples.
pub type CountList = List<u64>;

/// A sample of a page: column from the left and row from the top, from 0.
#[derive(Clone, Copy, Debug, Drop, PartialEq, Eq)]
pub struct At {
    pub x: u32,
    pub y: u32,
}

/// An edge between two neighbouring samples, as a point of the doubled grid, in half-samples. One coordinate is odd.
#[derive(Clone, Copy, Debug, Drop, PartialEq, Eq)]
pub struct EdgeAt {
    pub x2: u32,
    pub y2: u32,
}

/// How an ink behaves in trapping (ColorantType, in docs/JOBS.md).
#[derive(Clone, Copy, Debug, Drop, PartialEq, Eq)]
pub enum InkKind {
    /// Counts towards the density, and spreads.
    Normal,
    /// Neither counts nor spreads.
    Transparent,
    /// Counts towards the density, and does not spread.
    Opaque,
    /// Neither counts nor spreads, and shuts each sample that it covers.
    OpaqueIgnore,
}

impl InkKind {
    ghost use Rattle.std.specs.Prelude.{◌≡◌};
    ghost use Rattle.page_model.specs.Density.{counts, spreads, shuts};

    /// Whether an ink of this kind counts towards the density.
    pub fn counts(self) -> bool
        ensures { result ≡ counts self }
    {
        match self {
            InkKind::Normal | InkKind::Opaque => true,
            InkKind::Transparent | InkKind::OpaqueIgnore => false,
        }
    }

    /// Whether traps spread an ink of this kind.
    pub fn spreads(self) -> bool
        ensures { result ≡ spreads self }
    {
        match self {
            InkKind::Normal => true,
            InkKind::Transparent | InkKind::Opaque | InkKind::OpaqueIgnore => false,
        }
    }

    /// Whether an ink of this kind shuts the samples that it covers: nothing is trapped there.
    pub fn shuts(self) -> bool
        ensures { result ≡ shuts self }
    {
        match self {
            InkKind::OpaqueIgnore => true,
            InkKind::Normal | InkKind::Transparent | InkKind::Opaque => false,
        }
    }
}

/// The ink of a plate: its colorant's name, its neutral density in ten-thousandths, and its kind.
#[derive(Drop)]
pub struct Ink {
    pub name: Name,
    pub density: u32,
    pub kind: InkKind,
}

/// Inks, one for each plate of a page or for each colorant that a job names.
pub type InkList = List<Ink>;

/// The inks that a job's TrappingDetails name.
pub type DetailList = List<Ink>;

/// The trapping parameters of a zone (PLRM3, section 6.3, in this project's profile). All numbers are ten-thousandths:
/// of a point for the trap width, of 1 for the others.
#[derive(Clone, Copy, Debug, Drop, PartialEq, Eq)]
pub struct TrapParams {
    pub trap_width: u32,
    pub black_width: u32,
    pub black_color_limit: u32,
    pub black_density_limit: u32,
    pub step_limit: u32,
    pub sliding_trap_limit: u32,
    pub trap_color_scaling: u32,
    pub enabled: bool,
}

/// The parameters of a job that sets none. The defaults are this project's.
pub const USUAL_PARAMS: TrapParams = TrapParams {
    trap_width: 2_500,
    black_width: SCALE,
    black_color_limit: 9_500,
    black_density_limit: 16_000,
    step_limit: 2_500,
    sliding_trap_limit: 7_000,
    trap_color_scaling: SCALE,
    enabled: true,
};

impl TrapParams {
    ghost use Rattle.std.specs.Prelude.{◌≡◌};
    ghost use Rattle.page_model.specs.Parameters.{usual_params};

    /// The parameters of a job that sets none.
    pub fn usual() -> TrapParams
        ensures { result ≡ usual_params }
    {
        USUAL_PARAMS
    }
}

/// A vertex of a path, in ten-thousandths of a point from the page's lower left corner. `starts` begins a subpath.
#[derive(Clone, Copy, Debug, Drop, PartialEq, Eq)]
pub struct Vertex {
    pub x: i64,
    pub y: i64,
    pub starts: bool,
}

/// The vertices of a path, subpath after subpath.
pub type VertexList = List<Vertex>;

/// The step limit of one colorant in a zone, in ten-thousandths.
#[derive(Drop)]
pub struct Limit {
    pub name: Name,
    pub step: u32,
}

/// The step limits that a zone names.
pub type LimitList = List<Limit>;

/// A zone: its parameters, the path that it covers, and its step limits for single colorants.
#[derive(Drop)]
pub struct Zone {
    pub params: TrapParams,
    pub path: VertexList,
    pub limits: LimitList,
}

/// The zones of a page, zone 0 first.
pub type ZoneList = List<Zone>;

/// A plate's tints: `width * height` of them, row by row from the top, 0 for no ink and `maxval` for full ink.
#[derive(Drop)]
pub struct Plane {
    pub width: u32,
    pub height: u32,
    pub maxval: u32,
    pub tints: Tints,
}

/// The planes of a page, in the order of its plates.
pub type PlaneList = List<Plane>;

/// The parts of a page. The resolution is in pixels per inch.
#[derive(Drop)]
pub struct PageParts {
    pub resolution: u32,
    pub planes: PlaneList,
    pub inks: InkList,
    pub zones: ZoneList,
}

/// What trapping a page did: for each zone the number of its samples and of those that changed, the number of deciding
/// edges of the page, and for each plate the number of its changed samples.
#[derive(Drop)]
pub struct Counts {
    pub zone_samples: CountList,
    pub zone_changed: CountList,
    pub edges: u64,
    pub plate_changed: CountList,
}
