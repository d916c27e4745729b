ghost use Rattle.std.specs.Prelude.{◌≡◌, ◌<◌, ◌≤◌, ◌∷◌, ◌++◌, [], IfOk, OnOk, true};
ghost use Rattle.page_model.specs.Conditions.{IsInk, IsParts, IsPath, IsPlane, IsVertex, IsZone};
ghost use Rattle.page_model.specs.Limits.{most_resolution};

use lists::list::List;
use page_model::page::Page;
use page_model::parts::{
    Ink, InkKind, OutOfMemory, PageParts, Plane, TrapParams, Vertex, VertexList, Zone,
};
use std::alloc::Global;
use std::process::Abort;
use std::test::Fail;
use zone_map::{SpanBuf, zone_row};

/// A point from the page's lower left corner: x, then y.
type Point = (i64, i64);

/// The subpaths of a zone by their vertices, in ten-thousandths of a 72nd of an inch.
type Outline = &'static [&'static [Point]];

/// A page of six rows of eight samples: its resolution, the outlines of its zones 1 to 3, and the zones of its rows.
struct ZonedPage {
    shows: &'static str,
    resolution: u32,
    zones: [Outline; 3],
    rows: [[u8; 8]; 6],
}

// The rows were written by another program for the same rule; those at 72 pixels an inch were worked out by hand as well.
static ZONED_PAGES: [ZonedPage; 13] = [
    ZonedPage {
        shows: "a path that crosses itself",
        resolution: 72,
        zones: [
            &[&[
                (2_000, 2_000),
                (77_000, 59_000),
                (77_000, 2_000),
                (2_000, 59_000),
            ]],
            &[],
            &[],
        ],
        rows: [
            [1, 0, 0, 0, 0, 0, 0, 1],
            [1, 1, 0, 0, 0, 0, 1, 1],
            [1, 1, 1, 0, 0, 1, 1, 1],
            [1, 1, 1, 0, 0, 1, 1, 1],
            [1, 1, 0, 0, 0, 0, 1, 1],
            [1, 0, 0, 0, 0, 0, 0, 1],
        ],
    },
    ZonedPage {
        shows: "subpaths of opposite turns",
        resolution: 72,
        zones: [
            &[
                &[(0, 0), (50_000, 0), (50_000, 40_000), (0, 40_000)],
                &[
                    (30_000, 20_000),
                    (30_000, 60_000),
                    (80_000, 60_000),
                    (80_000, 20_000),
                ],
            ],
            &[],
            &[],
        ],
        rows: [
            [0, 0, 0, 1, 1, 1, 1, 1],
            [0, 0, 0, 1, 1, 1, 1, 1],
            [1, 1, 1, 0, 0, 1, 1, 1],
            [1, 1, 1, 0, 0, 1, 1, 1],
            [1, 1, 1, 1, 1, 0, 0, 0],
            [1, 1, 1, 1, 1, 0, 0, 0],
        ],
    },
    ZonedPage {
        shows: "a path twice round",
        resolution: 72,
        zones: [
            &[&[
                (10_000, 10_000),
                (60_000, 10_000),
                (60_000, 50_000),
                (10_000, 50_000),
                (10_000, 10_000),
                (60_000, 10_000),
                (60_000, 50_000),
                (10_000, 50_000),
            ]],
            &[],
            &[
                &[
                    (30_000, 20_000),
                    (70_000, 20_000),
                    (70_000, 40_000),
                    (30_000, 40_000),
                ],
                &[(30_000, 20_000), (70_000, 20_000), (50_000, 40_000)],
            ],
        ],
        rows: [
            [0, 0, 0, 0, 0, 0, 0, 0],
            [0, 1, 1, 1, 1, 1, 0, 0],
            [0, 1, 1, 3, 3, 3, 3, 0],
            [0, 1, 1, 3, 3, 3, 3, 0],
            [0, 1, 1, 1, 1, 1, 0, 0],
            [0, 0, 0, 0, 0, 0, 0, 0],
        ],
    },
    ZonedPage {
        shows: "paths of no area",
        resolution: 72,
        zones: [
            &[&[(25_000, 25_000)]],
            &[&[(5_000, 5_000), (75_000, 55_000)]],
            &[
                &[
                    (5_000, 5_000),
                    (25_000, 25_000),
                    (55_000, 55_000),
                    (15_000, 15_000),
                ],
                &[
                    (50_000, 10_000),
                    (70_000, 10_000),
                    (70_000, 30_000),
                    (50_000, 30_000),
                ],
            ],
        ],
        rows: [
            [0, 0, 0, 0, 0, 0, 0, 0],
            [0, 0, 0, 0, 0, 0, 0, 0],
            [0, 0, 0, 0, 0, 0, 0, 0],
            [0, 0, 0, 0, 0, 3, 3, 0],
            [0, 0, 0, 0, 0, 3, 3, 0],
            [0, 0, 0, 0, 0, 0, 0, 0],
        ],
    },
    ZonedPage {
        shows: "level segments through middles",
        resolution: 72,
        zones: [
            &[&[
                (10_000, 15_000),
                (60_000, 15_000),
                (60_000, 45_000),
                (10_000, 45_000),
            ]],
            &[&[
                (20_000, 5_000),
                (70_000, 5_000),
                (70_000, 25_000),
                (40_000, 25_000),
                (40_000, 35_000),
                (20_000, 35_000),
            ]],
            &[],
        ],
        rows: [
            [0, 0, 0, 0, 0, 0, 0, 0],
            [0, 0, 0, 0, 0, 0, 0, 0],
            [0, 1, 1, 1, 1, 1, 0, 0],
            [0, 1, 2, 2, 1, 1, 0, 0],
            [0, 1, 2, 2, 2, 2, 2, 0],
            [0, 0, 2, 2, 2, 2, 2, 0],
        ],
    },
    ZonedPage {
        shows: "vertices at middles",
        resolution: 72,
        zones: [
            &[&[
                (45_000, 5_000),
                (65_000, 25_000),
                (45_000, 45_000),
                (25_000, 25_000),
            ]],
            &[&[
                (5_000, 55_000),
                (5_000, 35_000),
                (25_000, 35_000),
                (25_000, 55_000),
            ]],
            &[],
        ],
        rows: [
            [0, 0, 0, 0, 0, 0, 0, 0],
            [2, 2, 0, 0, 0, 0, 0, 0],
            [2, 2, 0, 1, 1, 0, 0, 0],
            [0, 0, 1, 1, 1, 1, 0, 0],
            [0, 0, 0, 1, 1, 0, 0, 0],
            [0, 0, 0, 0, 0, 0, 0, 0],
        ],
    },
    ZonedPage {
        shows: "paths a million points away",
        resolution: 72,
        zones: [
            &[&[
                (-10_000_000_000, -10_000_000_000),
                (10_000_000_000, -10_000_000_000),
                (10_000_000_000, 10_000_000_000),
                (-10_000_000_000, 10_000_000_000),
            ]],
            &[&[
                (-10_000_000_000, -10_000_000_000),
                (10_000_000_000, 10_000_000_000),
                (10_000_000_000, -10_000_000_000),
            ]],
            &[
                &[
                    (9_999_999_999, -10_000_000_000),
                    (10_000_000_000, -10_000_000_000),
                    (10_000_000_000, 10_000_000_000),
                ],
                &[
                    (-10_000_000_000, 10_000_000_000),
                    (-10_000_000_000, -10_000_000_000),
                    (-9_999_999_999, 10_000_000_000),
                ],
            ],
        ],
        rows: [
            [1, 1, 1, 1, 1, 2, 2, 2],
            [1, 1, 1, 1, 2, 2, 2, 2],
            [1, 1, 1, 2, 2, 2, 2, 2],
            [1, 1, 2, 2, 2, 2, 2, 2],
            [1, 2, 2, 2, 2, 2, 2, 2],
            [2, 2, 2, 2, 2, 2, 2, 2],
        ],
    },
    ZonedPage {
        shows: "subpaths left open",
        resolution: 72,
        zones: [
            &[
                &[(10_000, 10_000), (70_000, 10_000), (70_000, 50_000)],
                &[(0, 50_000), (20_000, 58_000), (0, 30_000)],
                &[(60_000, 52_000)],
            ],
            &[&[(0, 0), (30_000, 0), (30_000, 20_000), (0, 20_000), (0, 0)]],
            &[],
        ],
        rows: [
            [0, 1, 0, 0, 0, 0, 0, 0],
            [1, 0, 0, 0, 0, 0, 1, 0],
            [0, 0, 0, 0, 0, 1, 1, 0],
            [0, 0, 0, 1, 1, 1, 1, 0],
            [2, 2, 2, 1, 1, 1, 1, 0],
            [2, 2, 2, 0, 0, 0, 0, 0],
        ],
    },
    ZonedPage {
        shows: "later zones over earlier ones",
        resolution: 72,
        zones: [
            &[&[
                (10_000, 10_000),
                (50_000, 10_000),
                (50_000, 50_000),
                (10_000, 50_000),
            ]],
            &[&[(30_000, 0), (70_000, 0), (70_000, 30_000), (30_000, 30_000)]],
            &[&[
                (26_000, 26_000),
                (54_000, 26_000),
                (54_000, 34_000),
                (26_000, 34_000),
            ]],
        ],
        rows: [
            [0, 0, 0, 0, 0, 0, 0, 0],
            [0, 1, 1, 1, 1, 0, 0, 0],
            [0, 1, 1, 1, 1, 0, 0, 0],
            [0, 1, 1, 2, 2, 2, 2, 0],
            [0, 1, 1, 2, 2, 2, 2, 0],
            [0, 0, 0, 2, 2, 2, 2, 0],
        ],
    },
    ZonedPage {
        shows: "a zone under another",
        resolution: 72,
        zones: [
            &[&[
                (20_000, 20_000),
                (40_000, 20_000),
                (40_000, 40_000),
                (20_000, 40_000),
            ]],
            &[&[
                (10_000, 10_000),
                (10_000, 50_000),
                (50_000, 50_000),
                (50_000, 10_000),
            ]],
            &[&[
                (40_000, 30_000),
                (60_000, 30_000),
                (60_000, 60_000),
                (40_000, 60_000),
            ]],
        ],
        rows: [
            [0, 0, 0, 0, 3, 3, 0, 0],
            [0, 2, 2, 2, 3, 3, 0, 0],
            [0, 2, 2, 2, 3, 3, 0, 0],
            [0, 2, 2, 2, 2, 0, 0, 0],
            [0, 2, 2, 2, 2, 0, 0, 0],
            [0, 0, 0, 0, 0, 0, 0, 0],
        ],
    },
    ZonedPage {
        shows: "600 pixels an inch",
        resolution: 600,
        zones: [
            &[&[(0, 0), (9_001, 1), (4_799, 7_203)]],
            &[&[
                (1_800, 600),
                (6_600, 3_000),
                (1_800, 5_400),
                (4_200, 600),
                (4_200, 6_600),
            ]],
            &[&[(6_599, -100), (6_601, -100), (7_801, 9_000), (6_601, 9_000)]],
        ],
        rows: [
            [0, 0, 0, 0, 0, 0, 0, 0],
            [0, 0, 0, 1, 1, 0, 0, 0],
            [0, 0, 2, 1, 1, 3, 0, 0],
            [0, 0, 2, 2, 2, 3, 0, 0],
            [0, 1, 2, 1, 1, 3, 1, 0],
            [1, 1, 1, 1, 1, 3, 1, 0],
        ],
    },
    ZonedPage {
        shows: "7 pixels an inch",
        resolution: 7,
        zones: [
            &[&[(360_000, 360_000), (720_000, 100_000), (720_000, 650_000)]],
            &[
                &[
                    (51_428, 51_428),
                    (51_429, 565_715),
                    (360_000, 565_714),
                    (360_000, 51_429),
                ],
                &[
                    (154_286, 154_286),
                    (154_286, 462_857),
                    (257_143, 462_858),
                    (257_142, 154_285),
                ],
            ],
            &[&[
                (360_000, 257_142),
                (565_715, 257_142),
                (565_714, 257_143),
                (360_000, 720_001),
            ]],
        ],
        rows: [
            [0, 2, 2, 3, 0, 0, 1, 0],
            [0, 2, 2, 3, 3, 1, 1, 0],
            [0, 2, 2, 3, 3, 1, 1, 0],
            [2, 2, 2, 3, 3, 1, 1, 0],
            [2, 2, 2, 0, 0, 0, 1, 0],
            [2, 2, 0, 0, 0, 0, 0, 0],
        ],
    },
    ZonedPage {
        shows: "10,000 pixels an inch",
        resolution: 10_000,
        zones: [
            &[&[
                (-10_000_000_000, -10_000_000_000),
                (10_000_000_000, 10_000_000_000),
                (-10_000_000_000, 10_000_000_000),
            ]],
            &[&[
                (10_000_000_000, -10_000_000_000),
                (-10_000_000_000, 10_000_000_000),
                (-10_000_000_000, 9_999_999_999),
                (10_000_000_000, -9_999_999_999),
            ]],
            &[&[
                (36, 36),
                (36, 10_000_000_000),
                (252, -10_000_000_000),
                (324, 10_000_000_000),
            ]],
        ],
        rows: [
            [3, 1, 3, 3, 1, 0, 0, 0],
            [3, 1, 3, 3, 0, 0, 0, 0],
            [3, 1, 3, 3, 0, 0, 0, 0],
            [3, 1, 3, 3, 0, 0, 0, 0],
            [3, 0, 3, 3, 0, 0, 0, 0],
            [0, 0, 3, 3, 0, 0, 0, 0],
        ],
    },
];

/// Adds the item at the end.
fn push<T: Drop>(list: &mut List<T>, item: T) -> Result<(), OutOfMemory>
    ensures { OnOk result (list.new ≡ list.old ++ item ∷ []) }
{
    match list.push(item) {
        Ok(()) => Ok(()),
        Err(_) => Err(OutOfMemory),
    }
}

/// A plate without ink.
fn blank(alloc: Global) -> Result<Plane, OutOfMemory>
    ensures { IfOk result IsPlane }
{
    match vec![in alloc; 0u16; 48] {
        Ok(tints) => Ok(Plane {
            width: 8,
            height: 6,
            maxval: 255,
            tints: List::from_vec(tints),
        }),
        Err(_) => Err(OutOfMemory),
    }
}

fn colorant(alloc: Global) -> Result<Ink, OutOfMemory>
    ensures { IfOk result IsInk }
{
    let mut name = List::new(alloc);
    push(&mut name, b'A')?;
    Ok(Ink {
        name,
        density: 6_000,
        kind: InkKind::Normal,
    })
}

/// The vertices of one subpath after those before.
fn draw(vertices: &mut VertexList, subpath: &[Point]) -> Result<(), OutOfMemory> {
    for (k, (x, y)) in subpath.iter().enumerate() {
        let vertex = Vertex {
            x: *x,
            y: *y,
            starts: k == 0,
        };
        push(vertices, vertex)?;
    }
    Ok(())
}

/// The vertices of all subpaths.
fn vertices_of(alloc: Global, outline: Outline) -> Result<VertexList, OutOfMemory> {
    let mut vertices = List::new(alloc);
    for subpath in outline {
        draw(&mut vertices, subpath)?;
    }
    Ok(vertices)
}

fn is_near(vertex: &Vertex) -> bool
    ensures { result ≡ true → IsVertex vertex.now }
{
    let most = 10_000_000_000;
    vertex.x.unsigned_abs() <= most && vertex.y.unsigned_abs() <= most
}

/// Whether vertices are those of a path that a zone may have.
fn is_path(vertices: &[Vertex]) -> bool
    ensures { result ≡ true → IsPath vertices.now }
{
    let begun = match vertices.first() {
        Some(first) => first.starts,
        None => true,
    };
    begun && vertices.len() <= 4096 && vertices.iter().all(is_near)
}

fn path_of(alloc: Global, outline: Outline) -> Result<VertexList, Fail>
    ensures { IfOk result IsPath }
{
    let vertices = vertices_of(alloc, outline)?;
    if is_path(vertices.as_slice()) {
        Ok(vertices)
    } else {
        Err("no path")?
    }
}

fn zone_of(alloc: Global, path: VertexList) -> Zone
    requires { IsPath path }
    ensures zone { IsZone result }
    ensures path { result.path ≡ path }
{
    Zone {
        params: TrapParams::usual(),
        path,
        limits: List::new(alloc),
    }
}

fn parts_of(alloc: Global, zoned: &ZonedPage) -> Result<PageParts, Fail>
    requires some { 1 ≤ zoned.now.resolution }
    requires fine { zoned.now.resolution ≤ most_resolution }
    ensures { IfOk result IsParts }
{
    let [first, second, third] = zoned.zones;
    let mut planes = List::new(alloc);
    push(&mut planes, blank(alloc)?)?;
    let mut inks = List::new(alloc);
    push(&mut inks, colorant(alloc)?)?;
    let mut zones = List::new(alloc);
    push(&mut zones, zone_of(alloc, List::new(alloc)))?;
    push(&mut zones, zone_of(alloc, path_of(alloc, first)?))?;
    push(&mut zones, zone_of(alloc, path_of(alloc, second)?))?;
    push(&mut zones, zone_of(alloc, path_of(alloc, third)?))?;
    Ok(PageParts {
        resolution: zoned.resolution,
        planes,
        inks,
        zones,
    })
}

fn page_of(alloc: Global, zoned: &ZonedPage) -> Result<Page, Fail> {
    if zoned.resolution < 1 || zoned.resolution > 10_000 {
        return Err("no resolution")?;
    }
    match Page::new(parts_of(alloc, zoned)?) {
        Ok(page) => Ok(page),
        Err((_fault, _parts)) => Err("a fault")?,
    }
}

// From here on points are in units of which a sample is 720,000 wide, and zones are found from the rule alone. What the table
// has stays far from where these sums and products would wrap.

/// The way from one coordinate to another.
fn difference(from: i64, to: i64) -> i128 {
    i128::from(to.wrapping_sub(from))
}

/// Whether the way up from low to high passes the height of p, and to the right of p.
fn passes(p: Point, low: Point, high: Point) -> bool {
    let across = difference(low.0, high.0).wrapping_mul(difference(low.1, p.1));
    let rise = difference(low.1, high.1);
    low.1 <= p.1 && p.1 < high.1 && across > difference(low.0, p.0).wrapping_mul(rise)
}

/// The place of a vertex.
fn place(vertex: &Point, resolution: u32) -> Point {
    let (x, y) = *vertex;
    let resolution = i64::from(resolution);
    (x.wrapping_mul(resolution), y.wrapping_mul(resolution))
}

/// How often a subpath, closed, winds round p.
fn subpath_sum(subpath: &[Point], resolution: u32, p: Point) -> i32 {
    let mut sum = 0i32;
    let ends = subpath.iter().skip(1).chain(subpath.first());
    for (from, to) in subpath.iter().zip(ends) {
        let a = place(from, resolution);
        let b = place(to, resolution);
        let turn = i32::from(passes(p, a, b)) - i32::from(passes(p, b, a));
        sum = sum.wrapping_add(turn);
    }
    sum
}

/// How often all subpaths wind round p.
fn plain_sum(outline: Outline, resolution: u32, p: Point) -> i32 {
    let mut sum = 0i32;
    for subpath in outline {
        sum = sum.wrapping_add(subpath_sum(subpath, resolution, p));
    }
    sum
}

/// The last zone that winds round p.
fn plain_zone(zoned: &ZonedPage, p: Point) -> u8 {
    let mut last = 0;
    for (outline, zone) in zoned.zones.iter().zip([1, 2, 3]) {
        if plain_sum(outline, zoned.resolution, p) != 0 {
            last = zone;
        }
    }
    last
}

/// The zones of a row's samples, each found by itself.
fn plain_row(zoned: &ZonedPage, y: u32) -> [u8; 8]
    requires { y < 6 }
{
    let mut row = [0; 8];
    let height = i64::from(2 * (6 - y) - 1) * 360_000;
    for x in 0..8u32 {
        row[x as usize] = plain_zone(zoned, (i64::from(2 * x + 1) * 360_000, height));
    }
    row
}

fn expect_row(rt: &impl Abort, shows: &str, y: u32, row: [u8; 8], wanted: [u8; 8]) {
    assert_eq!(rt; row, wanted, "{shows}, row {y}");
}

/// Looks at each row of a page.
fn expect_rows(rt: &impl Abort, alloc: Global, zoned: &ZonedPage) -> Result<(), Fail> {
    let page = page_of(alloc, zoned)?;
    assert_eq!(rt; page.width(), 8);
    assert_eq!(rt; page.height(), 6);
    let mut spans = SpanBuf::new(alloc, 8)?;
    for y in 0..6u32 {
        let mut row = [9; 8];
        zone_row(&page, y, &mut row, &mut spans);
        expect_row(rt, zoned.shows, y, row, plain_row(zoned, y));
        expect_row(rt, zoned.shows, y, row, zoned.rows[y as usize]);
    }
    Ok(())
}

#[test]
fn a_sample_has_the_last_zone_that_winds_round_it(rt: HostRuntime) -> Result<(), Fail> {
    for zoned in &ZONED_PAGES {
        expect_rows(&rt, rt.alloc(), zoned)?;
    }
    Ok(())
}
