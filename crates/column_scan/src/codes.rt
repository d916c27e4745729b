// The answer of one doubled column in one row, as a code: 0 for none, else the offset in half-samples plus `LEVEL_CODE`.

ghost use Rattle.std.specs.Prelude.{◌≡◌, ◌≤◌, ◌<◌, ◌*◌, ◌+◌};
ghost use Rattle.std.specs.Option.{MatchOption};
ghost use Rattle.column_scan.specs.Sweep.{row_edge, above_code, nearer_code, above_step, raised};
ghost use Rattle.page_model.specs.Limits.{most_reach, most_side};

use page_model::bounds::LEVEL_CODE;

fn edge_of(x2: u32, row: u32) -> u32
    requires { row ≤ most_side }
    ensures { result ≡ row_edge x2 row }
{
    2 * row + 1 - x2 % 2
}

/// The code of the last edge at or above row r.
pub(crate) fn above(x2: u32, r: u32, reach2: u32, last: Option<u32>) -> u16
    requires row { r ≤ most_side }
    requires reach { reach2 ≤ most_reach }
    requires last { MatchOption last (0 ≤ r) (λ j. row_edge x2 j ≤ 2 * r) }
    ensures value { result ≡ above_code x2 r reach2 last }
    ensures fits { result ≤ most_reach + 1 }
{
    match last {
        Some(j) => {
            let edge = edge_of(x2, j);
            if 2 * r <= edge + reach2 {
                (edge + LEVEL_CODE - 2 * r) as u16
            } else {
                0
            }
        }
        None => 0,
    }
}

/// The code of the nearer of two edges: one with a code, and one below row r.
pub(crate) fn nearer(x2: u32, r: u32, reach2: u32, above: u16, next: Option<u32>) -> u16
    requires row { r ≤ most_side }
    requires reach { reach2 ≤ most_reach }
    requires above { above ≤ most_reach + 1 }
    requires next { MatchOption next (0 ≤ r) (λ j. (2 * r ≤ row_edge x2 j) × (j ≤ most_side)) }
    ensures { result ≡ nearer_code x2 r reach2 above next }
{
    match next {
        Some(j) => {
            let edge = edge_of(x2, j);
            if edge > 2 * r + reach2 {
                return above;
            }
            let below = (edge + LEVEL_CODE - 2 * r) as u16;
            if above > 0 && below + above >= 2 * LEVEL_CODE as u16 {
                above
            } else {
                below
            }
        }
        None => above,
    }
}

/// The code of a row, from that of the row above it and whether the edge in between decides.
pub(crate) fn step_code(x2: u32, reach2: u32, seen: bool, code: u16) -> u16
    requires reach { reach2 ≤ most_reach }
    ensures { result ≡ above_step x2 reach2 seen code }
{
    // both codes are worked out first, so that no column takes a branch
    let fresh = if x2 % 2 + reach2 >= 1 {
        (LEVEL_CODE - 1 + x2 % 2) as u16
    } else {
        0
    };
    let least = (LEVEL_CODE + 2 - reach2) as u16;
    let carried = if code >= least { code - 2 } else { 0 };
    if seen { fresh } else { carried }
}

/// The code of a row, from its own and that of the row below it.
pub(crate) fn lift_code(reach2: u32, above: u16, below: u16) -> u16
    requires reach { reach2 ≤ most_reach }
    ensures { result ≡ raised reach2 above below }
{
    let (near, far) = (u32::from(above), u32::from(below));
    if far < 1 || far + 2 > LEVEL_CODE + reach2 {
        return above;
    }
    if near >= 1 && near + far + 2 >= 2 * LEVEL_CODE {
        above
    } else {
        below + 2
    }
}
