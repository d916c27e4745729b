ghost use Rattle.std.specs.Prelude.{◌≡◌, ◌<◌, ◌^◌};
ghost use Rattle.job_parts.specs.CommonErrors.{Draws};
ghost use Rattle.job_reader.specs.declared.operators.Operator.TheVariants.{NewPath, ClosePath};
ghost use Rattle.job_reader.specs.Operands.{two_numbers};
ghost use Rattle.job_reader.specs.Performing.{Performs, error_at};
ghost use Rattle.job_reader.specs.Statements.{path_drawn, state_after, stroke_on, with_numbers};

use crate::operands::{two_numbers, wrong_operands};
use crate::state::State;
use job_parts::path::{Path, PathError};
use ps_tokens::faults::{JobError, JobFault};
use ps_tokens::object::Object;

/// A path statement with two numbers (PLRM3, section 4.4).
#[derive(Clone, Copy, Debug, Drop, PartialEq, Eq)]
pub enum Stroke {
    MoveTo,
    LineTo,
    RelativeMoveTo,
    RelativeLineTo,
}

/// `newpath`: empties the path. It takes no operand (PLRM3, sections 4.4 and 8.2).
#[tactic(auto, unfolding(crate::specs::Statements::state_after))]
pub fn new_path(
    objects: &[Object],
    from: u32,
    place: u32,
    at: u32,
    state: &mut State,
) -> Result<(), JobError>
    ensures { Performs result state.new (state_after objects.now from place at NewPath state.old) }
{
    if from != place {
        return Err(wrong_operands(at));
    }
    state.path.clear();
    Ok(())
}

/// `closepath`: closes the subpath; the current point is then its first point. It takes no operand (PLRM3, sections 4.4
/// and 8.2).
#[tactic(auto, unfolding(crate::specs::Statements::state_after))]
pub fn close_path(
    objects: &[Object],
    from: u32,
    place: u32,
    at: u32,
    state: &mut State,
) -> Result<(), JobError>
    ensures { Performs result state.new
        (state_after objects.now from place at ClosePath state.old) }
{
    if from != place {
        return Err(wrong_operands(at));
    }
    state.path.close();
    Ok(())
}

/// `moveto`, `rmoveto`, `lineto` or `rlineto`, with the two numbers at `from` as its operands (PLRM3, sections 4.4 and
/// 8.2).
///
/// `WrongOperands` where there are not exactly two numbers; then the faults of the path, at the operator's offset `at`.
pub fn draw(
    objects: &[Object],
    from: u32,
    place: u32,
    at: u32,
    stroke: Stroke,
    state: &mut State,
) -> Result<(), JobError>
    requires { from < 2 ^ 31 }
    ensures { let numbers = two_numbers objects.now from place in
        let old = state.old in
        Performs result state.new
        (with_numbers at numbers (λ x y. path_drawn at old (stroke_on stroke x y old.path))) }
{
    let Some((x, y)) = two_numbers(objects, from, place) else {
        return Err(wrong_operands(at));
    };
    match stroke_on(stroke, x, y, &mut state.path) {
        Ok(()) => Ok(()),
        Err(common_error) => Err(error_at(common_error, at)),
    }
}

// Draws a stroke on a path.
fn stroke_on(stroke: Stroke, x: i64, y: i64, path: &mut Path) -> Result<(), PathError>
    ensures { Draws result path.old path.new (stroke_on stroke x y path.old) }
{
    match stroke {
        Stroke::MoveTo => path.moveto(x, y),
        Stroke::LineTo => path.lineto(x, y),
        Stroke::RelativeMoveTo => path.rmoveto(x, y),
        Stroke::RelativeLineTo => path.rlineto(x, y),
    }
}

// A path's error at its operator.
fn error_at(common_error: PathError, at: u32) -> JobError
    ensures { result ≡ error_at common_error at }
{
    match common_error {
        PathError::Fault(kind) => JobError::Fault(JobFault { kind, at }),
        PathError::OutOfMemory => JobError::OutOfMemory,
    }
}
