ghost use Rattle.std.specs.Prelude.{◌≡◌, ◌<◌, ◌^◌};
ghost use Rattle.ps_tokens.specs.Dictionaries.{AreObjects};
ghost use Rattle.job_reader.specs.Performing.{Performs};
ghost use Rattle.job_reader.specs.Statements.{state_after};

use crate::device::set_page_device;
use crate::drawing::{Stroke, close_path, draw, new_path};
use crate::operands::{is_one_dict, wrong_operands};
use crate::operators::Operator;
use crate::parameters::set_trap_params;
use crate::state::State;
use crate::zones::make_zone;
use ps_tokens::faults::JobError;
use ps_tokens::object::ObjectList;
use std::alloc::Global;

/// Performs a statement other than `showpage`: its operands are the objects from `from` up to `place`, where its
/// operator stands, and `at` is the operator's offset.
///
/// `WrongOperands` where the operands are not exactly the operator's own; then the operator's own faults.
#[tactic(auto, unfolding(crate::specs::Statements::state_after))]
pub fn perform(
    alloc: Global,
    objects: &ObjectList,
    from: u32,
    place: u32,
    at: u32,
    operator: Operator,
    state: &mut State,
) -> Result<(), JobError>
    requires are { AreObjects objects.now }
    requires small { from < 2 ^ 31 }
    ensures { Performs result state.new (state_after objects.now from place at operator state.old) }
{
    let all = objects.as_slice();
    match operator {
        Operator::SetPageDevice => {
            if is_one_dict(all, from, place) {
                set_page_device(alloc, objects, from, state)
            } else {
                Err(wrong_operands(at))
            }
        }
        Operator::SetTrapParams => {
            if is_one_dict(all, from, place) {
                set_trap_params(alloc, objects, from, state)
            } else {
                Err(wrong_operands(at))
            }
        }
        Operator::NewPath => new_path(all, from, place, at, state),
        Operator::ClosePath => close_path(all, from, place, at, state),
        Operator::MoveTo => draw(all, from, place, at, Stroke::MoveTo, state),
        Operator::LineTo => draw(all, from, place, at, Stroke::LineTo, state),
        Operator::RelativeMoveTo => draw(all, from, place, at, Stroke::RelativeMoveTo, state),
        Operator::RelativeLineTo => draw(all, from, place, at, Stroke::RelativeLineTo, state),
        Operator::SetTrapZone => {
            if from == place {
                make_zone(alloc, state, at)
            } else {
                Err(wrong_operands(at))
            }
        }
        Operator::ShowPage => Ok(()),
    }
}
