ghost use Rattle.std.specs.Prelude.{◌≡◌};
ghost use Rattle.job_reader.specs.Operators.{operator_named};

/// An operator of the job language, named as in PLRM3, section 8.2.
#[derive(Clone, Copy, Debug, Drop, PartialEq, Eq)]
pub enum Operator {
    SetPageDevice,
    SetTrapParams,
    NewPath,
    ClosePath,
    MoveTo,
    LineTo,
    RelativeMoveTo,
    RelativeLineTo,
    SetTrapZone,
    ShowPage,
}

/// The operator of that name, `None` exactly where there is none of it.
#[tactic(auto, unfolding(crate::specs::Operators::operator_named))]
pub fn operator_named(name: &[u8]) -> Option<Operator>
    ensures { result ≡ operator_named name.now }
{
    if name == b"moveto".as_slice() {
        Some(Operator::MoveTo)
    } else if name == b"lineto".as_slice() {
        Some(Operator::LineTo)
    } else if name == b"rmoveto".as_slice() {
        Some(Operator::RelativeMoveTo)
    } else if name == b"rlineto".as_slice() {
        Some(Operator::RelativeLineTo)
    } else if name == b"closepath".as_slice() {
        Some(Operator::ClosePath)
    } else if name == b"newpath".as_slice() {
        Some(Operator::NewPath)
    } else if name == b"settrapzone".as_slice() {
        Some(Operator::SetTrapZone)
    } else if name == b"settrapparams".as_slice() {
        Some(Operator::SetTrapParams)
    } else if name == b"setpagedevice".as_slice() {
        Some(Operator::SetPageDevice)
    } else if name == b"showpage".as_slice() {
        Some(Operator::ShowPage)
    } else {
        None
    }
}
