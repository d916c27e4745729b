ghost use Rattle.std.specs.Prelude.{◌≤◌, length};
ghost use Rattle.ps_tokens.specs.Limits.{longest_job};

use crate::reading::read;
use job_parts::{apply, zone_limits};
use lists::list::List;
use page_model::parts::{LimitList, TrapParams, USUAL_PARAMS};
use ps_tokens::LONGEST_JOB;
use ps_tokens::faults::{FaultKind, JobError, JobFault};
use ps_tokens::parameters::Key;
use std::alloc::{AllocError, Global};
use std::process::Abort;
use std::test::Fail;

// A dictionary, and the parameters after it.
static SETTINGS: [(&[u8], TrapParams); 18] = [
    (b"<< >>", USUAL_PARAMS),
    (
        b"<< /TrapWidth 0.0001 >>",
        TrapParams {
            trap_width: 1,
            ..USUAL_PARAMS
        },
    ),
    (
        b"<< /TrapWidth 100 >>",
        TrapParams {
            trap_width: 1_000_000,
            ..USUAL_PARAMS
        },
    ),
    (
        b"<< /TrapWidth 100.00009 >>",
        TrapParams {
            trap_width: 1_000_000,
            ..USUAL_PARAMS
        },
    ),
    (
        b"<< /BlackWidth .0001 >>",
        TrapParams {
            black_width: 1,
            ..USUAL_PARAMS
        },
    ),
    (
        b"<< /BlackWidth 10 >>",
        TrapParams {
            black_width: 100_000,
            ..USUAL_PARAMS
        },
    ),
    (
        b"<< /BlackColorLimit 0 >>",
        TrapParams {
            black_color_limit: 0,
            ..USUAL_PARAMS
        },
    ),
    (
        b"<< /BlackColorLimit 1 >>",
        TrapParams {
            black_color_limit: 10_000,
            ..USUAL_PARAMS
        },
    ),
    (
        b"<< /BlackDensityLimit 0.001 >>",
        TrapParams {
            black_density_limit: 10,
            ..USUAL_PARAMS
        },
    ),
    (
        b"<< /BlackDensityLimit 10 >>",
        TrapParams {
            black_density_limit: 100_000,
            ..USUAL_PARAMS
        },
    ),
    (
        b"<< /StepLimit -0.00001 >>",
        TrapParams {
            step_limit: 0,
            ..USUAL_PARAMS
        },
    ),
    (
        b"<< /StepLimit 1 >>",
        TrapParams {
            step_limit: 10_000,
            ..USUAL_PARAMS
        },
    ),
    (
        b"<< /SlidingTrapLimit 0 /TrapColorScaling 1 >>",
        TrapParams {
            sliding_trap_limit: 0,
            ..USUAL_PARAMS
        },
    ),
    (
        b"<< /SlidingTrapLimit 1 /TrapColorScaling 0 >>",
        TrapParams {
            sliding_trap_limit: 10_000,
            trap_color_scaling: 0,
            ..USUAL_PARAMS
        },
    ),
    (
        b"<< /Enabled false >>",
        TrapParams {
            enabled: false,
            ..USUAL_PARAMS
        },
    ),
    (
        b"<< /TrapWidth 0 /TrapWidth 2 >>",
        TrapParams {
            trap_width: 20_000,
            ..USUAL_PARAMS
        },
    ),
    (
        b"<< /TrapWidth /x /Other << /TrapWidth 9 >> /TrapWidth 2 /Trapping 5 >>",
        TrapParams {
            trap_width: 20_000,
            ..USUAL_PARAMS
        },
    ),
    (
        b"<< /trapwidth 3 /TrapWidt 3 /TrapWidthh 3 /HalftoneName (x) >>",
        USUAL_PARAMS,
    ),
];

// A dictionary, and the fault of its parameters.
static MISFITS: [(&[u8], FaultKind, u32); 29] = [
    (
        b"<< /TrapWidth 0 >>",
        FaultKind::OutOfRange(Key::TrapWidth),
        14,
    ),
    (
        b"<< /TrapWidth 0.00009 >>",
        FaultKind::OutOfRange(Key::TrapWidth),
        14,
    ),
    (
        b"<< /TrapWidth 100.0001 >>",
        FaultKind::OutOfRange(Key::TrapWidth),
        14,
    ),
    (
        b"<< /TrapWidth -1 >>",
        FaultKind::OutOfRange(Key::TrapWidth),
        14,
    ),
    (
        b"<< /TrapWidth (1) >>",
        FaultKind::WrongKind(Key::TrapWidth),
        14,
    ),
    (
        b"<< /BlackWidth 0 >>",
        FaultKind::OutOfRange(Key::BlackWidth),
        15,
    ),
    (
        b"<< /BlackWidth 10.0001 >>",
        FaultKind::OutOfRange(Key::BlackWidth),
        15,
    ),
    (
        b"<< /BlackWidth true >>",
        FaultKind::WrongKind(Key::BlackWidth),
        15,
    ),
    (
        b"<< /BlackColorLimit -.0001 >>",
        FaultKind::OutOfRange(Key::BlackColorLimit),
        20,
    ),
    (
        b"<< /BlackColorLimit 1.0001 >>",
        FaultKind::OutOfRange(Key::BlackColorLimit),
        20,
    ),
    (
        b"<< /BlackColorLimit null >>",
        FaultKind::WrongKind(Key::BlackColorLimit),
        20,
    ),
    (
        b"<< /BlackDensityLimit .0009 >>",
        FaultKind::OutOfRange(Key::BlackDensityLimit),
        22,
    ),
    (
        b"<< /BlackDensityLimit 10.0001 >>",
        FaultKind::OutOfRange(Key::BlackDensityLimit),
        22,
    ),
    (
        b"<< /BlackDensityLimit [1] >>",
        FaultKind::WrongKind(Key::BlackDensityLimit),
        22,
    ),
    (
        b"<< /StepLimit -0.0001 >>",
        FaultKind::OutOfRange(Key::StepLimit),
        14,
    ),
    (
        b"<< /StepLimit 1.0001 >>",
        FaultKind::OutOfRange(Key::StepLimit),
        14,
    ),
    (
        b"<< /StepLimit /x >>",
        FaultKind::WrongKind(Key::StepLimit),
        14,
    ),
    (
        b"<< /SlidingTrapLimit -1 >>",
        FaultKind::OutOfRange(Key::SlidingTrapLimit),
        21,
    ),
    (
        b"<< /SlidingTrapLimit 1.0001 >>",
        FaultKind::OutOfRange(Key::SlidingTrapLimit),
        21,
    ),
    (
        b"<< /SlidingTrapLimit <<>> >>",
        FaultKind::WrongKind(Key::SlidingTrapLimit),
        21,
    ),
    (
        b"<< /TrapColorScaling -1 >>",
        FaultKind::OutOfRange(Key::TrapColorScaling),
        21,
    ),
    (
        b"<< /TrapColorScaling 2 >>",
        FaultKind::OutOfRange(Key::TrapColorScaling),
        21,
    ),
    (
        b"<< /TrapColorScaling false >>",
        FaultKind::WrongKind(Key::TrapColorScaling),
        21,
    ),
    (b"<< /Enabled 1 >>", FaultKind::WrongKind(Key::Enabled), 12),
    (
        b"<< /Enabled /true >>",
        FaultKind::WrongKind(Key::Enabled),
        12,
    ),
    (
        b"<< /TrapWidth 2 /TrapWidth 0 >>",
        FaultKind::OutOfRange(Key::TrapWidth),
        27,
    ),
    (
        b"<< /Enabled 1 /StepLimit 2 /TrapWidth 0 >>",
        FaultKind::WrongKind(Key::Enabled),
        12,
    ),
    (
        b"<< /StepLimit 2 /TrapWidth 0 /Enabled 1 >>",
        FaultKind::OutOfRange(Key::StepLimit),
        14,
    ),
    (
        b"<< /StepLimit 2 /TrapWidth 0 /StepLimit (x) >>",
        FaultKind::OutOfRange(Key::TrapWidth),
        27,
    ),
];

fn expect_settings(rt: &impl Abort, alloc: Global, table: &[(&[u8], TrapParams)]) {
    for (bytes, want) in table {
        assert!(rt; bytes.len() <= LONGEST_JOB);
        match read(alloc, bytes) {
            Ok(all) => assert_eq!(rt; apply(&USUAL_PARAMS, &all, 0), Ok(*want), "{bytes:?}"),
            Err(_) => assert!(rt; false, "{bytes:?}"),
        }
    }
}

fn expect_errors(rt: &impl Abort, alloc: Global, table: &[(&[u8], FaultKind, u32)]) {
    for (bytes, kind, at) in table {
        assert!(rt; bytes.len() <= LONGEST_JOB);
        let fault = JobFault {
            kind: *kind,
            at: *at,
        };
        match read(alloc, bytes) {
            Ok(all) => assert_eq!(rt; apply(&USUAL_PARAMS, &all, 0), Err(fault), "{bytes:?}"),
            Err(_) => assert!(rt; false, "{bytes:?}"),
        }
    }
}

#[test]
fn applies_parameters(rt: HostRuntime) {
    expect_settings(&rt, rt.alloc(), &SETTINGS);
    expect_errors(&rt, rt.alloc(), &MISFITS);
}

fn limits_text(alloc: Global, limits: &LimitList) -> Result<String, AllocError> {
    let mut text = String::new(alloc);
    for limit in limits.as_slice() {
        let name = limit.name.len();
        let first = limit.name.as_slice().first().copied().unwrap_or(0);
        let step = limit.step;
        let one = format!(in alloc; "{name} {first} {step};")?;
        text.push_str(one.as_str())?;
    }
    Ok(text)
}

fn apply_limits(alloc: Global, now: &LimitList, bytes: &[u8]) -> Result<String, Fail>
    requires { length bytes.now ≤ longest_job }
{
    let all = match read(alloc, bytes) {
        Ok(all) => all,
        Err(_) => return Ok(String::from_str(alloc, "not read")?),
    };
    match zone_limits(alloc, now, &all, 0) {
        Ok(limits) => Ok(limits_text(alloc, &limits)?),
        Err(JobError::Fault(JobFault { kind, at })) => {
            Ok(format!(in alloc; "{kind:?} at {at}")?)
        }
        Err(JobError::OutOfMemory) => Ok(String::from_str(alloc, "out of memory")?),
    }
}

// A dictionary, and the limits after it, each as the length and the first byte of its name and its step; or the fault.
// There was a limit of 9 under `Old` before.
static LIMITS: [(&[u8], &str); 20] = [
    (b"<< /TrapWidth 2 >>", "3 79 9;"),
    (b"<< /ColorantZoneDetails << >> >>", ""),
    (
        b"<< /ColorantZoneDetails << /Cyan << /StepLimit .3 >> >> >>",
        "4 67 3000;",
    ),
    (
        b"<< /ColorantZoneDetails << /Cyan << /StepLimit 0 >> /Black << /StepLimit 1 >> >> >>",
        "5 66 10000;4 67 0;",
    ),
    (
        b"<< /ColorantZoneDetails << /B << /StepLimit .1 >> /A << /StepLimit .2 >> /AA << /StepLimit .3 >> / << /StepLimit .4 >> >> >>",
        "0 0 4000;1 65 2000;2 65 3000;1 66 1000;",
    ),
    (b"<< /ColorantZoneDetails << /Cyan << >> >> >>", ""),
    (
        b"<< /ColorantZoneDetails << /Cyan << /StepLimit .3 >> /Cyan << /Other 1 >> >> >>",
        "",
    ),
    (
        b"<< /ColorantZoneDetails << /Cyan 5 /Cyan << /StepLimit .3 >> >> >>",
        "4 67 3000;",
    ),
    (
        b"<< /ColorantZoneDetails << /Cyan << /StepLimit 7 /StepLimit .3 >> >> >>",
        "4 67 3000;",
    ),
    (
        b"<< /ColorantZoneDetails 5 /ColorantZoneDetails << /A << /StepLimit .3 >> >> >>",
        "1 65 3000;",
    ),
    (
        b"<< /ColorantZoneDetails << /A << /StepLimit .3 >> >> /ColorantZoneDetails << >> >>",
        "",
    ),
    (
        b"<< /ColorantZoneDetails << /xxxxxxxxxxxxxxxxxxxxxxxxxxxxxxxxxxxxxxxxxxxxxxxxxxxxxxxxxxxxxxxx << /StepLimit .3 >> >> >>",
        "64 120 3000;",
    ),
    (
        b"<< /ColorantZoneDetails << /xxxxxxxxxxxxxxxxxxxxxxxxxxxxxxxxxxxxxxxxxxxxxxxxxxxxxxxxxxxxxxxxx << /StepLimit .3 >> >> >>",
        "",
    ),
    (
        b"<< /ColorantZoneDetails << /xxxxxxxxxxxxxxxxxxxxxxxxxxxxxxxxxxxxxxxxxxxxxxxxxxxxxxxxxxxxxxxxx << /StepLimit 3 >> >> >>",
        "OutOfRange(StepLimit) at 108",
    ),
    (b"<< /ColorantZoneDetails 5 >>", "NotDictionary at 24"),
    (
        b"<< /ColorantZoneDetails << /Cyan << /StepLimit 2 >> >> >>",
        "OutOfRange(StepLimit) at 47",
    ),
    (
        b"<< /ColorantZoneDetails << /Cyan << /StepLimit (2) >> >> >>",
        "WrongKind(StepLimit) at 47",
    ),
    (
        b"<< /ColorantZoneDetails << /Cyan 7 >> >>",
        "NotDictionary at 33",
    ),
    (
        b"<< /ColorantZoneDetails << /B 7 /A << /StepLimit 2 >> >> >>",
        "NotDictionary at 30",
    ),
    (
        b"<< /ColorantZoneDetails << /B 7 /A << /StepLimit 2 >> /B << >> >> >>",
        "OutOfRange(StepLimit) at 49",
    ),
];

// The limits of a dictionary, none where it has a fault.
fn limits_before(alloc: Global, bytes: &[u8]) -> LimitList
    requires { length bytes.now ≤ longest_job }
{
    let none = List::new(alloc);
    let all = match read(alloc, bytes) {
        Ok(all) => all,
        Err(_) => return none,
    };
    match zone_limits(alloc, &none, &all, 0) {
        Ok(limits) => limits,
        Err(_) => none,
    }
}

fn expect_limits(
    rt: &impl Abort,
    alloc: Global,
    before: &LimitList,
    table: &[(&[u8], &str)],
) -> Result<(), Fail> {
    for (bytes, want) in table {
        assert!(rt; bytes.len() <= LONGEST_JOB);
        let text = apply_limits(alloc, before, bytes)?;
        assert_eq!(rt; text.as_str(), *want, "{bytes:?}");
    }
    Ok(())
}

#[test]
fn keeps_limits(rt: HostRuntime) -> Result<(), Fail> {
    let before = limits_before(
        rt.alloc(),
        b"<< /ColorantZoneDetails << /Old << /StepLimit .0009 >> >> >>",
    );
    expect_limits(&rt, rt.alloc(), &before, &LIMITS)
}
