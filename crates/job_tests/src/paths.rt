use job_parts::path::{Path, PathError};
use page_model::parts::VertexList;
use std::alloc::{AllocError, Global};
use std::process::Abort;
use std::test::Fail;

#[derive(Clone, Copy, Drop)]
enum Step {
    Move,
    RelativeMove,
    Line,
    RelativeLine,
    Close,
    Clear,
}

fn draw(path: &mut Path, step: Step, x: i64, y: i64) -> Result<(), PathError> {
    match step {
        Step::Move => path.moveto(x, y),
        Step::RelativeMove => path.rmoveto(x, y),
        Step::Line => path.lineto(x, y),
        Step::RelativeLine => path.rlineto(x, y),
        Step::Close => {
            path.close();
            Ok(())
        }
        Step::Clear => {
            path.clear();
            Ok(())
        }
    }
}

fn vertices_text(alloc: Global, vertices: &VertexList) -> Result<String, AllocError> {
    let mut text = String::new(alloc);
    for vertex in vertices.as_slice() {
        let x = vertex.x;
        let y = vertex.y;
        let mark = if vertex.starts { "!" } else { "" };
        let one = format!(in alloc; "{x},{y}{mark};")?;
        text.push_str(one.as_str())?;
    }
    Ok(text)
}

// Statements, and the vertices that they draw, those that begin a subpath with a mark; an error stands before them.
static SCRIPTS: [(&[(Step, i64, i64)], &str); 18] = [
    (&[], ""),
    (
        &[
            (Step::Move, 1, 2),
            (Step::RelativeLine, i64::MAX, 0),
            (Step::RelativeMove, 0, i64::MIN),
        ],
        "CoordinateRange CoordinateRange 1,2!;",
    ),
    (&[(Step::Move, 1, 2)], "1,2!;"),
    (&[(Step::Move, 1, 2), (Step::Move, 3, 4)], "1,2!;3,4!;"),
    (
        &[
            (Step::Move, 1, 2),
            (Step::Line, 3, 4),
            (Step::RelativeLine, -1, 1),
        ],
        "1,2!;3,4;2,5;",
    ),
    (
        &[
            (Step::Move, 1, 2),
            (Step::RelativeMove, 0, 0),
            (Step::RelativeLine, 5, 0),
        ],
        "1,2!;1,2!;6,2;",
    ),
    (
        &[
            (Step::Move, 1, 2),
            (Step::Line, 3, 4),
            (Step::Close, 0, 0),
            (Step::Line, 9, 9),
        ],
        "1,2!;3,4;1,2!;9,9;",
    ),
    (
        &[
            (Step::Move, 1, 2),
            (Step::Line, 3, 4),
            (Step::Close, 0, 0),
            (Step::RelativeLine, 9, 9),
            (Step::RelativeLine, 1, 0),
        ],
        "1,2!;3,4;1,2!;10,11;11,11;",
    ),
    (
        &[
            (Step::Move, 1, 2),
            (Step::Line, 3, 4),
            (Step::Close, 0, 0),
            (Step::Close, 0, 0),
            (Step::RelativeMove, 5, 5),
        ],
        "1,2!;3,4;6,7!;",
    ),
    (
        &[
            (Step::Move, 1, 2),
            (Step::Line, 3, 4),
            (Step::Close, 0, 0),
            (Step::Move, 7, 7),
            (Step::Line, 8, 8),
        ],
        "1,2!;3,4;7,7!;8,8;",
    ),
    (
        &[
            (Step::Move, 1, 2),
            (Step::Line, 3, 4),
            (Step::Close, 0, 0),
            (Step::Line, 5, 5),
            (Step::Close, 0, 0),
            (Step::RelativeLine, 1, 1),
        ],
        "1,2!;3,4;1,2!;5,5;1,2!;2,3;",
    ),
    (
        &[(Step::Close, 0, 0), (Step::Line, 1, 1)],
        "NoCurrentPoint ",
    ),
    (&[(Step::RelativeMove, 1, 1)], "NoCurrentPoint "),
    (
        &[
            (Step::Move, 1, 2),
            (Step::Clear, 0, 0),
            (Step::RelativeLine, 1, 1),
        ],
        "NoCurrentPoint ",
    ),
    (
        &[
            (Step::Move, 10_000_000_000, -10_000_000_000),
            (Step::RelativeLine, 1, 0),
            (Step::RelativeLine, -1, -1),
            (Step::RelativeLine, -1, 1),
        ],
        "CoordinateRange CoordinateRange 10000000000,-10000000000!;9999999999,-9999999999;",
    ),
    (
        &[(Step::Move, 10_000_000_001, 0), (Step::Line, 0, 0)],
        "CoordinateRange NoCurrentPoint ",
    ),
    (
        &[
            (Step::Move, 0, 0),
            (Step::Line, 0, -10_000_000_001),
            (Step::RelativeMove, -10_000_009_999, 0),
        ],
        "CoordinateRange CoordinateRange 0,0!;",
    ),
    (
        &[(Step::Move, 5, 5), (Step::Clear, 0, 0), (Step::Move, 6, 6)],
        "6,6!;",
    ),
];

fn error_text(alloc: Global, error: PathError) -> Result<String, AllocError> {
    match error {
        PathError::Fault(kind) => format!(in alloc; "{kind:?} "),
        PathError::OutOfMemory => String::from_str(alloc, "out of memory "),
    }
}

fn draw_script(
    rt: &impl Abort,
    alloc: Global,
    script: &[(Step, i64, i64)],
) -> Result<String, AllocError> {
    let mut path = Path::new(alloc);
    let mut text = String::new(alloc);
    for (step, x, y) in script {
        match draw(&mut path, *step, *x, *y) {
            Ok(()) => {}
            Err(error) => {
                let reported = error_text(alloc, error)?;
                text.push_str(reported.as_str())?;
            }
        }
    }
    let taken = vertices_text(alloc, &path.take())?;
    text.push_str(taken.as_str())?;
    assert_eq!(rt; path.take().len(), 0);
    Ok(text)
}

fn expect_scripts(
    rt: &impl Abort,
    alloc: Global,
    table: &[(&[(Step, i64, i64)], &str)],
) -> Result<(), AllocError> {
    for (script, want) in table {
        let text = draw_script(rt, alloc, script)?;
        assert_eq!(rt; text.as_str(), *want);
    }
    Ok(())
}

// How many vertices a path has when a line is first refused, and why.
fn fill_path(rt: &impl Abort, alloc: Global, first: Step) -> (usize, Result<(), PathError>) {
    let mut path = Path::new(alloc);
    assert_eq!(rt; path.moveto(0, 0), Ok(()));
    for _ in 0..5000u32 {
        path.close();
        let answer = draw(&mut path, first, 1, 1);
        if answer != Ok(()) {
            return (path.len(), answer);
        }
    }
    (path.len(), Ok(()))
}

#[test]
fn draws_paths(rt: HostRuntime) -> Result<(), Fail> {
    expect_scripts(&rt, rt.alloc(), &SCRIPTS)?;
    let full = Err(PathError::Fault(ps_tokens::faults::FaultKind::TooManyVertices));
    assert_eq!(rt; fill_path(&rt, rt.alloc(), Step::Move), (4096, full));
    assert_eq!(rt; fill_path(&rt, rt.alloc(), Step::Line), (4095, full));
    Ok(())
}
