use job_reader::job::Job;
use job_reader::reader::read_job;
use page_model::parts::Zone;
use ps_tokens::faults::{JobError, JobFault};
use std::alloc::{AllocError, Global};
use std::process::Abort;
use std::test::Fail;

fn zone_text(alloc: Global, zone: &Zone) -> Result<String, AllocError> {
    let width = zone.params.trap_width;
    let enabled = zone.params.enabled;
    let limits = zone.limits.len();
    let mut text = format!(in alloc; " {width} {enabled} {limits}")?;
    for vertex in zone.path.as_slice() {
        let x = vertex.x;
        let y = vertex.y;
        let mark = if vertex.starts { "!" } else { "" };
        let one = format!(in alloc; " {x},{y}{mark}")?;
        text.push_str(one.as_str())?;
    }
    text.push_str(";")?;
    Ok(text)
}

fn job_text(alloc: Global, job: &Job) -> Result<String, AllocError> {
    let resolution = job.resolution;
    let details = job.details.len();
    let mut text = format!(in alloc; "{resolution} {details}:")?;
    for zone in job.zones.as_slice() {
        let one = zone_text(alloc, zone)?;
        text.push_str(one.as_str())?;
    }
    Ok(text)
}

fn text_of_job(alloc: Global, bytes: &[u8]) -> Result<String, AllocError> {
    match read_job(alloc, bytes) {
        Ok(job) => job_text(alloc, &job),
        Err(JobError::Fault(JobFault { kind, at })) => format!(in alloc; "{kind:?} at {at}"),
        Err(JobError::OutOfMemory) => String::from_str(alloc, "out of memory"),
    }
}

// Jobs, and their resolution, number of inks and zones, each with its trap width, whether it is enabled, its number of
// step limits and its vertices; or their fault.
static JOBS: [(&[u8], &str); 60] = [
    (
        b"<< /TrappingDetails << /Type 1000 >> >> setpagedevice showpage",
        "WrongType at 29",
    ),
    (
        b"<< /TrapWidth 1e5 >> settrapparams showpage",
        "BadToken at 14",
    ),
    (
        b"<< /TrapWidth 0 >> settrapparams showpage",
        "OutOfRange(TrapWidth) at 14",
    ),
    (b"<< /TrapWidth 1", "Unclosed at 0"),
    (b"10 10 lineto showpage", "NoCurrentPoint at 6"),
    (b"5 showpage", "WrongOperands at 2"),
    (b"showpage", "NoPageDevice at 0"),
    (b"showpage 1", "NoPageDevice at 0"),
    (b"", "NoShowpage at 0"),
    (b"<< /Enabled false >> settrapparams", "NoShowpage at 34"),
    (
        b"<< /Enabled false >> settrapparams 1 2",
        "NoShowpage at 38",
    ),
    (
        b"<< /Enabled false >> settrapparams showpage 1",
        "AfterShowpage at 44",
    ),
    (
        b"<< /Enabled false >> settrapparams showpage gsave",
        "AfterShowpage at 44",
    ),
    (
        b"<< /ColorantZoneDetails 5 >> settrapparams showpage",
        "NotDictionary at 24",
    ),
    (
        b"<< /ColorantZoneDetails << /Cyan << /StepLimit 2 >> >> >> settrapparams showpage",
        "OutOfRange(StepLimit) at 47",
    ),
    (
        b"<< /ColorantZoneDetails 5 /TrapWidth 0 >> settrapparams showpage",
        "NotDictionary at 24",
    ),
    (
        b"<< /TrapWidth 0 /ColorantZoneDetails 5 >> settrapparams showpage",
        "OutOfRange(TrapWidth) at 14",
    ),
    (
        b"[[[[[[[[[[[[[[[[]]]]]]]]]]]]]]]] showpage",
        "WrongOperands at 33",
    ),
    (b"[[[[[[[[[[[[[[[[[", "TooDeep at 16"),
    (b"gsave", "UnknownOperator at 0"),
    (b"1 (a) Moveto", "UnknownOperator at 6"),
    (b"setpagedevice", "WrongOperands at 0"),
    (b"5 setpagedevice", "WrongOperands at 2"),
    (b"<< >> << >> setpagedevice", "WrongOperands at 12"),
    (b"settrapparams", "WrongOperands at 0"),
    (b"[ ] settrapparams", "WrongOperands at 4"),
    (b"1 << >> settrapparams", "WrongOperands at 8"),
    (b"1 moveto", "WrongOperands at 2"),
    (b"1 2 3 moveto", "WrongOperands at 6"),
    (b"1 (a) moveto", "WrongOperands at 6"),
    (b"[ 1 2 ] moveto", "WrongOperands at 8"),
    (b"1 2 moveto 1 lineto", "WrongOperands at 13"),
    (b"/a 1 rmoveto", "WrongOperands at 5"),
    (b"1 2 moveto true 1 rlineto", "WrongOperands at 18"),
    (b"1 newpath", "WrongOperands at 2"),
    (b"<< >> closepath", "WrongOperands at 6"),
    (b"1 settrapzone", "WrongOperands at 2"),
    (
        b"<< /HWResolution [600.5 600.5] >> setpagedevice",
        "BadResolution at 17",
    ),
    (
        b"<< /HWResolution [0 0] >> setpagedevice",
        "BadResolution at 17",
    ),
    (
        b"<< /HWResolution [10001 10001] >> setpagedevice",
        "BadResolution at 17",
    ),
    (
        b"<< /HWResolution [-600 -600] >> setpagedevice",
        "BadResolution at 17",
    ),
    (
        b"<< /HWResolution [600 601] >> setpagedevice",
        "BadResolution at 17",
    ),
    (
        b"<< /HWResolution [600] >> setpagedevice",
        "BadResolution at 17",
    ),
    (
        b"<< /HWResolution [600 600 600] >> setpagedevice",
        "BadResolution at 17",
    ),
    (
        b"<< /HWResolution 600 >> setpagedevice",
        "BadResolution at 17",
    ),
    (
        b"<< /Trapping 1 /HWResolution 5 >> setpagedevice",
        "WrongKind(Trapping) at 13",
    ),
    (
        b"<< /HWResolution 5 /Trapping 1 >> setpagedevice",
        "BadResolution at 17",
    ),
    (
        b"<< /Enabled false >> settrapparams settrapzone showpage",
        "NoPageDevice at 47",
    ),
    (b"1000000.0001 0 moveto", "CoordinateRange at 15"),
    (b"0 -1000000.0001 moveto", "CoordinateRange at 16"),
    (b"1000000 0 moveto .0001 0 rlineto", "CoordinateRange at 25"),
    (
        b"<< /HWResolution [1 1] >> setpagedevice 1000000 -1000000 moveto -1000000 1000000 lineto settrapzone showpage",
        "1 0: 2500 false 0; 2500 true 0 10000000000,-10000000000! -10000000000,10000000000;",
    ),
    (
        b"<< /Enabled false >> settrapparams showpage",
        "0 0: 2500 false 0;",
    ),
    (
        b"<< /Trapping false >> setpagedevice showpage",
        "0 0: 2500 false 0;",
    ),
    (
        b"<< /HWResolution [10000 10000.0] >> setpagedevice << /TrapWidth 1 >> settrapparams << >> settrapparams showpage",
        "10000 0: 10000 true 0;",
    ),
    (
        b"<< /HWResolution [1 1] /TrappingDetails << /Type 1001 /ColorantDetails << /Cyan << /NeutralDensity .61 >> >> >> >> setpagedevice 1 2 moveto 3 4 lineto closepath 1 1 rlineto settrapzone << /TrapWidth 1 /ColorantZoneDetails << /A << /StepLimit 0 >> >> >> settrapparams settrapzone << /TrapWidth 2 >> settrapparams 5 5 moveto 0 0 rmoveto newpath showpage",
        "1 1: 20000 false 1; 2500 true 0 10000,20000! 30000,40000 10000,20000! 20000,30000; 10000 true 1;",
    ),
    (
        b"<< /HWResolution [72 72] >> setpagedevice settrapzone << /Trapping false >> setpagedevice showpage",
        "72 0: 2500 false 0; 2500 false 0;",
    ),
    (
        b"<< /HWResolution [72 72] /TrappingDetails << /Type 1001 /ColorantDetails << /Cyan << /NeutralDensity .61 >> >> >> >> setpagedevice .5 .5 moveto 2.5 .5 lineto 2.5 1.5 lineto .5 1.5 lineto settrapzone showpage",
        "72 1: 2500 false 0; 2500 true 0 5000,5000! 25000,5000 25000,15000 5000,15000;",
    ),
    (
        b"<< /HWResolution [72 72] /TrappingDetails << /Type 1001 /ColorantDetails << /Cyan << /NeutralDensity .61 >> >> >> >> setpagedevice .5 .5 moveto 0 0 rmoveto 2 0 rlineto 0 1 rlineto -2 0 rlineto settrapzone showpage",
        "72 1: 2500 false 0; 2500 true 0 5000,5000! 5000,5000! 25000,5000 25000,15000 5000,15000;",
    ),
    (
        b"%!PS\n<< /HWResolution [600 600] /Trapping true /TrappingDetails << /Type 1001 /ColorantDetails << /Cyan << /NeutralDensity 0.61 >> /Magenta << /NeutralDensity 0.76 >> /Yellow << /NeutralDensity 0.16 >> /Black << /NeutralDensity 1.70 >> >> >> >> setpagedevice << /TrapWidth 0.25 /BlackWidth 2 >> settrapparams 0 0 moveto 612 0 lineto 612 792 lineto 0 792 lineto closepath settrapzone << /Enabled false >> settrapparams 1.08 0 moveto 612 0 lineto 612 792 lineto 1.08 792 lineto closepath settrapzone showpage",
        "600 4: 2500 false 0; 2500 true 0 0,0! 6120000,0 6120000,7920000 0,7920000; 2500 false 0 10800,0! 6120000,0 6120000,7920000 10800,7920000;",
    ),
];

fn expect_jobs(rt: &impl Abort, alloc: Global, table: &[(&[u8], &str)]) -> Result<(), AllocError> {
    for (bytes, want) in table {
        let text = text_of_job(alloc, bytes)?;
        assert_eq!(rt; text.as_str(), *want, "{bytes:?}");
    }
    Ok(())
}

// A text, another one several times, and a last one.
fn repeat_text(
    alloc: Global,
    first: &[u8],
    middle: &[u8],
    count: u32,
    last: &[u8],
) -> Result<Vec<u8>, AllocError> {
    let mut bytes = Vec::from_slice(alloc, first)?;
    for _ in 0..count {
        bytes.extend_from_slice(middle)?;
    }
    bytes.extend_from_slice(last)?;
    Ok(bytes)
}

// A job that repeats a text, and its fault.
static LIMITS: [(&[u8], &[u8], u32, &[u8], &str); 6] = [
    (b"", b" ", 1_048_576, b"", "NoShowpage at 1048576"),
    (b"", b" ", 1_048_577, b"", "JobTooLong at 1048576"),
    (
        b"",
        b"settrapzone ",
        250,
        b"showpage",
        "NoPageDevice at 3000",
    ),
    (b"", b"settrapzone ", 251, b"", "TooManyZones at 3000"),
    (
        b"0 0 moveto",
        b" 1 1 lineto",
        4095,
        b" settrapzone",
        "NoShowpage at 45067",
    ),
    (
        b"0 0 moveto",
        b" 1 1 lineto",
        4096,
        b"",
        "TooManyVertices at 45060",
    ),
];

// A number of zones, each of a first vertex and a number of lines, and what follows them; and their fault.
static ZONES: [(u32, u32, &[u8], &str); 5] = [
    (127, 128, b"", "NoShowpage at 181760"),
    (127, 128, b"settrapzone", "NoShowpage at 181771"),
    (
        127,
        128,
        b"0 0 moveto settrapzone",
        "TooManyVertices at 181771",
    ),
    (4095, 4, b"", "NoShowpage at 180272"),
    (
        4095,
        4,
        b"0 0 moveto settrapzone",
        "TooManyVertices at 180283",
    ),
];

// The statements of a job, and the fault where one operand more stands before each of them.
static STATEMENTS: [(&[u8], &str); 10] = [
    (
        b"<< /HWResolution [72 72] >> setpagedevice ",
        "WrongOperands at 30",
    ),
    (b"<< /TrapWidth 1 >> settrapparams ", "WrongOperands at 63"),
    (b"newpath ", "WrongOperands at 77"),
    (b"1 2 moveto ", "WrongOperands at 89"),
    (b"3 4 lineto ", "WrongOperands at 100"),
    (b"1 1 rmoveto ", "WrongOperands at 111"),
    (b"1 1 rlineto ", "WrongOperands at 123"),
    (b"closepath ", "WrongOperands at 131"),
    (b"settrapzone ", "WrongOperands at 141"),
    (b"showpage", "WrongOperands at 153"),
];

// The job of these statements, with one operand more before one of them, or before none.
fn with_one_more(alloc: Global, extra: usize) -> Result<Vec<u8>, AllocError> {
    let mut bytes = Vec::new(alloc);
    for (place, (statement, _)) in STATEMENTS.iter().enumerate() {
        if place == extra {
            bytes.extend_from_slice(b"9 ")?;
        }
        bytes.extend_from_slice(statement)?;
    }
    Ok(bytes)
}

#[test]
fn reads_jobs(rt: HostRuntime) -> Result<(), Fail> {
    expect_jobs(&rt, rt.alloc(), &JOBS)?;
    for (first, middle, count, last, want) in &LIMITS {
        let bytes = repeat_text(rt.alloc(), first, middle, *count, last)?;
        let text = text_of_job(rt.alloc(), &bytes)?;
        assert_eq!(rt; text.as_str(), *want);
    }
    Ok(())
}

#[test]
fn counts_the_vertices_of_all_zones(rt: HostRuntime) -> Result<(), Fail> {
    for (lines, zones, last, want) in &ZONES {
        let zone = repeat_text(
            rt.alloc(),
            b"0 0 moveto",
            b" 1 1 lineto",
            *lines,
            b" settrapzone ",
        )?;
        let bytes = repeat_text(rt.alloc(), b"", &zone, *zones, last)?;
        let text = text_of_job(rt.alloc(), &bytes)?;
        assert_eq!(rt; text.as_str(), *want);
    }
    Ok(())
}

#[test]
fn each_statement_has_its_own_fault(rt: HostRuntime) -> Result<(), Fail> {
    for (place, (_, want)) in STATEMENTS.iter().enumerate() {
        let bytes = with_one_more(rt.alloc(), place)?;
        let text = text_of_job(rt.alloc(), &bytes)?;
        assert_eq!(rt; text.as_str(), *want);
    }
    let bytes = with_one_more(rt.alloc(), STATEMENTS.len())?;
    let text = text_of_job(rt.alloc(), &bytes)?;
    assert_eq!(rt;
        text.as_str(),
        "72 0: 10000 false 0; 10000 true 0 10000,20000! 30000,40000 40000,50000! 50000,60000;"
    );
    Ok(())
}
