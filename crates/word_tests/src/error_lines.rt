use common_errors::common::CommonError;
use page_model::page::PageFault;
use pgm_plates::plate::PlateFault;
use ps_tokens::faults::{FaultKind, JobFault};
use ps_tokens::parameters::Key;

// Errors, with the status and the line of each.
const TABLE: [(CommonError, u8, &str); 12] = [
    (
        CommonError::Job(JobFault {
            kind: FaultKind::WrongType,
            at: 29,
        }),
        3,
        "job: WrongType at 29\n",
    ),
    (
        CommonError::Job(JobFault {
            kind: FaultKind::OutOfRange(Key::TrapWidth),
            at: 14,
        }),
        3,
        "job: OutOfRange TrapWidth at 14\n",
    ),
    (
        CommonError::Job(JobFault {
            kind: FaultKind::JobTooLong,
            at: 1_048_576,
        }),
        3,
        "job: JobTooLong at 1048576\n",
    ),
    (CommonError::NoDetails(0), 3, "job: NoDetails for plate 0\n"),
    (
        CommonError::Plate(0, PlateFault::Truncated(16)),
        4,
        "plate 0: Truncated at 16\n",
    ),
    (
        CommonError::Plate(15, PlateFault::BadHeader(65_536)),
        4,
        "plate 15: BadHeader at 65536\n",
    ),
    (
        CommonError::Page(PageFault::SizeDiffers(1)),
        4,
        "page: SizeDiffers plate 1\n",
    ),
    (
        CommonError::Page(PageFault::TooManySamples),
        4,
        "page: TooManySamples\n",
    ),
    (
        CommonError::Page(PageFault::ReachTooWide(0)),
        4,
        "page: ReachTooWide zone 0\n",
    ),
    (CommonError::Read(Some(1)), 5, "read fault: plate 1\n"),
    (CommonError::Write(None), 6, "write fault: report\n"),
    (CommonError::Memory, 7, "out of memory\n"),
];

#[test]
fn each_error_tells_its_line(rt: HostRuntime) {
    for (error, number, line) in TABLE.iter() {
        assert_eq!(rt; error.line().as_slice(), line.as_bytes());
        assert_eq!(rt; error.exit_status(), *number);
    }
}
