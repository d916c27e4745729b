ghost use Rattle.std.specs.Prelude.{◌≡◌, ◌≤◌, ◌<◌, ◌*◌, ℕ, IsTrue, length, slice_index};
ghost use Rattle.raster_samples.specs.Reads.{IsIn};

use raster_samples::check::raster_fault;
use raster_samples::raster::{Access, Axis, Raster, RasterFault, Rectangle, Zero};
use raster_samples::read::{Above, copy_tints, read};
use raster_samples::write::write;
use std::test::Fail;

// Four inks, pixel by pixel: three pixels of four bytes and four bytes more in each of two rows, from byte 2 on.
const PIXELS: Raster = Raster {
    sample_size: 1,
    maxval: 255,
    zero: Zero::Paper,
    origin: 2,
    pixels: Axis {
        count: 3,
        stride: 4,
    },
    rows: Axis {
        count: 2,
        stride: 16,
    },
    planes: Axis {
        count: 4,
        stride: 1,
    },
};

// Two planes of words one after the other, rows upwards and each from right to left: the first sample of a plane is the
// last of its six.
const WORDS: Raster = Raster {
    sample_size: 2,
    maxval: 65_535,
    zero: Zero::Paper,
    origin: 10,
    pixels: Axis {
        count: 3,
        stride: -2,
    },
    rows: Axis {
        count: 2,
        stride: -6,
    },
    planes: Axis {
        count: 2,
        stride: 12,
    },
};

// All samples of a plane of three columns and two rows.
fn plane(c: u32) -> Rectangle {
    Rectangle {
        plane: c,
        left: 0,
        top: 0,
        width: 3,
        height: 2,
    }
}

// Bytes that count up from 0.
fn counted() -> [u8; 40] {
    let mut bytes = [0u8; 40];
    for k in 0..40 {
        bytes[k] = k as u8;
    }
    bytes
}

fn is_in(raster: &Raster, rect: Rectangle) -> bool
    ensures { IsTrue result → IsIn raster.now rect }
{
    let right = u64::from(rect.left) + u64::from(rect.width);
    let bottom = u64::from(rect.top) + u64::from(rect.height);
    rect.plane < raster.planes.count
        && 1 <= rect.width
        && right <= u64::from(raster.pixels.count)
        && bottom <= u64::from(raster.rows.count)
}

fn are_fit(tints: &[u16], maxval: u32) -> bool
    ensures { IsTrue result → (k : ℕ) → k < length tints.now → slice_index tints.now k ≤ maxval }
{
    tints.iter().all(|tint| *tint as u32 <= maxval)
}

fn sides(rect: Rectangle) -> usize
    ensures { result ≡ rect.height * rect.width }
{
    rect.height as usize * rect.width as usize
}

// What is read, if the raster and the rectangle are right.
fn read_checked(
    raster: &Raster,
    bytes: &[u8],
    rect: Rectangle,
    tints: &mut [u16],
) -> Option<Result<(), Above>> {
    if raster_fault(Access::Read, raster, bytes.len()).is_some() {
        return None;
    }
    if !is_in(raster, rect) || tints.len() != sides(rect) {
        return None;
    }
    Some(read(raster, bytes, rect, tints))
}

// Whether the tints were copied: the raster and the rectangle are right.
fn copy_checked(raster: &Raster, bytes: &[u8], rect: Rectangle, tints: &mut [u16]) -> bool {
    if raster_fault(Access::Read, raster, bytes.len()).is_some() {
        return false;
    }
    if !is_in(raster, rect) || tints.len() != sides(rect) {
        return false;
    }
    copy_tints(raster, bytes, rect, tints);
    true
}

// Whether the tints were written: the raster, the rectangle and the tints are right.
fn write_checked(raster: &Raster, tints: &[u16], rect: Rectangle, bytes: &mut [u8]) -> bool {
    let None = raster_fault(Access::Write, raster, bytes.len()) else {
        return false;
    };
    if !is_in(raster, rect) || tints.len() != sides(rect) || !are_fit(tints, raster.maxval) {
        return false;
    }
    write(raster, tints, rect, bytes);
    true
}

// A raster, a plane, and the tints of the plane if byte k of the memory is k.
const READS: [(Raster, u32, [u16; 6]); 5] = [
    (PIXELS, 1, [3, 7, 11, 19, 23, 27]),
    // Rows upwards.
    (
        Raster {
            origin: 18,
            rows: Axis {
                count: 2,
                stride: -16,
            },
            ..PIXELS
        },
        1,
        [19, 23, 27, 3, 7, 11],
    ),
    // Samples beside one another, 0 as full ink, of a maxval of 100.
    (
        Raster {
            maxval: 100,
            zero: Zero::Ink,
            pixels: Axis {
                count: 3,
                stride: 1,
            },
            planes: Axis {
                count: 4,
                stride: 4,
            },
            ..PIXELS
        },
        3,
        [86, 85, 84, 70, 69, 68],
    ),
    // Bytes 10 and 11 are 10 and 11: 10 + 256 * 11 = 2826.
    (WORDS, 0, [2826, 2312, 1798, 1284, 770, 256]),
    (WORDS, 1, [5910, 5396, 4882, 4368, 3854, 3340]),
];

#[test]
fn tints_are_read_where_the_strides_lead(rt: HostRuntime) -> Result<(), Fail> {
    let bytes = counted();
    for (raster, c, wanted) in READS {
        let mut tints = [0u16; 6];
        let given = read_checked(&raster, &bytes, plane(c), &mut tints);
        assert!(rt; given == Some(Ok(())), "plane {c}");
        for k in 0..6 {
            assert!(rt; tints[k] == wanted[k], "plane {c}, sample {k}");
        }
    }
    Ok(())
}

#[test]
fn the_first_number_above_the_maxval_is_named(rt: HostRuntime) -> Result<(), Fail> {
    let raster = Raster {
        maxval: 22,
        ..PIXELS
    };
    let mut tints = [0u16; 6];
    let given = read_checked(&raster, &counted(), plane(1), &mut tints);
    assert!(rt; given == Some(Err(Above { row: 1, column: 1 })));
    // 22 itself is in column 1.
    let given = read_checked(&raster, &counted(), plane(0), &mut tints);
    assert!(rt; given == Some(Err(Above { row: 1, column: 2 })));
    Ok(())
}

#[test]
fn a_number_above_the_maxval_stays_where_tints_are_copied(rt: HostRuntime) -> Result<(), Fail> {
    let raster = Raster {
        maxval: 22,
        zero: Zero::Ink,
        ..PIXELS
    };
    let bytes = counted();
    let mut tints = [0u16; 6];
    assert!(rt; copy_checked(&raster, &bytes, plane(1), &mut tints));
    // The numbers 3, 7, 11, 19, 23 and 27.
    for (k, wanted) in [19u16, 15, 11, 3, 23, 27].iter().enumerate() {
        assert!(rt; tints[k] == *wanted, "sample {k}");
    }
    Ok(())
}

// A raster, a plane, and for each of six places where a tint of 200 lands the byte: the others stay.
const WRITES: [(Raster, u32, [usize; 6]); 3] = [
    (PIXELS, 2, [4, 8, 12, 20, 24, 28]),
    (
        Raster {
            origin: 26,
            rows: Axis {
                count: 2,
                stride: -16,
            },
            pixels: Axis {
                count: 3,
                stride: -4,
            },
            ..PIXELS
        },
        0,
        [26, 22, 18, 10, 6, 2],
    ),
    (WORDS, 1, [22, 20, 18, 16, 14, 12]),
];

#[test]
fn tints_are_written_there_and_no_byte_beside_them(rt: HostRuntime) -> Result<(), Fail> {
    for (raster, c, places) in WRITES {
        let mut bytes = counted();
        let tints = [200u16, 201, 202, 203, 204, 205];
        assert!(rt;
            write_checked(&raster, &tints, plane(c), &mut bytes),
            "plane {c}"
        );
        let mut wanted = counted();
        for k in 0..6 {
            let at = places[k];
            if at + 1 < 40 {
                wanted[at] = 200 + k as u8;
                if raster.sample_size == 2 {
                    wanted[at + 1] = 0;
                }
            }
        }
        for k in 0..40 {
            assert!(rt; bytes[k] == wanted[k], "plane {c}, byte {k}");
        }
    }
    Ok(())
}

#[test]
fn full_ink_is_written_as_0_where_0_is_ink(rt: HostRuntime) -> Result<(), Fail> {
    let raster = Raster {
        maxval: 1000,
        zero: Zero::Ink,
        ..WORDS
    };
    let mut bytes = counted();
    let rect = Rectangle {
        plane: 0,
        left: 1,
        top: 1,
        width: 2,
        height: 1,
    };
    assert!(rt; write_checked(&raster, &[1000, 1], rect, &mut bytes));
    // Row 1 has bytes 0 to 5, from the right: column 1 is byte 2, column 2 is byte 0. 999 = 231 + 3 * 256.
    for (k, wanted) in [231u8, 3, 0, 0, 4, 5].iter().enumerate() {
        assert!(rt; bytes[k] == *wanted, "byte {k}");
    }
    Ok(())
}

// A raster, a memory's bytes, and its fault if it is read and if it is written.
const FAULTS: [(Raster, usize, Option<RasterFault>, Option<RasterFault>); 9] = [
    (PIXELS, 30, None, None),
    (
        PIXELS,
        29,
        Some(RasterFault::Extent),
        Some(RasterFault::Extent),
    ),
    (
        Raster {
            sample_size: 3,
            maxval: 0,
            ..PIXELS
        },
        0,
        Some(RasterFault::SampleSize),
        Some(RasterFault::SampleSize),
    ),
    (
        Raster {
            maxval: 256,
            ..PIXELS
        },
        0,
        Some(RasterFault::Maxval),
        Some(RasterFault::Maxval),
    ),
    // Samples of two bytes at every byte.
    (
        Raster {
            sample_size: 2,
            ..PIXELS
        },
        40,
        None,
        Some(RasterFault::Strides),
    ),
    // Rows of eleven bytes: the last ink of a row is the first of the next.
    (
        Raster {
            rows: Axis {
                count: 2,
                stride: 11,
            },
            ..PIXELS
        },
        40,
        None,
        Some(RasterFault::Strides),
    ),
    // One row alone has no stride.
    (
        Raster {
            rows: Axis {
                count: 1,
                stride: 0,
            },
            ..PIXELS
        },
        14,
        None,
        None,
    ),
    // The second row would begin before the memory.
    (
        Raster {
            rows: Axis {
                count: 2,
                stride: -3,
            },
            ..PIXELS
        },
        40,
        Some(RasterFault::Extent),
        Some(RasterFault::Strides),
    ),
    (
        Raster {
            rows: Axis {
                count: 4_294_967_295,
                stride: i64::MIN,
            },
            ..PIXELS
        },
        40,
        Some(RasterFault::Extent),
        Some(RasterFault::Extent),
    ),
];

#[test]
fn faults_come_in_their_order(rt: HostRuntime) -> Result<(), Fail> {
    for (raster, total, reading, writing) in FAULTS {
        assert!(rt;
            raster_fault(Access::Read, &raster, total) == reading,
            "{total}"
        );
        assert!(rt;
            raster_fault(Access::Write, &raster, total) == writing,
            "{total}"
        );
    }
    Ok(())
}
