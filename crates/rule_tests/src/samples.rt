use page_source::sample::{SampleError, sample_page};
use std::test::Fail;

#[test]
fn tiles_have_their_colours(rt: HostRuntime) -> Result<(), Fail> {
    let page = sample_page(rt.alloc(), 0, 16, 8)?;
    // The first tile is cyan, and the one beside it black.
    for (x, wanted) in [
        (0, [255, 0, 0, 0]),
        (7, [255, 0, 0, 0]),
        (8, [0, 0, 0, 255]),
        (15, [0, 0, 0, 255]),
    ] {
        for plate in 0..4u32 {
            let planes = page.planes().as_slice();
            let tints = planes
                .get(plate as usize)
                .ok_or("no plate")?
                .tints
                .as_slice();
            assert_eq!(rt;
                tints.get(16 * 7 + x).copied(),
                wanted.get(plate as usize).copied()
            );
        }
    }
    assert_eq!(rt; page.reach2(), 12);
    let refused = sample_page(rt.alloc(), 0, 16384, 16384);
    assert!(rt; matches!(refused, Err(SampleError::TooManySamples)));
    Ok(())
}
