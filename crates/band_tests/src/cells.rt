use band_core::layout::Layout;
use band_core::packing::{pack, unpack};
use page_model::bands::Bands;
use std::test::Fail;

/// Whether the pieces' first cells have these numbers, and there are `cells` cells, for a page in bands with a reach of
/// 0.
fn stands(page: (u32, u32, u32), height: u32, firsts: &[u32], cells: u32) -> bool {
    let (width, rows, plates) = page;
    if width < 1 || width > 16384 || rows < 1 || rows > 16384 || plates < 1 || plates > 16 {
        return false;
    }
    if height < 1 || height > 4096 {
        return false;
    }
    let bands = Bands::new(rows, height, 0);
    let layout = Layout::new(width, plates, &bands);
    for piece in 0..4 * bands.count {
        if firsts.get(piece as usize).copied() != Some(layout.first_cell(piece)) {
            return false;
        }
    }
    layout.cells() == cells
}

#[test]
fn cells_stand_piece_by_piece(rt: HostRuntime) -> Result<(), Fail> {
    for (page, height, firsts, cells) in [
        ((8, 3, 2), 2, [0, 3, 5, 6, 7, 12, 15, 26].as_slice(), 32),
        ((1, 1, 1), 64, [0, 1, 2, 3].as_slice(), 4),
        ((1, 2, 1), 1, [0, 1, 2, 3, 4, 5, 6, 7].as_slice(), 8),
        ((7, 1, 3), 1, [0, 1, 2, 5].as_slice(), 12),
        (
            (5, 5, 1),
            2,
            [0, 2, 4, 5, 6, 7, 8, 11, 14, 16, 20, 24].as_slice(),
            26,
        ),
    ] {
        assert!(rt; stands(page, height, firsts, cells), "{height} {cells}");
    }
    Ok(())
}

#[test]
fn the_largest_page_has_fewer_than_2_to_the_31_cells(rt: HostRuntime) -> Result<(), Fail> {
    let bands = Bands::new(16384, 1, 256);
    let layout = Layout::new(16384, 16, &bands);
    assert_eq!(rt; layout.cells(), 1_568_178_176);
    assert_eq!(rt; layout.values(65535), 262_144);
    Ok(())
}

#[test]
fn values_are_packed_from_the_lowest_lane(rt: HostRuntime) -> Result<(), Fail> {
    assert_eq!(rt; pack(8, &[1u8, 0, 2]), 131_074);
    assert_eq!(rt; pack(2, &[1u8, 2, 3]), 58);
    assert_eq!(rt; pack(10, &[0u16, 258]), 264_193);
    assert_eq!(rt; pack(16, &[255u16, 0, 128]), 549_755_814_144);
    assert_eq!(rt; pack(2, &[0u8; 31]), 1);
    let mut tints = [9u16; 3];
    unpack(16, 549_755_814_144, &mut tints);
    assert_eq!(rt; tints, [255, 0, 128]);
    let mut zones = [9u8; 3];
    unpack(8, 131_074, &mut zones);
    assert_eq!(rt; zones, [1, 0, 2]);
    Ok(())
}
