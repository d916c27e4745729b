use band_core::needs::{need_at, need_count, piece, pieces};
use page_model::bands::Bands;
use std::test::Fail;

/// Whether these are the needs of a piece of a page of `rows` rows, in bands of `height` rows.
fn needs_are(rows: u32, height: u32, reach2: u32, piece: u32, want: &[u32]) -> bool {
    if rows < 1 || rows > 16384 || height < 1 || height > 4096 || reach2 > 256 {
        return false;
    }
    let bands = Bands::new(rows, height, reach2);
    if piece >= pieces(&bands) || need_count(&bands, piece) as usize != want.len() {
        return false;
    }
    for k in 0..need_count(&bands, piece) {
        if want.get(k as usize).copied() != Some(need_at(&bands, piece, k)) {
            return false;
        }
    }
    true
}

/// Whether the middle band's columns need the edges of `halo` bands above and below it.
fn reaches(height: u32, reach2: u32, halo: u32) -> bool {
    if height < 1 || height > 4096 || reach2 > 256 {
        return false;
    }
    let bands = Bands::new(12288, height, reach2);
    let band = bands.count / 2;
    let columns = piece(&bands, 2, band);
    let count = need_count(&bands, columns);
    count > 0
        && halo <= band
        && count == 2 * halo + 1
        && need_at(&bands, columns, 0) == bands.count + band - halo
}

#[test]
fn each_phase_needs_what_stands_in_the_table(rt: HostRuntime) -> Result<(), Fail> {
    for (rows, height, reach2, piece, want) in [
        (12, 1, 10, 24, [12, 13, 14, 15, 16, 17].as_slice()),
        (12, 4, 10, 6, [3, 4, 5].as_slice()),
        (12, 4096, 10, 2, [1].as_slice()),
        (5, 2, 0, 6, [3].as_slice()),
        (5, 2, 0, 8, [5].as_slice()),
        (5, 2, 0, 0, [].as_slice()),
        (5, 2, 0, 3, [0, 1].as_slice()),
        (5, 2, 0, 5, [2].as_slice()),
        (5, 2, 0, 10, [1, 7].as_slice()),
        (12, 1, 2, 29, [16, 17, 18].as_slice()),
        (12, 1, 2, 35, [22, 23].as_slice()),
    ] {
        assert!(rt;
            needs_are(rows, height, reach2, piece, want),
            "{rows} {height} {piece}"
        );
    }
    Ok(())
}

#[test]
fn the_halo_is_cut_up_to_rows_and_then_to_bands(rt: HostRuntime) -> Result<(), Fail> {
    for (height, halos) in [
        (1, [0, 1, 1, 128, 128]),
        (4, [0, 1, 1, 32, 32]),
        (64, [0, 1, 1, 2, 2]),
        (4096, [0, 1, 1, 1, 1]),
    ] {
        for (reach2, halo) in [0, 1, 2, 255, 256].iter().zip(halos.iter()) {
            assert!(rt; reaches(height, *reach2, *halo), "{height} {reach2}");
        }
    }
    Ok(())
}
