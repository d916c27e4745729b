use trap_color::widths::is_near;

/// The greatest squared distance within, for widths whose exact values are 4, 2, 0.5, 4 and 1/6, 2 and 1/12, 8 and 1/3,
/// 10 and 12.5 half-samples.
#[test]
fn widths_are_compared_exactly(rt: HostRuntime) {
    for (width, factor, resolution, slid, most) in [
        (20_000, 10_000, 72, false, 16),
        (20_000, 10_000, 72, true, 4),
        (2_500, 10_000, 72, false, 0),
        (2_500, 10_000, 600, false, 17),
        (2_500, 10_000, 600, true, 4),
        (2_500, 20_000, 600, false, 69),
        (50_000, 10_000, 72, false, 100),
        (7_500, 10_000, 600, false, 156),
    ] {
        assert!(rt; width <= 1_000_000 && factor <= 100_000);
        assert!(rt; resolution <= 10_000 && most < 1_000);
        assert!(rt; is_near(most, slid, width, factor, resolution), "{most}");
        assert!(rt;
            !is_near(most + 1, slid, width, factor, resolution),
            "{most}"
        );
    }
}
