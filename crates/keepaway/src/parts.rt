ghost use Rattle.std.specs.Prelude.{◌≤◌};
ghost use Rattle.page_model.specs.Limits.{most_trap_width, scale};

use page_model::parts::NameList;

/// How inks are drawn back under black: by which width, in ten-thousandths of a point; from which share of full ink on
/// a pixel is black, in ten-thousandths; and which inks are left alone.
#[derive(Drop)]
pub struct RichBlack {
    pub width: u32,
    pub limit: u32,
    pub spared: NameList,
    ghost narrow: { width ≤ most_trap_width },
    ghost share: { limit ≤ scale },
}
