ghost use Rattle.std.specs.Prelude.{◌≤◌};
ghost use Rattle.page_model.specs.Limits.{most_trap_width};

use lists::list::List;
use page_model::parts::Name;

/// An ink that lies below the others, and by which width it is drawn back, in ten-thousandths of a point.
#[derive(Drop)]
pub struct White {
    pub name: Name,
    pub width: u32,
    ghost narrow: { width ≤ most_trap_width },
}

/// The underprints of a page, each by its name.
pub type WhiteList = List<White>;
