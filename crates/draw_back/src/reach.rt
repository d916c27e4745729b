ghost use Rattle.std.specs.Prelude.{◌≡◌, ◌+◌, ◌<◌, ◌≤◌};
ghost use Rattle.lists.specs.Words.{square};
ghost use Rattle.page_model.specs.Limits.{most_reach};

use page_model::bounds::MOST_REACH;

/// How far a pixel looks: the greatest squared distance, and a number of rows and columns beyond which none is so near.
#[derive(Clone, Copy, Drop)]
pub struct Reach {
    pub limit: u32,
    pub radius: u32,
    ghost beyond: { limit < square (radius + 1) },
    ghost short: { radius ≤ most_reach },
}

impl Reach {
    /// The reach of a greatest squared distance.
    pub fn of(limit: u32) -> Reach
        requires { limit < square (most_reach + 1) }
        ensures { result.limit ≡ limit }
    {
        let mut radius = 0;
        for r in 0..MOST_REACH + 1 {
            if r * r <= limit {
                radius = r;
            }
        }
        Reach { limit, radius }
    }
}
