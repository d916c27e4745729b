// Laws over the definitions: each function does nothing, and its contract is the law.

ghost use Rattle.std.specs.Prelude.{◌+◌, ◌<◌, ℕ};
ghost use Rattle.lists.specs.Words.{square};
ghost use Rattle.draw_back.specs.Drawn.{Scene};
ghost use Rattle.draw_back.specs.Laws.{DrawnLaw, IsWindow, WindowLaw};

/// What a pixel is drawn back to: it never gains ink, and it changes only where some pixel near by is not covered.
pub fn drawn_law()
    ensures { (s : Scene) (x y : ℕ) → DrawnLaw s x y }
{}

/// Some rows of a sheet, with as many above and below them as the reach is long, give their new tints.
pub fn window_law()
    ensures { (window sheet : Scene) (first radius : ℕ) → IsWindow window sheet first
        → window.limit < square (radius + 1) → WindowLaw window sheet first radius }
{}
