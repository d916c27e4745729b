// Where a worker traps page after page.

ghost use Rattle.strip_engine.specs.Workspaces.{IsWorkspaceFor};

use strip_engine::PageWorkspace;

/// The buffers that pages of one shape are trapped with, and that shape. They have the planes of the page before: the
/// planes of the page that is trapped go in, and the new ones come out.
#[derive(Drop)]
pub(crate) struct Station {
    pub workspace: PageWorkspace,
    pub wide: u32,
    pub tall: u32,
    pub deep: u32,
    pub zones: u32,
    ghost fits: { IsWorkspaceFor (record { wide = wide; tall = tall; deep = deep; zones = zones }) workspace },
}
