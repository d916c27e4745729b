use keepaway::RichBlack;
use underprint::WhiteList;

/// What is drawn back on a page: the inks under black, or the whites under colour.
#[derive(Drop)]
pub enum KeepUse {
    UnderBlack(RichBlack),
    UnderColour(WhiteList),
}
