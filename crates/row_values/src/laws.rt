// Laws over the definitions: each function does nothing, and its contract is the law.

ghost use Rattle.row_values.specs.Quiet.{KeepsTints, NoMarkNear};

use page_model::page::Page;
use page_model::parts::At;

/// If no edge decides within the page's reach of a sample, both across and down, the sample keeps its tints.
pub fn quiet_law(page: &Page, p: At)
    ensures { NoMarkNear page.now p → KeepsTints page.now p }
{
    let _valid = page.plates();
}
