// The lines of a report, and the parts of those that are longer.

ghost use Rattle.std.specs.Prelude.{◌≡◌, ◌++◌, ◌∷◌, [], codes, decimal};
ghost use Rattle.trap_report.specs.Report.{edges_line, title_line};

use crate::reported::Head;
use common_errors::line::Line;

// The title, and the beginning of the page's line.
pub(crate) fn sides_of(head: &Head) -> Line
    ensures { result ≡ title_line ++ (codes "page " ++ decimal head.now.width ++ codes " "
        ++ decimal head.now.height) }
{
    let mut line = Line::new();
    line.push(b"trap report\npage ");
    line.push_number(u64::from(head.width));
    line.push(b" ");
    line.push_number(u64::from(head.height));
    line
}

// The end of the page's line.
pub(crate) fn plates_of(head: &Head) -> Line
    ensures { result ≡ codes " " ++ decimal head.now.maxval ++ codes " plates "
        ++ decimal head.now.plates ++ 10 ∷ [] }
{
    let mut line = Line::new();
    line.push(b" ");
    line.push_number(u64::from(head.maxval));
    line.push(b" plates ");
    line.push_number(head.plates);
    line.push(b"\n");
    line
}

// The beginning of the line of a zone.
pub(crate) fn samples_of(zone: u64, samples: u64) -> Line
    ensures { result ≡ codes "zone " ++ decimal zone ++ codes " samples " ++ decimal samples }
{
    let mut line = Line::new();
    line.push(b"zone ");
    line.push_number(zone);
    line.push(b" samples ");
    line.push_number(samples);
    line
}

// The end of the line of a zone or a plate.
pub(crate) fn changed_of(changed: u64) -> Line
    ensures { result ≡ codes " changed " ++ decimal changed ++ 10 ∷ [] }
{
    let mut line = Line::new();
    line.push(b" changed ");
    line.push_number(changed);
    line.push(b"\n");
    line
}

pub(crate) fn edges_of(edges: u64) -> Line
    ensures { result ≡ edges_line edges }
{
    let mut line = Line::new();
    line.push(b"edges ");
    line.push_number(edges);
    line.push(b"\n");
    line
}
