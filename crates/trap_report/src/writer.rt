// The lines of a report, one after the other, into a sink.

ghost use Rattle.std.specs.Prelude.{◌≡◌, ◌≤◌, ◌++◌, length};
ghost use Rattle.page_model.specs.Page.{maxval, plates};
ghost use Rattle.trap_report.specs.Report.{AreCounts, head_line, plate_line, plate_lines, report_of, sided_report_of, title_line, zone_line, zone_lines};

use crate::reported::{Head, Reported};
use crate::sink::Sink;
use crate::written_lines::{changed_of, edges_of, plates_of, samples_of, sides_of};
use outside::tray::DeviceError;
use page_model::parts::Counts;

// Writes a whole report.
pub(crate) fn write_all<S: Sink, P: Reported>(
    sink: &mut S,
    page: &P,
    counts: &Counts,
) -> Result<(), DeviceError>
    requires open { S.is_open sink.old }
    requires some { 1 ≤ plates (P.parts page.now) }
    requires inks { length (P.parts page.now).inks ≡ plates (P.parts page.now) }
    requires counts { AreCounts (P.parts page.now) counts.now }
    ensures open { S.is_open sink.new }
    ensures added { S.adds (report_of (P.parts page.now) counts.now) sink.old sink.new result }
{
    write_lines(sink, page, &page.head(), counts)
}

// Writes a report whose second line has these numbers.
pub(crate) fn write_lines<S: Sink, P: Reported>(
    sink: &mut S,
    page: &P,
    head: &Head,
    counts: &Counts,
) -> Result<(), DeviceError>
    requires open { S.is_open sink.old }
    requires inks { length (P.parts page.now).inks ≡ plates (P.parts page.now) }
    requires counts { AreCounts (P.parts page.now) counts.now }
    requires maxval { head.now.maxval ≡ maxval (P.parts page.now) }
    requires plates { head.now.plates ≡ plates (P.parts page.now) }
    ensures open { S.is_open sink.new }
    ensures added { let text =
        sided_report_of (P.parts page.now) head.now.width head.now.height counts.now in
        S.adds text sink.old sink.new result }
{
    write_head(sink, head)?;
    write_zones(sink, page.zone_count(), counts)?;
    let edges = edges_of(counts.edges);
    sink.add(edges.as_slice())?;
    write_plates(sink, page, counts)?;
    sink.add(b"end\n")
}

fn write_head<S: Sink>(sink: &mut S, head: &Head) -> Result<(), DeviceError>
    requires open { S.is_open sink.old }
    ensures open { S.is_open sink.new }
    ensures added { let text = title_line
        ++ head_line head.now.width head.now.height head.now.maxval head.now.plates in
        S.adds text sink.old sink.new result }
{
    let first = sides_of(head);
    let rest = plates_of(head);
    add_both(sink, first.as_slice(), rest.as_slice())
}

fn write_zones<S: Sink>(sink: &mut S, zones: usize, counts: &Counts) -> Result<(), DeviceError>
    requires open { S.is_open sink.old }
    requires samples { length counts.now.zone_samples ≡ zones }
    requires changed { length counts.now.zone_changed ≡ zones }
    ensures open { S.is_open sink.new }
    ensures added { S.adds (zone_lines counts.now zones) sink.old sink.new result }
{
    let samples = counts.zone_samples.as_slice();
    let changed = counts.zone_changed.as_slice();
    for zone in 0..zones {
        write_zone(sink, zone as u64, samples[zone], changed[zone])?;
    }
    Ok(())
}

fn write_zone<S: Sink>(
    sink: &mut S,
    zone: u64,
    samples: u64,
    changed: u64,
) -> Result<(), DeviceError>
    requires open { S.is_open sink.old }
    ensures open { S.is_open sink.new }
    ensures added { S.adds (zone_line zone samples changed) sink.old sink.new result }
{
    let first = samples_of(zone, samples);
    let rest = changed_of(changed);
    add_both(sink, first.as_slice(), rest.as_slice())
}

fn write_plates<S: Sink, P: Reported>(
    sink: &mut S,
    page: &P,
    counts: &Counts,
) -> Result<(), DeviceError>
    requires open { S.is_open sink.old }
    requires inks { length (P.parts page.now).inks ≡ plates (P.parts page.now) }
    requires counts { AreCounts (P.parts page.now) counts.now }
    ensures open { S.is_open sink.new }
    ensures added { let text = plate_lines (P.parts page.now) counts.now (plates (P.parts page.now)) in
        S.adds text sink.old sink.new result }
{
    let changed = counts.plate_changed.as_slice();
    for plate in 0..page.plate_count() {
        write_plate(sink, page.ink_name(plate), changed[plate])?;
    }
    Ok(())
}

fn write_plate<S: Sink>(sink: &mut S, name: &[u8], changed: u64) -> Result<(), DeviceError>
    requires open { S.is_open sink.old }
    ensures open { S.is_open sink.new }
    ensures added { S.adds (plate_line name.now changed) sink.old sink.new result }
{
    add_both(sink, b"plate ", name)?;
    let rest = changed_of(changed);
    sink.add(rest.as_slice())
}

// Adds two pieces.
fn add_both<S: Sink>(sink: &mut S, first: &[u8], rest: &[u8]) -> Result<(), DeviceError>
    requires open { S.is_open sink.old }
    ensures open { S.is_open sink.new }
    ensures added { S.adds (first.now ++ rest.now) sink.old sink.new result }
{
    sink.add(first)?;
    sink.add(rest)
}
