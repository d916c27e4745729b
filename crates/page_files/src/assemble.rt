ghost use Rattle.std.specs.Prelude.{◌≡◌, ◌⊎◌, ◌<◌, ◌≤◌, IfOk, Ok, Err, map, length, All, is_none, MatchResult, option_copied};
ghost use Rattle.std.specs.List.{position, list_any};
ghost use Rattle.std.specs.Str.{bytes_eq};
ghost use Rattle.pgm_plates.specs.Planes.{plane_of};
ghost use Rattle.pgm_plates.specs.Plates.{IsPlate};
ghost use Rattle.job_reader.specs.InRange.{IsJob};
ghost use Rattle.page_files.specs.Assembly.{CanAssemble, CanAssemblePlanes, assembly, assembly_of_planes, parts_of_planes, without_details as plate_without, detail_of as detail_spec, ink_of as ink_spec, zone_for};
ghost use Rattle.page_model.specs.Limits.{most_plates};

use common_errors::common::CommonError;
use job_reader::job::Job;
use lists::list::List;
use lists::names::copy_name;
use page_model::bounds::SCALE;
use page_model::limits::keep;
use page_model::page::Page;
use page_model::parts::{
    DetailList, Ink, InkKind, InkList, Name, NameList, OutOfMemory, PageParts, PlaneList, ZoneList,
};
use pgm_plates::plate::Plate;
use std::alloc::Global;

/// Plates, in the order of the words.
pub type PlateList = List<Plate>;

/// Makes a page of a job and plates. Each plate has its colorant's name, and gets the ink that the job's details give
/// that name; each zone keeps only the limits of the plates' names.
///
/// If some zone is enabled, the first plate without details is refused. If none is, such a plate gets a density of
/// 10,000 ten-thousandths and the kind Normal. Then come the faults of `Page::new`, and out of memory. The rule is this
/// project's own.
pub fn assemble(
    alloc: Global,
    job: Job,
    plates: PlateList,
    names: &NameList,
) -> Result<Page, CommonError>
    requires job { IsJob job }
    requires plates { CanAssemble plates names.now }
    ensures { let made = assembly job plates names.now in
        MatchResult result (λ page. made ≡ Ok page)
        (λ error. (error ≡ CommonError.Memory) ⊎ (made ≡ Err error)) }
{
    match planes_of(alloc, plates) {
        Ok(planes) => assemble_planes(alloc, job, planes, names),
        Err(OutOfMemory) => Err(CommonError::Memory),
    }
}

/// Does what `assemble` does, with planes in place of plates.
pub fn assemble_planes(
    alloc: Global,
    job: Job,
    planes: PlaneList,
    names: &NameList,
) -> Result<Page, CommonError>
    requires job { IsJob job }
    requires planes { CanAssemblePlanes planes names.now }
    ensures { let made = assembly_of_planes job planes names.now in
        MatchResult result (λ page. made ≡ Ok page)
        (λ error. (error ≡ CommonError.Memory) ⊎ (made ≡ Err error)) }
{
    if let Some(plate) = without_details(&job, names) {
        return Err(CommonError::NoDetails(plate));
    }
    match parts_of(alloc, job, planes, names) {
        Ok(parts) => match Page::new(parts) {
            Ok(page) => Ok(page),
            Err((fault, _parts)) => Err(CommonError::Page(fault)),
        },
        Err(OutOfMemory) => Err(CommonError::Memory),
    }
}

/// The number of the first plate whose colorant has no details in the job, if some zone is enabled; else `None`.
pub fn without_details(job: &Job, names: &NameList) -> Option<u32>
    requires { length names.now ≤ most_plates }
    ensures { result ≡ plate_without job.now names.now }
{
    if !some_enabled(&job.zones) {
        return None;
    }
    match first_without(&job.details, names) {
        Some(plate) => Some(plate as u32),
        None => None,
    }
}

fn first_without(details: &DetailList, names: &NameList) -> Option<usize>
    ensures { result ≡ position (λ name. is_none (detail_spec details.now name)) names.now }
{
    names
        .as_slice()
        .iter()
        .position(|name| is_without(details, name))
}

fn is_without(details: &DetailList, name: &Name) -> bool
    ensures { result ≡ is_none (detail_spec details.now name.now) }
{
    detail_of(details, name.as_slice()).is_none()
}

fn some_enabled(zones: &ZoneList) -> bool
    ensures { result ≡ list_any (λ z. z.params.enabled) zones.now }
{
    zones.as_slice().iter().any(|zone| zone.params.enabled)
}

// The details of the colorant of that name.
fn detail_of<'a>(details: &'a DetailList, name: &[u8]) -> Option<&'a Ink>
    ensures { option_copied result ≡ detail_spec details.now name.now }
{
    details.as_slice().iter().find(|ink| is_named(ink, name))
}

fn is_named(ink: &Ink, name: &[u8]) -> bool
    ensures { result ≡ bytes_eq ink.now.name name.now }
{
    ink.name.as_slice() == name
}

/// The parts of a page, made of a job and planes, in the order of the names.
pub fn parts_of(
    alloc: Global,
    job: Job,
    planes: PlaneList,
    names: &NameList,
) -> Result<PageParts, OutOfMemory>
    ensures { IfOk result (λ parts. parts ≡ parts_of_planes job planes names.now) }
{
    let Job {
        resolution,
        zones,
        details,
    } = job;
    let inks = inks_of(alloc, &details, names)?;
    let zones = zones_of(zones, names);
    Ok(PageParts {
        resolution,
        planes,
        inks,
        zones,
    })
}

// The planes of these plates.
fn planes_of(alloc: Global, plates: PlateList) -> Result<PlaneList, OutOfMemory>
    requires { All IsPlate plates }
    ensures { IfOk result (λ planes. planes ≡ map plane_of plates) }
{
    let plates = plates.into_vec();
    let mut planes = List::new(alloc);
    for plate in plates {
        if planes.push(plate.into_plane()).is_err() {
            return Err(OutOfMemory);
        }
    }
    Ok(planes)
}

fn inks_of(alloc: Global, details: &DetailList, names: &NameList) -> Result<InkList, OutOfMemory>
    ensures { IfOk result (λ inks. inks ≡ map (ink_spec details.now) names.now) }
{
    let mut inks = List::new(alloc);
    for name in names.as_slice() {
        let ink = ink_of(alloc, details, name.as_slice())?;
        if inks.push(ink).is_err() {
            return Err(OutOfMemory);
        }
    }
    Ok(inks)
}

fn ink_of(alloc: Global, details: &DetailList, name: &[u8]) -> Result<Ink, OutOfMemory>
    ensures { IfOk result (λ ink. ink ≡ ink_spec details.now name.now) }
{
    match detail_of(details, name) {
        Some(ink) => make_ink(alloc, ink.name.as_slice(), ink.density, ink.kind),
        None => make_ink(alloc, name, SCALE, InkKind::Normal),
    }
}

fn make_ink(alloc: Global, name: &[u8], density: u32, kind: InkKind) -> Result<Ink, OutOfMemory>
    ensures { IfOk result (λ ink.
        ink ≡ record { name = name.now; density = density; kind = kind }) }
{
    let name = copy_name(alloc, name)?;
    Ok(Ink {
        name,
        density,
        kind,
    })
}

fn zones_of(zones: ZoneList, names: &NameList) -> ZoneList
    ensures { result ≡ map (zone_for names.now) zones }
{
    let mut zones = zones.into_vec();
    for at in 0..zones.len() {
        let zone = &mut zones[at];
        keep(&mut zone.limits, names);
    }
    List::from_vec(zones)
}
