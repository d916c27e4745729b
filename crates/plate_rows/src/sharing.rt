ghost use Rattle.std.specs.Prelude.{◌≤◌, length, map};
ghost use Rattle.std.specs.Thread.{IsSend, IsSync};
ghost use Rattle.page_model.specs.Limits.{most_plates};
ghost use Rattle.plate_rows.specs.Judging.{JudgesPlates, JudgesShare};

use crate::judging::{PlateErrorAt, error_at_plate, first_of, judge_by};
use common_errors::common::CommonError;
use outside::tray::Tray;
use pgm_plates::rows::Header;
use std::convert::AsStr;
use std::thread;
use std::thread::Threads;

/// Checks the plates of these files, file k by tray k, and writes their headers to `headers`: side by side, on as many
/// threads as there are workers, or plates if these are fewer; each thread checks some of the plates in order. It
/// allocates nothing but what threads take, and keeps nothing of a plate but its header.
///
/// The error is that of the first refused plate in the order of the files: `Plate` with its fault, by the limits of a
/// sheet, or `Read` if a read failed, each with the plate's number. Some of the plates after it may have been checked
/// as well; which of them were begun is not said.
pub fn judge_plates<H: Threads + Sync, T: Tray + Send, S: AsStr + Sync>(
    rt: &H,
    workers: u32,
    trays: &mut [T],
    inputs: &[S],
    headers: &mut [Header],
) -> Result<(), CommonError>
    requires some_workers { 1 ≤ workers }
    requires few { length inputs.now ≤ most_plates }
    requires trays { length inputs.now ≤ length trays.old }
    requires headers { length inputs.now ≤ length headers.old }
    ensures { JudgesPlates (map S.text inputs.now) headers.new (map T.state trays.old)
        (map T.state trays.new) result }
{
    match judge_share(rt, workers as usize, inputs, trays, headers) {
        Ok(()) => Ok(()),
        Err(error) => Err(error_at_plate(error)),
    }
}

// Checks some of the plates by a number of workers: one worker checks them in order, several in two shares side by
// side.
#[cycle(shares)]
fn judge_share<H: Threads + Sync, T: Tray + Send, S: AsStr + Sync>(
    rt: &H,
    workers: usize,
    inputs: &[S],
    trays: &mut [T],
    headers: &mut [Header],
) -> Result<(), PlateErrorAt>
    requires few { length inputs.now ≤ most_plates }
    requires trays { length inputs.now ≤ length trays.old }
    requires headers { length inputs.now ≤ length headers.old }
    ensures { JudgesShare (map S.text inputs.now) headers.new (map T.state trays.old)
        (map T.state trays.new) result }
{
    let workers = workers.min(inputs.len());
    if workers < 2 {
        return judge_by::<T, S, 131_072>(inputs, trays, headers);
    }
    let half = workers / 2;
    let count = share_of(inputs.len(), half, workers);
    let (inputs, inputs_after) = inputs.split_at(count);
    let (trays, trays_after) = trays.split_at_mut(count);
    let (headers, headers_after) = headers.split_at_mut(count);
    let share = Share {
        workers: half,
        inputs,
    };
    let share_after = Share {
        workers: workers - half,
        inputs: inputs_after,
    };
    let (first, second) = judge_beside(
        rt,
        &share,
        trays,
        headers,
        &share_after,
        trays_after,
        headers_after,
    );
    first_of(count as u32, first, second)
}

// How many of the plates the first workers check, if all workers check about the same number.
fn share_of(plates: usize, first: usize, workers: usize) -> usize
    requires few { plates ≤ most_plates }
    requires some_workers { 1 ≤ workers }
    requires first { first ≤ workers }
    requires plates { workers ≤ plates }
    ensures { result ≤ plates }
{
    plates * first / workers
}

// Some of the plates, and the number of workers that check them.
#[derive(Drop)]
struct Share<'a, S> {
    workers: usize,
    inputs: &'a [S],
}

// Checks two shares of plates side by side, each by its workers. It is a function of its own, so that what the closures
// require is what this function is given.
#[cycle(shares)]
fn judge_beside<H: Threads + Sync, T: Tray + Send, S: AsStr + Sync>(
    rt: &H,
    share: &Share<'_, S>,
    trays: &mut [T],
    headers: &mut [Header],
    share_after: &Share<'_, S>,
    trays_after: &mut [T],
    headers_after: &mut [Header],
) -> (Result<(), PlateErrorAt>, Result<(), PlateErrorAt>)
    requires some_workers { 1 ≤ share.now.workers }
    requires some_workers_after { 1 ≤ share_after.now.workers }
    requires few { length share.now.inputs.now ≤ most_plates }
    requires trays { length share.now.inputs.now ≤ length trays.old }
    requires headers { length share.now.inputs.now ≤ length headers.old }
    requires few_after { length share_after.now.inputs.now ≤ most_plates }
    requires trays_after { length share_after.now.inputs.now ≤ length trays_after.old }
    requires headers_after { length share_after.now.inputs.now ≤ length headers_after.old }
    ensures first { JudgesShare (map S.text share.now.inputs.now) headers.new
        (map T.state trays.old) (map T.state trays.new) result.0 }
    ensures second { JudgesShare (map S.text share_after.now.inputs.now) headers_after.new
        (map T.state trays_after.old) (map T.state trays_after.new) result.1 }
{
    let mut first = || -> Result<(), PlateErrorAt>
        requires bounds { IsSync H.row × IsSend T.row × IsSync S.row }
        requires few { length share.now.inputs.now ≤ most_plates }
        requires trays { length share.now.inputs.now ≤ length trays.now }
        requires headers { length share.now.inputs.now ≤ length headers.now }
        ensures { JudgesShare (map S.text share.entry.now.inputs.now) headers.exit.now
            (map T.state trays.entry.now) (map T.state trays.exit.now) result }
    { judge_share(rt, share.workers, share.inputs, trays, headers) };
    let mut second = || -> Result<(), PlateErrorAt>
        requires bounds { IsSync H.row × IsSend T.row × IsSync S.row }
        requires few { length share_after.now.inputs.now ≤ most_plates }
        requires trays { length share_after.now.inputs.now ≤ length trays_after.now }
        requires headers { length share_after.now.inputs.now ≤ length headers_after.now }
        ensures { JudgesShare (map S.text share_after.entry.now.inputs.now) headers_after.exit.now
            (map T.state trays_after.entry.now) (map T.state trays_after.exit.now) result }
    {
        judge_share(
            rt,
            share_after.workers,
            share_after.inputs,
            trays_after,
            headers_after,
        )
    };
    thread::join_mut(rt, &mut first, &mut second)
}
