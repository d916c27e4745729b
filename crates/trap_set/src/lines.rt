// The lines of a set, each in memory as a whole.

ghost use Rattle.std.specs.Prelude.{◌≡◌, ◌∷◌, [], ◌+◌, ◌<◌, ◌≤◌, ◌↔◌, IfSome, IfNone, IsTrue, All, length, false};
ghost use Rattle.trap_set.specs.Reading.{AreShort, IsShortRun, head_in, run_in};
ghost use Rattle.trap_set.specs.Runs.{Run};
ghost use Rattle.trap_set.specs.SetText.{IsHead, IsRun, SetHead, page_line, run_line};
ghost use Rattle.trap_set.specs.Numbers.{past_numbers};

use crate::numbers::{take_number, take_numbers, take_word};
use page_model::bounds::{MOST_MAXVAL, MOST_PLATES, MOST_SAMPLES, MOST_SIDE};

/// The numbers of a set's second line.
#[derive(Clone, Copy, Drop)]
pub(crate) struct Head {
    pub(crate) width: u32,
    pub(crate) height: u32,
    pub(crate) maxval: u32,
    pub(crate) plates: u32,
}

/// Reads a page line with its LF: the sides, the maxval and the number of planes; `None` for every other line.
pub(crate) fn read_page_line(line: &[u8]) -> Option<Head>
    ensures line { IfSome result (λ head. line.now ≡ page_line (head_in head)) }
    ensures range { IfSome result (λ head. IsHead (head_in head)) }
    ensures none { IfNone result ((head : SetHead) → IsHead head → line.now ≡ page_line head → ⊥) }
{
    match read_page_words(line) {
        Some(head) => { if is_head(head) { Some(head) } else { None } }
        None => None,
    }
}

// The numbers of a page line, whether or not they are in range.
fn read_page_words(line: &[u8]) -> Option<Head>
    ensures line { IfSome result (λ head. line.now ≡ page_line (head_in head)) }
    ensures short { IfSome result (λ head. AreShort (head_in head)) }
    ensures none { IfNone result ((head : SetHead) → AreShort head
        → line.now ≡ page_line head → ⊥) }
{
    let mut sides = [0u32; 3];
    let Some(numbers) = take_word(line, b"page") else {
        return None;
    };
    let Some(words) = take_numbers(numbers, &mut sides) else {
        return None;
    };
    let Some(count) = take_word(words, b" plates") else {
        return None;
    };
    let Some((plates, end)) = take_number(count) else {
        return None;
    };
    if !is_line_end(end) {
        return None;
    }
    Some(Head {
        width: sides[0],
        height: sides[1],
        maxval: sides[2],
        plates,
    })
}

// Whether only the LF of a line is left.
fn is_line_end(text: &[u8]) -> bool
    ensures { IsTrue result ↔ (text.now ≡ 10 ∷ []) }
{
    text.len() == 1 && text[0] == b'\n'
}

// Whether the numbers of a page line are in range.
fn is_head(head: Head) -> bool
    requires { AreShort (head_in head) }
    ensures { IsTrue result ↔ IsHead (head_in head) }
{
    1 <= head.width
        && head.width <= MOST_SIDE
        && 1 <= head.height
        && head.height <= MOST_SIDE
        && 1 <= head.maxval
        && head.maxval <= MOST_MAXVAL
        && 1 <= head.plates
        && head.plates as usize <= MOST_PLATES
        && u64::from(head.width) * u64::from(head.height) * u64::from(head.plates) <= MOST_SAMPLES
}

/// Reads the numbers of a run's line with its LF: its row, its column, its number of samples, and its tints. Returns
/// whether it is a run of a set with that page line.
pub(crate) fn read_run_line(line: &[u8], head: Head, numbers: &mut [u32]) -> bool
    requires { length numbers.old ≡ head.plates + 3 }
    ensures line { IsTrue result → line.now ≡ run_line (run_in numbers.new) }
    ensures range { IsTrue result → IsRun (head_in head) (run_in numbers.new) }
    ensures none { result ≡ false → IsHead (head_in head)
        → (run : Run) → IsRun (head_in head) run → line.now ≡ run_line run → ⊥ }
{
    read_run_words(line, numbers) && is_run(head, numbers)
}

// Reads the numbers of a run's line, whether or not they are in range.
fn read_run_words(line: &[u8], numbers: &mut [u32]) -> bool
    requires { 3 ≤ length numbers.old }
    ensures line { IsTrue result → line.now ≡ run_line (run_in numbers.new) }
    ensures short { IsTrue result → All (λ n. n < past_numbers) numbers.new }
    ensures none { result ≡ false → (run : Run) → IsShortRun (length numbers.old) run
        → line.now ≡ run_line run → ⊥ }
{
    let Some(text) = take_word(line, b"run") else {
        return false;
    };
    let Some(end) = take_numbers(text, numbers) else {
        return false;
    };
    is_line_end(end)
}

// Whether the numbers of a run's line are in range.
fn is_run(head: Head, numbers: &[u32]) -> bool
    requires many { length numbers.now ≡ head.plates + 3 }
    requires short { All (λ n. n < past_numbers) numbers.now }
    ensures { IsTrue result ↔ IsRun (head_in head) (run_in numbers.now) }
{
    numbers[0] < head.height
        && 1 <= numbers[2]
        && numbers[1] + numbers[2] <= head.width
        && are_below(&numbers[3..], head.maxval)
}

// Whether no tint is above the maxval.
fn are_below(tints: &[u32], maxval: u32) -> bool
    ensures { IsTrue result ↔ All (λ tint. tint ≤ maxval) tints.now }
{
    tints.iter().all(|tint| *tint <= maxval)
}
