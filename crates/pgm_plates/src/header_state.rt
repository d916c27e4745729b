ghost use Rattle.std.specs.Prelude.{◌≡◌};
ghost use Rattle.pgm_plates.specs.Steps.{step, gap_step};
ghost use Rattle.pgm_plates.specs.Header.{is_space as space_spec, is_line_end as line_end_spec, is_digit as digit_spec};

/// Where the reader stands in a header: its grammar is magic, width, height and maxval, with whitespace and comments
/// between them (pgm(5), section THE FORMAT).
#[derive(Clone, Copy, Drop)]
pub enum HeaderState {
    // Before everything.
    Start,
    // After `P`.
    Letter,
    // After `P5`.
    Magic,
    // After an item of a gap.
    Gap,
    // Within a comment.
    Comment,
    // After a digit.
    Digits,
    // After the whole header.
    Ended,
}

fn is_space(byte: u8) -> bool
    ensures { result ≡ space_spec byte }
{
    byte == b' ' || (9 <= byte && byte <= 13)
}

fn is_line_end(byte: u8) -> bool
    ensures { result ≡ line_end_spec byte }
{
    byte == b'\n' || byte == b'\r'
}

fn is_digit(byte: u8) -> bool
    ensures { result ≡ digit_spec byte }
{
    byte >= b'0' && byte <= b'9'
}

/// Where the reader stands after one byte more, `None` where the byte cannot stand there. `begun` is how many numbers
/// were begun.
pub fn next_state(stand: HeaderState, begun: u32, byte: u8) -> Option<HeaderState>
    ensures { result ≡ step stand begun byte }
{
    match stand {
        HeaderState::Start => {
            if byte == b'P' {
                Some(HeaderState::Letter)
            } else {
                None
            }
        }
        HeaderState::Letter => {
            if byte == b'5' {
                Some(HeaderState::Magic)
            } else {
                None
            }
        }
        HeaderState::Magic => gap_state(byte),
        HeaderState::Gap => {
            if is_digit(byte) {
                Some(HeaderState::Digits)
            } else {
                gap_state(byte)
            }
        }
        HeaderState::Comment => {
            if is_line_end(byte) {
                Some(HeaderState::Gap)
            } else {
                Some(HeaderState::Comment)
            }
        }
        HeaderState::Digits => digits_state(begun, byte),
        HeaderState::Ended => None,
    }
}

// The next state after a digit of that number of the header, counted from 1.
fn digits_state(begun: u32, byte: u8) -> Option<HeaderState>
    ensures { result ≡ step HeaderState.Digits begun byte }
{
    if is_digit(byte) {
        Some(HeaderState::Digits)
    } else if begun < 3 {
        gap_state(byte)
    } else if is_space(byte) {
        Some(HeaderState::Ended)
    } else {
        None
    }
}

fn gap_state(byte: u8) -> Option<HeaderState>
    ensures { result ≡ gap_step byte }
{
    if is_space(byte) {
        Some(HeaderState::Gap)
    } else if byte == b'#' {
        Some(HeaderState::Comment)
    } else {
        None
    }
}
