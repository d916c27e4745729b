ghost use Rattle.std.specs.Prelude.{◌≡◌, ◌<◌, ◌+◌, ◌^◌, length, drop, slice_index, false};
ghost use Rattle.ps_tokens.specs.Texts.{text_end};
ghost use Rattle.ps_tokens.specs.Pieces.{IsWithin, ended_text, literal_piece, angle_piece, mark_piece, piece_at};

use crate::bytes::{comment_len, hexadecimal_len, is_regular, is_whitespace, regular_len};
use crate::faults::FaultKind;
use crate::numbers::{begins_with, run_piece};
use crate::texts::text_len;
use crate::token::TokenKind;

/// What stands at a place among a job's bytes, with its length.
#[derive(Clone, Copy, Debug, Drop, PartialEq, Eq)]
pub enum Piece {
    /// Whitespace or a comment, with its length in bytes.
    Blank(usize),
    /// A token, with its length in bytes.
    Spelled(TokenKind, usize),
    /// No token, for this reason.
    Broken(FaultKind),
}

// What stands after a `/`.
#[tactic(auto, unfolding(crate::specs::Pieces::literal_piece))]
fn literal_piece(bytes: &[u8]) -> Piece
    ensures value { result ≡ literal_piece bytes.now }
    ensures within { IsWithin result (1 + length bytes.now) }
{
    if begins_with(bytes, b'/') {
        Piece::Broken(FaultKind::BadToken)
    } else {
        Piece::Spelled(TokenKind::Literal, 1 + regular_len(bytes))
    }
}

// What stands after a `<`.
#[tactic(auto, unfolding(crate::specs::Pieces::angle_piece))]
fn angle_piece(bytes: &[u8]) -> Piece
    ensures value { result ≡ angle_piece bytes.now }
    ensures within { IsWithin result (1 + length bytes.now) }
{
    if begins_with(bytes, b'<') {
        return Piece::Spelled(TokenKind::OpenDict, 2);
    }
    let digits = hexadecimal_len(bytes);
    if begins_with(&bytes[digits..], b'>') {
        Piece::Spelled(TokenKind::Text, 2 + digits)
    } else {
        Piece::Broken(FaultKind::BadToken)
    }
}

// What stands after a `(`.
fn text_piece(bytes: &[u8]) -> Piece
    requires { length bytes.now < 2 ^ 40 }
    ensures value { result ≡ ended_text (text_end false 0 1 bytes.now) }
    ensures within { IsWithin result (1 + length bytes.now) }
{
    match text_len(bytes) {
        Some(len) => Piece::Spelled(TokenKind::Text, len),
        None => Piece::Broken(FaultKind::BadToken),
    }
}

// What a byte that is no regular one and no whitespace begins.
#[tactic(auto, unfolding(crate::specs::Pieces::mark_piece))]
fn mark_piece(first: u8, after: &[u8]) -> Piece
    requires { length after.now < 2 ^ 40 }
    ensures value { result ≡ mark_piece first after.now }
    ensures within { IsWithin result (1 + length after.now) }
{
    match first {
        b'%' => Piece::Blank(1 + comment_len(after)),
        b'/' => literal_piece(after),
        b'(' => text_piece(after),
        b'<' => angle_piece(after),
        b'>' => {
            if begins_with(after, b'>') {
                Piece::Spelled(TokenKind::CloseDict, 2)
            } else {
                Piece::Broken(FaultKind::BadToken)
            }
        }
        b'[' => Piece::Spelled(TokenKind::OpenArray, 1),
        b']' => Piece::Spelled(TokenKind::CloseArray, 1),
        _ => Piece::Broken(FaultKind::BadToken),
    }
}

/// The piece at the beginning of bytes that are not empty: a token, whitespace, a comment, or why there is none (after
/// PLRM3, section 3.2, in this project's profile).
#[tactic(auto, using(crate::proofs::Prefixes::prefixes), unfolding(crate::specs::Pieces::piece_at))]
pub fn piece_at(bytes: &[u8]) -> Piece
    requires some { 0 < length bytes.now }
    requires size { length bytes.now < 2 ^ 40 }
    ensures value { result ≡ piece_at (slice_index bytes.now 0) (drop 1 bytes.now) }
    ensures within { IsWithin result (length bytes.now) }
{
    let first = bytes[0];
    if is_whitespace(first) {
        Piece::Blank(1)
    } else if is_regular(first) {
        run_piece(&bytes[..regular_len(bytes)])
    } else {
        mark_piece(first, &bytes[1..])
    }
}
