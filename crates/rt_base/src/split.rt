//! The tokens of a text whose quotes are all closed.
ghost use Rattle.std.specs.Prelude.{◌≡◌, ◌+◌, ◌<◌, ◌≤◌, ◌∷◌, ◌^◌, length, IfSome, MatchOption, MatchResult};
ghost use Rattle.rt_base.specs.Scan.{IsMadeOf};
ghost use Rattle.rt_base.specs.Split.{IsPart, IsUnclosed, IsSplitFault};

use crate::find::{before_blank, before_feed, blank, feeds, quote_at};
use crate::token::Token;
use std::alloc::{AllocFailed, Global};

/// A quote that begins here isn't closed, or memory ran out.
#[derive(Drop)]
pub enum SplitError {
    Unclosed { at: usize, line: u32 },
    Memory,
}

impl<T: Drop> From<AllocFailed<T>> for SplitError {
    ghost use Rattle.rt_base.specs.declared.split.SplitError.TheVariants.{Memory};

    ghost from_gives = { λ _ e. e ≡ Memory };

    fn from(_error: AllocFailed<T>) -> SplitError {
        SplitError::Memory
    }
}

/// How many bytes and line feeds a part of a text has, and whether it is a token.
#[derive(Drop)]
struct Piece {
    len: usize,
    feeds: usize,
    is_token: bool,
}

/// The part that begins with this byte, or none where it is a quote that isn't closed.
fn first_piece(first: u8, after: &[u8]) -> Option<Piece>
    requires { length after.now < 2 ^ 32 }
    ensures part { MatchOption result (IsUnclosed first after.now) (λ p. IsPart (first ∷ after.now) p) }
    ensures some { IfSome result (λ p. 0 < p.len) }
    ensures within { IfSome result (λ p. p.len ≤ length after.now + 1) }
    ensures feeds { IfSome result (λ p. p.feeds ≤ p.len) }
{
    if blank(first) {
        let feeds = if first == b'\n' { 1 } else { 0 };
        return Some(Piece {
            len: 1,
            feeds,
            is_token: false,
        });
    }
    if first == b'#' {
        let n = before_feed(after);
        return Some(Piece {
            len: n + 1,
            feeds: 0,
            is_token: false,
        });
    }
    if first == b'"' {
        let Some(n) = quote_at(after) else {
            return None;
        };
        return Some(Piece {
            len: n + 2,
            feeds: feeds(&after[..n]),
            is_token: true,
        });
    }
    let n = before_blank(after);
    Some(Piece {
        len: n + 1,
        feeds: 0,
        is_token: true,
    })
}

/// The tokens of a text.
pub fn split(alloc: Global, text: &[u8]) -> Result<Vec<Token>, SplitError>
    requires { length text.now < 2 ^ 32 }
    ensures { MatchResult result (λ v. IsMadeOf text.now v.items) (λ e. IsSplitFault text.now e) }
{
    let mut tokens = Vec::new(alloc);
    let mut line = 1;
    let mut at = 0;
    let mut rest = text;
    while let [first, after @ ..] = rest {
        let Some(piece) = first_piece(*first, after) else {
            return Err(SplitError::Unclosed {
                at,
                line: line as u32,
            });
        };
        if piece.is_token {
            tokens.push(Token {
                line: line as u32,
                first: at as u32,
                past: (at + piece.len) as u32,
            })?;
        }
        line += piece.feeds;
        at += piece.len;
        rest = &rest[piece.len..];
    }
    Ok(tokens)
}
