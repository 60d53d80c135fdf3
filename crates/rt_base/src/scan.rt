//! The tokens of a text, or its first fault.
ghost use Rattle.std.specs.Prelude.{◌≡◌, ◌<◌, ◌≤◌, ◌^◌, length, IfOk, IfSome, Result, List, take};
ghost use Rattle.rt_base.specs.Parts.{line_after};
ghost use Rattle.rt_base.specs.Scan.{Reads, answer_of};
ghost use Rattle.rt_base.specs.declared.token.Token.{Token};
ghost use Rattle.rt_base.specs.declared.scan.ScanError.{ScanError};
ghost use Rattle.rt_base.specs.Tokens.{AllInside};

use crate::find::{before_bad, feeds};
use crate::memory::Memory;
use crate::split::{SplitError, split};
use crate::token::Token;
use std::alloc::Global;
use thiserror::Error;

/// Why a text has no tokens. Lines count from 1.
#[derive(Clone, Copy, Debug, Drop, PartialEq, Eq, Error)]
pub enum ScanError {
    #[error("line {line}: a quote isn't closed")]
    UnclosedQuote { line: u32 },
    #[error("line {line}: a byte isn't text")]
    NotText { line: u32 },
    #[error("out of memory")]
    Memory,
}

impl From<Memory> for ScanError {
    ghost use Rattle.rt_base.specs.declared.scan.ScanError.TheVariants as scan_errors;

    ghost from_gives = { λ _ e. e ≡ scan_errors.Memory };

    fn from(_error: Memory) -> ScanError {
        ScanError::Memory
    }
}

/// The line behind so many bytes of a text.
fn line_at(text: &[u8], before: usize) -> u32
    requires text { length text.now < 2 ^ 32 }
    requires before { before < length text.now }
    ensures { result ≡ line_after (take before text.now) }
{
    1 + feeds(&text[..before]) as u32
}

/// The tokens of a text, in order, or the first fault in it.
///
/// A token is a run of bytes other than white space. One that begins with `"` goes up to the next
/// `"`, over lines too, and the next byte begins a new token. A `#` where a token could begin opens
/// a comment up to the end of the line. `UnclosedQuote` is a quote without the next one, with the
/// line where it begins. `NotText` is a control byte other than white space, in comments and quotes
/// too, with its line. Of two faults the first in the text is the answer; an unclosed quote stands
/// where it begins.
pub fn tokens(alloc: Global, text: &[u8]) -> Result<Vec<Token>, ScanError>
    requires { length text.now < 2 ^ 32 }
    ensures found { IfSome (answer_of result) (Reads text.now) }
    ensures only { (o : Result (List Token) ScanError) → Reads text.now o → IfSome (answer_of result) (λ r. r ≡ o) }
    ensures inside { IfOk result (λ v. AllInside (length text.now) v.items) }
{
    let clean = before_bad(text);
    match split(alloc, text) {
        Ok(tokens) => {
            if clean == text.len() {
                Ok(tokens)
            } else {
                Err(ScanError::NotText {
                    line: line_at(text, clean),
                })
            }
        }
        Err(SplitError::Unclosed { at, line }) => {
            if at < clean {
                Err(ScanError::UnclosedQuote { line })
            } else {
                Err(ScanError::NotText {
                    line: line_at(text, clean),
                })
            }
        }
        Err(SplitError::Memory) => Err(ScanError::Memory),
    }
}
