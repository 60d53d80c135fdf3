//! Reading a LEF text.
ghost use Rattle.std.specs.Prelude.{◌≡◌, ◌<◌, ◌^◌, length, IfOk};
ghost use Rattle.rt_base.specs.Scan.{IsCutInto};
ghost use Rattle.rt_forms.specs.Clauses.{ReadsText};
ghost use Rattle.lef_text.specs.Faults.{lef_faults};
ghost use Rattle.lef_text.specs.IsLef.{IsLef};
ghost use Rattle.lef_text.specs.Lef.{lef as lef_form, ReadsBytes, scan_fault};

use crate::error::LefError;
use crate::lef::Lef;
use crate::numbers::Words;
use crate::text::lef;
use rt_base::{ScanError, Token, tokens};
use std::alloc::Global;

/// Reads a LEF text that is cut into these tokens, lengths in `units` to the micron. Each refusal is
/// that of the first word that isn't admitted; which fault it is says [`LefError`].
pub fn read_lef_tokens(
    alloc: Global,
    text: &[u8],
    tokens: &[Token],
    units: u32,
) -> Result<Lef, LefError>
    requires text { length text.now < 2 ^ 32 }
    requires tokens { IsCutInto text.now tokens.now }
    ensures text { ReadsText lef_faults (λ x. x) (lef_form units) text.now tokens.now result }
    ensures fits { IfOk result (λ l. IsLef l) }
{
    let mut words = Words::new(text, tokens);
    lef(alloc, &mut words, units)
}

/// The fault of a text that isn't cut into words.
fn scan_fault(error: ScanError) -> LefError
    ensures { result ≡ scan_fault error }
{
    match error {
        ScanError::Memory => LefError::Memory,
        ScanError::UnclosedQuote { line } => LefError::Scan(ScanError::UnclosedQuote { line }),
        ScanError::NotText { line } => LefError::Scan(ScanError::NotText { line }),
    }
}

/// Cuts a LEF text into tokens and reads it, lengths in `units` to the micron. `Scan` is a fault of
/// the bytes; it comes before any other.
pub fn read_lef(alloc: Global, text: &[u8], units: u32) -> Result<Lef, LefError>
    requires { length text.now < 2 ^ 32 }
    ensures text { ReadsBytes units text.now result }
    ensures fits { IfOk result (λ l. IsLef l) }
{
    match tokens(alloc, text) {
        Ok(words) => read_lef_tokens(alloc, text, &words, units),
        Err(error) => Err(scan_fault(error)),
    }
}
