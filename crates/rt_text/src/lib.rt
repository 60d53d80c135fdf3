//! Texts that are written: bytes, plain decimal numbers and points, one piece after another.
#![tactic(auto)]

ghost use Rattle.std.specs.Prelude.{◌≡◌, ◌++◌, ◌∷◌, ◌↔◌, [], length, decimal, IsTrue, OnErr, OnOk};
ghost use Rattle.std.specs.Fmt.{signed_decimal};
ghost use Rattle.rt_text.specs.Decimal.{IsPlainInteger, IsPlainNatural};
ghost use Rattle.rt_text.specs.Point.{point_text};

use itoa::Buffer;
use rt_base::Memory;
use std::alloc::Global;
use std::marker::Model;

/// A text that grows at its end. Contracts see it as the list of its bytes.
///
/// An append writes all of its piece or, where memory runs out, nothing. Its cost is that of the
/// bytes that it appends, on average over a text's appends.
#[derive(Debug, Drop)]
pub struct Text {
    written: Vec<u8>,
}

impl Model for Text {
    ghost use Rattle.std.specs.Prelude.{List, ℕ};

    ghost Value = { List ℕ };

    ghost view = { λ t. t.written.items };
}

impl Text {
    /// The empty text. Takes no memory.
    pub fn new(alloc: Global) -> Text
        ensures { result ≡ [] }
    {
        Text {
            written: Vec::new(alloc),
        }
    }

    /// Appends the bytes.
    pub fn bytes(&mut self, piece: &[u8]) -> Result<(), Memory>
        ensures ok { OnOk result (self.new ≡ self.old ++ piece.now) }
        ensures err { OnErr result (self.new ≡ self.old) }
    {
        self.written.extend_from_slice(piece)?;
        Ok(())
    }

    /// Appends one byte.
    pub fn byte(&mut self, piece: u8) -> Result<(), Memory>
        ensures ok { OnOk result (self.new ≡ self.old ++ piece ∷ []) }
        ensures err { OnErr result (self.new ≡ self.old) }
    {
        self.written.push(piece)?;
        Ok(())
    }

    /// Appends a number in plain decimal.
    #[tactic(auto, using(crate::proofs::Decimals::wide_decimal_is_plain))]
    pub fn natural(&mut self, number: u128) -> Result<(), Memory>
        // What is printed reads back to the number.
        ensures plain { IsPlainNatural number (decimal number) }
        ensures ok { OnOk result (self.new ≡ self.old ++ decimal number) }
        ensures err { OnErr result (self.new ≡ self.old) }
    {
        let mut buffer = Buffer::new();
        let digits = buffer.format(number);
        self.bytes(digits.as_bytes())
    }

    /// Appends a number in plain decimal, with `-` in front where it is below 0.
    #[tactic(auto, using(crate::proofs::Decimals::signed_decimal_is_plain))]
    pub fn integer(&mut self, number: i64) -> Result<(), Memory>
        // What is printed reads back to the number.
        ensures plain { IsPlainInteger number (signed_decimal number) }
        ensures ok { OnOk result (self.new ≡ self.old ++ signed_decimal number) }
        ensures err { OnErr result (self.new ≡ self.old) }
    {
        let mut buffer = Buffer::new();
        let sign_and_digits = buffer.format(number);
        self.bytes(sign_and_digits.as_bytes())
    }

    /// Appends a point as DEF writes it, `( x y )`.
    pub fn point(&mut self, x: i64, y: i64) -> Result<(), Memory>
        ensures ok { OnOk result (self.new ≡ self.old ++ point_text x y) }
        ensures err { OnErr result (self.new ≡ self.old) }
    {
        let mut x_digits = Buffer::new();
        let mut y_digits = Buffer::new();
        let x_text = x_digits.format(x).as_bytes();
        let y_text = y_digits.format(y).as_bytes();
        self.written.reserve(x_text.len() + y_text.len() + 5)?;
        self.written.extend_from_slice(b"( ")?;
        self.written.extend_from_slice(x_text)?;
        self.written.extend_from_slice(b" ")?;
        self.written.extend_from_slice(y_text)?;
        self.written.extend_from_slice(b" )")?;
        Ok(())
    }

    /// The bytes so far.
    pub fn as_slice(&self) -> &[u8]
        ensures { result.now ≡ self.now }
    {
        self.written.as_slice()
    }

    /// How many bytes there are so far.
    pub fn len(&self) -> usize
        ensures { result ≡ length self.now }
    {
        self.written.len()
    }

    /// Whether nothing was appended so far.
    pub fn is_empty(&self) -> bool
        ensures { IsTrue result ↔ (self.now ≡ []) }
    {
        self.written.is_empty()
    }

    /// The bytes as a vector. Takes no memory.
    pub fn into_vec(self) -> Vec<u8>
        ensures { result.items ≡ self }
    {
        let Text { written } = self;
        written
    }
}

#[cfg(test)]
mod tests;
