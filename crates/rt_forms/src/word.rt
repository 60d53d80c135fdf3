//! A word of a text.
ghost use Rattle.std.specs.Prelude.{◌≡◌, bytes_eq};
ghost use Rattle.rt_forms.specs.Reading.{is_name_word};

/// A word of a text, the line on which it begins and the place of its first byte.
#[derive(Clone, Copy, Debug)]
pub struct Word<'a> {
    pub line: u32,
    pub first: u32,
    pub bytes: &'a [u8],
}

impl<'a> Word<'a> {
    /// Whether it is this word.
    pub fn is(&self, word: &[u8]) -> bool
        ensures { result ≡ bytes_eq self.now.bytes.now word.now }
    {
        self.bytes == word
    }

    /// Whether it is a name: not quoted, and none of `;`, `+`, `-`, `(`, `)` and `*`.
    pub fn is_name(&self) -> bool
        ensures { result ≡ is_name_word self.now.bytes.now }
    {
        !(self.bytes.first() == Some(&b'"')
            || self.is(b";")
            || self.is(b"+")
            || self.is(b"-")
            || self.is(b"(")
            || self.is(b")")
            || self.is(b"*"))
    }
}
