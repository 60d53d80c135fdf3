//! The faults that the readers of all texts answer.
ghost use Rattle.std.specs.Prelude.{◌≡◌};
ghost use Rattle.rt_forms.specs.Form.{Faults};

/// An error type of a reader.
pub trait Fault: Drop {
    /// Want of memory, an end of the words that comes too early, and a word that isn't admitted.
    ghost faults: { Faults Self };

    /// The words end too early. `line` is that of the last word, 1 where there is none.
    fn ended(line: u32) -> Self
        ensures { result ≡ faults.ended line };

    /// A word on this line isn't admitted.
    fn expected(line: u32) -> Self
        ensures { result ≡ faults.expected line };
}
