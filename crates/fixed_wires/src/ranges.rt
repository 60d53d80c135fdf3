//! Ranges of tokens, and lists put together.
ghost use Rattle.std.specs.Prelude.{◌≡◌, ◌++◌, ℕ, length, OnOk};
ghost use Rattle.rt_base.specs.Tokens.{AllInside};
ghost use Rattle.def_text.specs.Defs.{IsRange};
ghost use Rattle.fixed_wires.specs.FixedWires.{range_of};

use rt_base::{Memory, Seq, Token};

/// The tokens of a range: from that of the first number up to the one before that of the second.
pub fn range_of(tokens: &[Token], range: (u32, u32)) -> &[Token]
    requires { IsRange (length tokens.now) range }
    ensures value { result.now ≡ range_of tokens.now range }
    ensures inside { (n : ℕ) → AllInside n tokens.now → AllInside n result.now }
{
    &tokens[range.0 as usize..range.1 as usize]
}

/// Adds all these items at the end.
pub fn append<T: Drop>(items: &mut Seq<T>, more: Seq<T>) -> Result<(), Memory>
    ensures { OnOk result (items.new ≡ items.old ++ more) }
{
    let mut more = more;
    items.items.append(&mut more.items)?;
    Ok(())
}
