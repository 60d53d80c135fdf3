//! Words of a text, from left to right.
ghost use Rattle.std.specs.Prelude.{◌≡◌, ◌+◌, ◌≤◌, ◌<◌, length, bytes_eq, MatchOption, None, Some, Ok, OnOk};
ghost use Rattle.rt_base.specs.Tokens.{AllInside};
ghost use Rattle.rt_forms.specs.Lexeme.{is_end, lexemes, first_of, last_line};
ghost use Rattle.rt_forms.specs.Word.{place_of};
ghost use Rattle.rt_forms.specs.Form.{next as next_form, nothing};
ghost use Rattle.rt_forms.specs.Reading.{the_word, a_name, semicolon as semicolon_form, rest as rest_form, up_to_word, up_to_pair as up_to_pair_form, left_of, is_next, or_end, ends_option, from_first, after_one};
ghost use Rattle.rt_forms.specs.Clauses.{Reads, Looks};

use crate::fault::Fault;
use crate::word::Word;
use rt_base::Token;
use std::marker::{Model, PhantomData};

/// The line of the last token, 1 where there is none.
fn last_line(tokens: &[Token]) -> u32
    ensures { result ≡ last_line tokens.now }
{
    tokens.last().map_or(1, |token| token.line)
}

/// The words of a text that are left, from the left. `E` is the error of its reader.
#[derive(Drop)]
pub struct Words<'a, E> {
    text: &'a [u8],
    tokens: &'a [Token],
    last: u32,
    error: PhantomData<E>,
}

impl<'a, E> Model for Words<'a, E> {
    ghost use Rattle.std.specs.Prelude.{List, length};
    ghost use Rattle.rt_base.specs.Tokens.{AllInside};
    ghost use Rattle.rt_forms.specs.Lexeme.{Lexeme, ended, places};

    ghost Value = { List Lexeme };

    ghost view = { λ w. ended (places w.text.now w.tokens.now) w.last };

    ghost invariant = { λ w. AllInside (length w.text.now) w.tokens.now };
}

impl<'a, E> Words<'a, E> {
    /// The words of a text with these tokens. Takes no memory.
    pub fn new(text: &'a [u8], tokens: &'a [Token]) -> Words<'a, E>
        requires { AllInside (length text.now) tokens.now }
        ensures words { result ≡ lexemes text.now tokens.now }
        ensures count { length result ≡ length tokens.now + 1 }
    {
        let last = last_line(tokens);
        Words {
            text,
            tokens,
            last,
            error: PhantomData,
        }
    }

    /// Whether no word is left.
    pub fn is_empty(&self) -> bool
        ensures { result ≡ is_end self.now }
    {
        match self.tokens {
            [] => true,
            [_, ..] => false,
        }
    }

    /// How many words are left.
    pub fn left(&self) -> usize
        ensures { result ≡ left_of self.now }
    {
        self.tokens.len()
    }

    /// The next word, which stays, or None where no word is left.
    pub fn peek(&self) -> Option<Word<'a>>
        ensures { MatchOption result (first_of self.now ≡ None) (λ w. first_of self.now ≡ Some (place_of w)) }
    {
        match self.tokens {
            [] => None,
            [token, ..] => Some(Word {
                line: token.line,
                first: token.first,
                bytes: &self.text[token.first as usize..token.past as usize],
            }),
        }
    }

    /// Whether the next word, which stays, is this one.
    pub fn at(&self, word: &[u8]) -> bool
        ensures { result ≡ is_next word.now (first_of self.now) }
    {
        match self.peek() {
            None => false,
            Some(next) => next.is(word),
        }
    }

    /// Takes the next word, if one is left.
    fn skip(&mut self)
        ensures { self.new ≡ after_one self.old }
    {
        if let [_, rest @ ..] = self.tokens {
            self.tokens = rest;
        }
    }

    /// Takes all words up to the next `+` or `;`, which stays, or all that are left.
    pub fn option_rest(&mut self)
        ensures words { self.new ≡ from_first ends_option self.old }
        ensures shorter { length self.new ≤ length self.old }
    {
        'skip: while !self.ends_option() {
            self.skip();
        }
    }

    /// Whether the next word is `+` or `;`, or none is left.
    fn ends_option(&self) -> bool
        ensures { result ≡ or_end ends_option (first_of self.now) }
    {
        match self.peek() {
            None => true,
            Some(word) => word.is(b"+") || word.is(b";"),
        }
    }
}

impl<'a, E: Fault> Words<'a, E> {
    /// Takes the next word.
    pub fn next(&mut self) -> Result<Word<'a>, E>
        ensures { Reads E.faults place_of result self.old self.new next_form }
    {
        match self.tokens {
            [] => Err(E::ended(self.last)),
            [token, behind @ ..] => {
                let word = Word {
                    line: token.line,
                    first: token.first,
                    bytes: &self.text[token.first as usize..token.past as usize],
                };
                self.tokens = behind;
                Ok(word)
            }
        }
    }

    /// Takes this very word. Any other is not expected.
    pub fn expect(&mut self, word: &[u8]) -> Result<(), E>
        ensures { Reads E.faults (λ x. x) result self.old self.new (the_word word.now) }
    {
        let next = self.next()?;
        if !next.is(word) {
            return Err(E::expected(next.line));
        }
        Ok(())
    }

    /// Takes a name. Any other word is not expected.
    pub fn name(&mut self) -> Result<Word<'a>, E>
        ensures { Reads E.faults place_of result self.old self.new a_name }
    {
        let next = self.next()?;
        if !next.is_name() {
            return Err(E::expected(next.line));
        }
        Ok(next)
    }

    /// Takes a semicolon. Any other word is not expected.
    pub fn semicolon(&mut self) -> Result<(), E>
        ensures { Reads E.faults (λ x. x) result self.old self.new semicolon_form }
    {
        self.expect(b";")
    }

    /// Nothing may stand here: a word that is left is not expected, and stays.
    pub fn end(&mut self) -> Result<(), E>
        ensures { Looks E.faults (λ x. x) result self.old self.new nothing }
    {
        match self.peek() {
            None => Ok(()),
            Some(word) => Err(E::expected(word.line)),
        }
    }

    /// Takes all words up to the next that is this one, and it too.
    pub fn up_to(&mut self, word: &[u8]) -> Result<(), E>
        ensures { Reads E.faults (λ x. x) result self.old self.new (up_to_word word.now) }
    {
        'skip: while !self.next()?.is(word) {}
        Ok(())
    }

    /// Takes all words up to the next semicolon, and it too.
    pub fn rest(&mut self) -> Result<(), E>
        ensures { Reads E.faults (λ x. x) result self.old self.new rest_form }
    {
        self.up_to(b";")
    }

    /// Takes all words up to the next two that are these, one behind the other, and they too.
    pub fn up_to_pair(&mut self, first: &[u8], second: &[u8]) -> Result<(), E>
        ensures { Reads E.faults (λ x. x) result self.old self.new (up_to_pair_form first.now second.now) }
    {
        'skip: while !(self.next()?.is(first) && self.at(second)) {}
        self.skip();
        Ok(())
    }
}
