//! Special nets, with the places of their wiring.
ghost use Rattle.std.specs.Prelude.{◌≡◌, ◌≤◌, ◌-◌, IfErr, OnOk, codes, if◌then◌else◌};
ghost use Rattle.rt_forms.specs.Clauses.{Reads, Looks};
ghost use Rattle.rt_forms.specs.Form.{More, admit, choose, turn, loop};
ghost use Rattle.rt_forms.specs.Lexeme.{first_of};
ghost use Rattle.rt_forms.specs.Reading.{left_of};
ghost use Rattle.def_text.specs.declared.special.Open.TheVariants.{Bare, Paths};
ghost use Rattle.def_text.specs.declared.def.DefNet.{DefNet};
ghost use Rattle.def_text.specs.Faults.{def_faults};
ghost use Rattle.def_text.specs.Wiring.{IsNetOf};
ghost use Rattle.def_text.specs.Sections.{AreListed, more_items};
ghost use Rattle.def_text.specs.Special.{IsSpecial, is_wiring as is_wiring_of, ended as ended_of, ended_by_metal as ended_by_metal_of, metal_first as metal_first_of, with_shape as with_shape_of, with_words as with_words_of, with_range, is_named as is_named_of, name_or_star as name_or_star_of, special_connection as special_connection_form, special_connections, special_wired as special_wired_form, special_metal as special_metal_form, loose_shape as loose_shape_form, wiring_shape as wiring_shape_form, special_shape as special_shape_form, special_unused as special_unused_form, special_option as special_option_form, more_special as more_special_form, special_item as special_item_form};

use crate::def::DefNet;
use crate::error::DefError;
use crate::kinds::{SpecialOption, special_option_of};
use crate::nets::connection_tail;
use crate::parts::{Words, here, name, option_tail, refused};
use crate::sections::{Listed, new_name, section_end};
use rt_base::{Name, Seq};
use std::alloc::Global;

/// What of a special net may go on behind an option, by numbers of words.
#[derive(Clone, Copy, Debug, PartialEq, Eq)]
pub enum Open {
    /// No wiring.
    Closed,
    /// No wiring, and `+ SHAPE t`, which begins at `shape` and may belong to `+ RECT` or `+ VIA`.
    Shaped { shape: u32 },
    /// An option of wiring without paths: its `+`, and the place behind its word.
    Bare { plus: u32, behind: u32 },
    /// The same with `+ SHAPE t` behind it.
    BareShaped { plus: u32, behind: u32 },
    /// Wiring that begins at `first`.
    Paths { first: u32 },
    /// The same with `+ SHAPE t` behind it, which begins at `shape`.
    PathsShaped { first: u32, shape: u32 },
}

/// What the options of a special net say that is read.
#[derive(Drop)]
pub struct OpenSpecial {
    pub wiring: Seq<(u32, u32)>,
    pub state: Open,
    pub close: u32,
}

/// A name or `*`.
fn name_or_star(words: &mut Words) -> Result<(), DefError>
    ensures { Reads def_faults (λ x. x) result words.old words.new (admit name_or_star_of) }
{
    let word = words.next()?;
    if !(word.is_name() || word.is(b"*")) {
        return Err(DefError::Expected { line: word.line });
    }
    Ok(())
}

/// A connection, which isn't used.
#[tactic(auto, unfolding(crate::specs::Special::special_connection))]
fn special_connection(words: &mut Words) -> Result<(), DefError>
    ensures { Reads def_faults (λ x. More x) result words.old words.new (special_connection_form tt) }
{
    words.next()?;
    name_or_star(words)?;
    name_or_star(words)?;
    connection_tail(words)
}

/// The connections of a special net.
fn connections(words: &mut Words) -> Result<(), DefError>
    ensures { Looks def_faults (λ x. x) result words.old words.new special_connections }
{
    'connections: while words.at(b"(") {
        special_connection(words)?;
    }
    Ok(())
}

impl Open {
    /// What is open behind an option word, alone or with paths: its `+`, and the place behind it.
    fn routed(alone: bool, plus: u32, behind: u32) -> Open
        ensures { result ≡ (if alone then Bare plus behind else Paths behind) }
    {
        if alone {
            Open::Bare { plus, behind }
        } else {
            Open::Paths { first: behind }
        }
    }

    /// Whether wiring is open.
    fn is_wiring(self) -> bool
        ensures { result ≡ is_wiring_of self }
    {
        match self {
            Open::Closed => false,
            Open::Shaped { shape: _ } => false,
            Open::Bare { plus: _, behind: _ } => true,
            Open::BareShaped { plus: _, behind: _ } => true,
            Open::Paths { first: _ } => true,
            Open::PathsShaped { first: _, shape: _ } => true,
        }
    }

    /// The range that ends before the word of this number, if wiring is open.
    fn ended(self, at: u32) -> Option<(u32, u32)>
        ensures { result ≡ ended_of self at }
    {
        match self {
            Open::Closed => None,
            Open::Shaped { shape: _ } => None,
            Open::Bare { plus, behind: _ } => Some((plus, at)),
            Open::BareShaped { plus: _, behind } => Some((behind, at)),
            Open::Paths { first } => Some((first, at)),
            Open::PathsShaped { first, shape: _ } => Some((first, at)),
        }
    }

    /// The range that ends before `+ RECT` or `+ VIA`, whose `+` has this number.
    fn ended_by_metal(self, at: u32) -> Option<(u32, u32)>
        ensures { result ≡ ended_by_metal_of self at }
    {
        match self {
            Open::Closed => None,
            Open::Shaped { shape: _ } => None,
            Open::Bare { plus: _, behind: _ } => None,
            Open::BareShaped { plus: _, behind: _ } => None,
            Open::Paths { first } => Some((first, at)),
            Open::PathsShaped { first, shape } => Some((first, shape)),
        }
    }

    /// Where `+ RECT` or `+ VIA` begins, whose `+` has this number.
    fn metal_first(self, at: u32) -> u32
        ensures { result ≡ metal_first_of self at }
    {
        match self {
            Open::Closed => at,
            Open::Shaped { shape } => shape,
            Open::Bare { plus, behind: _ } => plus,
            Open::BareShaped { plus, behind: _ } => plus,
            Open::Paths { first: _ } => at,
            Open::PathsShaped { first: _, shape } => shape,
        }
    }

    /// What is open behind `+ SHAPE t`, whose `+` has this number.
    fn with_shape(self, at: u32) -> Open
        ensures { result ≡ with_shape_of self at }
    {
        match self {
            Open::Closed => Open::Shaped { shape: at },
            Open::Shaped { shape: _ } => Open::Shaped { shape: at },
            Open::Bare { plus, behind } => Open::BareShaped { plus, behind },
            Open::BareShaped { plus: _, behind } => Open::PathsShaped {
                first: behind,
                shape: at,
            },
            Open::Paths { first } => Open::PathsShaped { first, shape: at },
            Open::PathsShaped { first, shape: _ } => Open::PathsShaped { first, shape: at },
        }
    }

    /// What is open behind `+ SHAPE` and words that no `+ RECT` or `+ VIA` takes.
    fn with_words(self) -> Open
        ensures { result ≡ with_words_of self }
    {
        match self {
            Open::Closed => Open::Closed,
            Open::Shaped { shape: _ } => Open::Closed,
            Open::Bare { plus: _, behind } => Open::Paths { first: behind },
            Open::BareShaped { plus: _, behind } => Open::Paths { first: behind },
            Open::Paths { first } => Open::Paths { first },
            Open::PathsShaped { first, shape: _ } => Open::Paths { first },
        }
    }

    /// What is open behind `+ SHAPE`, whose `+` has this number, and a name alone or other words.
    fn shaped(self, alone: bool, at: u32) -> Open
        ensures { result ≡ (if alone then with_shape_of self at else with_words_of self) }
    {
        if alone {
            self.with_shape(at)
        } else {
            self.with_words()
        }
    }
}

/// Adds a range, if there is one.
fn add_range(wiring: &mut Seq<(u32, u32)>, range: Option<(u32, u32)>) -> Result<(), DefError>
    ensures value { OnOk result (wiring.new ≡ with_range wiring.old range) }
    ensures memory { IfErr result (λ e. e ≡ DefError.Memory) }
{
    match range {
        None => Ok(()),
        Some(range) => {
            wiring.push(range)?;
            Ok(())
        }
    }
}

/// `ROUTED|FIXED|COVER` paths, behind the `+` of this number.
#[tactic(auto, unfolding(crate::specs::Special::special_wired))]
fn special_wired(
    words: &mut Words,
    total: u32,
    plus: u32,
    net: &mut OpenSpecial,
) -> Result<(), DefError>
    requires sound { IsSpecial total plus net.old }
    requires plus { plus ≤ total - left_of words.old }
    ensures reads { Reads def_faults (λ _. net.new) result words.old words.new (special_wired_form total plus net.old) }
    ensures sound { OnOk result (IsSpecial total (total - left_of words.new) net.new) }
{
    words.next()?;
    let behind = here(words, total);
    let alone = option_tail(words);
    add_range(&mut net.wiring, net.state.ended(plus))?;
    net.state = Open::routed(alone, plus, behind);
    Ok(())
}

/// `RECT|VIA` words, behind the `+` of this number.
#[tactic(auto, unfolding(crate::specs::Special::special_metal))]
fn special_metal(
    words: &mut Words,
    total: u32,
    plus: u32,
    net: &mut OpenSpecial,
) -> Result<(), DefError>
    requires sound { IsSpecial total plus net.old }
    requires plus { plus ≤ total - left_of words.old }
    ensures reads { Reads def_faults (λ _. net.new) result words.old words.new (special_metal_form plus net.old) }
    ensures sound { OnOk result (IsSpecial total (total - left_of words.new) net.new) }
{
    words.next()?;
    words.option_rest();
    add_range(&mut net.wiring, net.state.ended_by_metal(plus))?;
    net.state = Open::Paths {
        first: net.state.metal_first(plus),
    };
    Ok(())
}

/// The word behind `SHAPE` and what follows it, where no wiring is open: whether it is a name alone.
fn loose_shape(words: &mut Words) -> Result<bool, DefError>
    ensures reads { Looks def_faults (λ x. x) result words.old words.new loose_shape_form }
    ensures left { OnOk result (left_of words.new ≤ left_of words.old) }
{
    if is_named(words) {
        words.next()?;
        return Ok(option_tail(words));
    }
    words.option_rest();
    Ok(false)
}

/// The same in wiring, where it is a name.
fn wiring_shape(words: &mut Words) -> Result<bool, DefError>
    ensures reads { Reads def_faults (λ x. x) result words.old words.new wiring_shape_form }
    ensures left { OnOk result (left_of words.new ≤ left_of words.old) }
{
    words.name()?;
    Ok(option_tail(words))
}

/// Whether a name comes next.
fn is_named(words: &Words) -> bool
    ensures { result ≡ is_named_of (first_of words.now) }
{
    match words.peek() {
        None => false,
        Some(word) => word.is_name(),
    }
}

/// The word behind `SHAPE` and what follows it: whether it is a name alone.
fn shape_word(words: &mut Words, state: Open) -> Result<bool, DefError>
    ensures reads { Looks def_faults (λ x. x) result words.old words.new (choose (is_wiring_of state) wiring_shape_form loose_shape_form) }
    ensures left { OnOk result (left_of words.new ≤ left_of words.old) }
{
    if state.is_wiring() {
        return wiring_shape(words);
    }
    loose_shape(words)
}

/// `SHAPE t`, behind the `+` of this number.
#[tactic(auto, unfolding(crate::specs::Special::special_shape))]
fn special_shape(
    words: &mut Words,
    total: u32,
    plus: u32,
    net: &mut OpenSpecial,
) -> Result<(), DefError>
    requires sound { IsSpecial total plus net.old }
    requires plus { plus ≤ total - left_of words.old }
    ensures reads { Reads def_faults (λ _. net.new) result words.old words.new (special_shape_form plus net.old) }
    ensures sound { OnOk result (IsSpecial total (total - left_of words.new) net.new) }
{
    words.next()?;
    let alone = shape_word(words, net.state)?;
    net.state = net.state.shaped(alone, plus);
    Ok(())
}

/// An option that isn't used, behind the `+` of this number.
#[tactic(auto, unfolding(crate::specs::Special::special_unused))]
fn special_unused(
    words: &mut Words,
    total: u32,
    plus: u32,
    net: &mut OpenSpecial,
) -> Result<(), DefError>
    requires sound { IsSpecial total plus net.old }
    requires plus { plus ≤ total - left_of words.old }
    ensures reads { Looks def_faults (λ _. net.new) result words.old words.new (special_unused_form plus net.old) }
    ensures sound { OnOk result (IsSpecial total (total - left_of words.new) net.new) }
{
    words.option_rest();
    add_range(&mut net.wiring, net.state.ended(plus))?;
    net.state = Open::Closed;
    Ok(())
}

/// An option behind its `+`, which has this number.
#[tactic(auto, unfolding(crate::specs::Special::special_option))]
fn special_option(
    alloc: Global,
    words: &mut Words,
    total: u32,
    plus: u32,
    net: &mut OpenSpecial,
) -> Result<(), DefError>
    requires sound { IsSpecial total plus net.old }
    requires plus { plus ≤ total - left_of words.old }
    ensures reads { Looks def_faults (λ _. net.new) result words.old words.new (special_option_form total plus net.old) }
    ensures sound { OnOk result (IsSpecial total (total - left_of words.new) net.new) }
{
    match special_option_of(words) {
        SpecialOption::Wired => special_wired(words, total, plus, net),
        SpecialOption::Metal => special_metal(words, total, plus, net),
        SpecialOption::Shape => special_shape(words, total, plus, net),
        SpecialOption::Style => {
            if !net.state.is_wiring() {
                return special_unused(words, total, plus, net);
            }
            let word = words.next()?;
            Err(refused(alloc, word))
        }
        SpecialOption::Refused => {
            let word = words.next()?;
            Err(refused(alloc, word))
        }
        SpecialOption::Unused => special_unused(words, total, plus, net),
    }
}

/// One more option, or the closing `;`. True where it was the `;`.
#[tactic(auto, unfolding(crate::specs::Special::more_special))]
fn more_special(
    alloc: Global,
    words: &mut Words,
    total: u32,
    net: &mut OpenSpecial,
) -> Result<bool, DefError>
    requires { IsSpecial total (total - left_of words.old) net.old }
    ensures reads { Reads def_faults (λ last. turn last net.new) result words.old words.new (more_special_form total net.old) }
    ensures sound { OnOk result (IsSpecial total (total - left_of words.new) net.new) }
{
    let at = here(words, total);
    let word = words.next()?;
    if word.is(b";") {
        add_range(&mut net.wiring, net.state.ended(at))?;
        net.state = Open::Closed;
        net.close = word.first;
        return Ok(true);
    }
    if word.is(b"+") {
        special_option(alloc, words, total, at, net)?;
        return Ok(false);
    }
    Err(DefError::Expected { line: word.line })
}

/// The options of a special net, and the closing `;`.
fn options(
    alloc: Global,
    words: &mut Words,
    total: u32,
    net: &mut OpenSpecial,
) -> Result<(), DefError>
    requires { IsSpecial total (total - left_of words.old) net.old }
    ensures reads { Reads def_faults (λ _. net.new) result words.old words.new (loop (more_special_form total) net.old) }
    ensures sound { OnOk result (IsSpecial total (total - left_of words.new) net.new) }
{
    'options: while !more_special(alloc, words, total, net)? {}
    Ok(())
}

/// A special net behind its `-`, in a text of so many words.
#[tactic(auto, unfolding(crate::specs::Special::special_item))]
fn special_item(
    alloc: Global,
    words: &mut Words,
    total: u32,
    listed: &mut Listed<DefNet>,
) -> Result<(), DefError>
    requires { AreListed (IsNetOf total) (λ (n : DefNet). n.name) listed.old }
    ensures reads { Reads def_faults (λ _. listed.new) result words.old words.new (special_item_form total listed.old) }
    ensures sound { OnOk result (AreListed (IsNetOf total) (λ (n : DefNet). n.name) listed.new) }
    ensures skipped { OnOk result (listed.new.skipped ≡ listed.old.skipped) }
{
    let word = name(words)?;
    new_name(alloc, &mut listed.names, word)?;
    connections(words)?;
    let mut open = OpenSpecial {
        wiring: Seq::new(alloc),
        state: Open::Closed,
        close: 0,
    };
    options(alloc, words, total, &mut open)?;
    let net = DefNet {
        name: Name::new(alloc, word.bytes)?,
        pins: Seq::new(alloc),
        wiring: open.wiring,
        close: open.close,
    };
    listed.items.push(net)?;
    Ok(())
}

/// One more special net, or the end of the section. True where it was the end.
#[tactic(auto, unfolding(crate::specs::Sections::more_items))]
fn more_specials(
    alloc: Global,
    words: &mut Words,
    total: u32,
    said: u32,
    listed: &mut Listed<DefNet>,
) -> Result<bool, DefError>
    requires { AreListed (IsNetOf total) (λ (n : DefNet). n.name) listed.old }
    ensures reads { Reads def_faults (λ last. turn last listed.new) result words.old words.new (more_items (codes "SPECIALNETS") said (special_item_form total) listed.old) }
    ensures sound { OnOk result (AreListed (IsNetOf total) (λ (n : DefNet). n.name) listed.new) }
    ensures skipped { OnOk result (listed.new.skipped ≡ listed.old.skipped) }
{
    let word = words.next()?;
    if word.is(b"-") {
        special_item(alloc, words, total, listed)?;
        return Ok(false);
    }
    if word.is(b"END") {
        section_end(alloc, words, b"SPECIALNETS", said, listed.items.len())?;
        return Ok(true);
    }
    Err(DefError::Expected { line: word.line })
}

/// The special nets of a section, and its end.
pub fn specials(
    alloc: Global,
    words: &mut Words,
    total: u32,
    said: u32,
    listed: &mut Listed<DefNet>,
) -> Result<(), DefError>
    requires { AreListed (IsNetOf total) (λ (n : DefNet). n.name) listed.old }
    ensures reads { Reads def_faults (λ _. listed.new) result words.old words.new (loop (more_items (codes "SPECIALNETS") said (special_item_form total)) listed.old) }
    ensures sound { OnOk result (AreListed (IsNetOf total) (λ (n : DefNet). n.name) listed.new) }
    ensures skipped { OnOk result (listed.new.skipped ≡ listed.old.skipped) }
{
    'specials: while !more_specials(alloc, words, total, said, listed)? {}
    Ok(())
}
