//! Nets.
ghost use Rattle.std.specs.Prelude.{◌≡◌, ◌^◌, ◌+◌, ◌-◌, ◌≤◌, All, true, codes, length, IfOk, OnOk};
ghost use Rattle.rt_forms.specs.Clauses.{Reads, Looks, Gives};
ghost use Rattle.rt_forms.specs.Form.{More, turn, loop, unless};
ghost use Rattle.rt_forms.specs.Reading.{left_of};
ghost use Rattle.rt_forms.specs.Word.{place_of};
ghost use Rattle.def_text.specs.declared.def.DefNet.{DefNet};
ghost use Rattle.def_text.specs.Faults.{def_faults};
ghost use Rattle.def_text.specs.Defs.{IsConnection, IsRange};
ghost use Rattle.def_text.specs.Parts.{no_bracket};
ghost use Rattle.def_text.specs.Wiring.{IsNetOf};
ghost use Rattle.def_text.specs.Sections.{AreListed, more_items};
ghost use Rattle.def_text.specs.Nets.{joined_by_must as joined_by_must_of, connection_tail as connection_tail_form, connection as connection_form, connections as connections_form, net_wiring as net_wiring_form, net_option as net_option_form, more_net as more_net_form, net_item as net_item_form};

use crate::def::DefNet;
use crate::error::DefError;
use crate::kinds::{NetOption, net_option_of};
use crate::parts::{Words, here, name, refused};
use crate::sections::{Listed, new_name, section_end};
use crate::wiring::wiring_range;
use rt_base::{Name, Seq};
use rt_forms::Word;
use std::alloc::Global;

/// What the options of a net say that is read.
#[derive(Drop)]
pub struct OpenNet {
    pub wiring: Seq<(u32, u32)>,
    pub close: u32,
    pub skipped: u32,
}

/// `MUSTJOIN` isn't supported as a name.
fn joined_by_must(alloc: Global, word: Word) -> Result<(), DefError>
    ensures { Gives def_faults (λ x. x) result (joined_by_must_of (place_of word.entry)) }
{
    if word.is(b"MUSTJOIN") {
        return Err(refused(alloc, word));
    }
    Ok(())
}

/// Behind the pin of a connection.
#[tactic(auto, unfolding(crate::specs::Nets::connection_tail))]
pub fn connection_tail(words: &mut Words) -> Result<(), DefError>
    ensures { Reads def_faults (λ x. x) result words.old words.new connection_tail_form }
{
    let word = words.next()?;
    if word.is(b")") {
        return Ok(());
    }
    if word.is(b"+") {
        words.expect(b"SYNTHESIZED")?;
        return words.expect(b")");
    }
    Err(DefError::Expected { line: word.line })
}

/// A connection.
#[tactic(auto, unfolding(crate::specs::Nets::connection))]
fn connection(
    alloc: Global,
    words: &mut Words,
    pins: &mut Seq<(Name, Name)>,
) -> Result<(), DefError>
    requires { All IsConnection pins.old }
    ensures reads { Reads def_faults (λ _. More pins.new) result words.old words.new (connection_form pins.old) }
    ensures sound { OnOk result (All IsConnection pins.new) }
    ensures few { OnOk result (length pins.new + length words.new ≤ length pins.old + length words.old) }
{
    words.next()?;
    let of = name(words)?;
    let pin = name(words)?;
    connection_tail(words)?;
    pins.push((Name::new(alloc, of.bytes)?, Name::new(alloc, pin.bytes)?))?;
    Ok(())
}

/// The connections of a net behind those before.
fn further_connections(
    alloc: Global,
    words: &mut Words,
    pins: &mut Seq<(Name, Name)>,
) -> Result<(), DefError>
    requires { All IsConnection pins.old }
    ensures reads { Looks def_faults (λ _. pins.new) result words.old words.new (loop (unless no_bracket connection_form) pins.old) }
    ensures sound { OnOk result (All IsConnection pins.new) }
    ensures few { OnOk result (length pins.new + length words.new ≤ length pins.old + length words.old) }
{
    'connections: while words.at(b"(") {
        connection(alloc, words, pins)?;
    }
    Ok(())
}

/// The connections of a net, no more than it has words.
fn connections(alloc: Global, words: &mut Words) -> Result<Seq<(Name, Name)>, DefError>
    ensures reads { Looks def_faults (λ x. x) result words.old words.new connections_form }
    ensures sound { IfOk result (λ pins. All IsConnection pins) }
    ensures few { IfOk result (λ pins. length pins + length words.new ≤ length words.old) }
{
    let mut pins = Seq::new(alloc);
    further_connections(alloc, words, &mut pins)?;
    Ok(pins)
}

/// An option of wiring behind its `+`, which has this number.
#[tactic(auto, unfolding(crate::specs::Nets::net_wiring))]
fn net_wiring(words: &mut Words, total: u32, plus: u32, net: &mut OpenNet) -> Result<(), DefError>
    requires plus { plus ≤ total - left_of words.old }
    requires wiring { All (IsRange total) net.old.wiring }
    ensures reads { Reads def_faults (λ _. net.new) result words.old words.new (net_wiring_form total plus net.old) }
    ensures wiring { OnOk result (All (IsRange total) net.new.wiring) }
    ensures skipped { OnOk result (net.new.skipped ≡ net.old.skipped) }
{
    let range = wiring_range(words, total, plus)?;
    net.wiring.push(range)?;
    Ok(())
}

/// An option behind its `+`, which has this number, in a text of so many words.
#[tactic(auto, unfolding(crate::specs::Nets::net_option))]
fn net_option(
    alloc: Global,
    words: &mut Words,
    total: u32,
    plus: u32,
    net: &mut OpenNet,
) -> Result<(), DefError>
    requires few { net.old.skipped + length words.old ≤ 2 ^ 32 }
    requires plus { plus ≤ total - left_of words.old }
    requires wiring { All (IsRange total) net.old.wiring }
    ensures reads { Looks def_faults (λ _. net.new) result words.old words.new (net_option_form total plus net.old) }
    ensures wiring { OnOk result (All (IsRange total) net.new.wiring) }
    ensures few { OnOk result (net.new.skipped + length words.new ≤ net.old.skipped + length words.old) }
{
    match net_option_of(words) {
        NetOption::Wiring => net_wiring(words, total, plus, net),
        NetOption::Subnet => {
            let word = words.next()?;
            Err(refused(alloc, word))
        }
        NetOption::Rule => {
            words.next()?;
            words.name()?;
            net.skipped += 1;
            Ok(())
        }
        NetOption::Unused => {
            words.option_rest();
            Ok(())
        }
    }
}

/// One more option, or the closing `;`. True where it was the `;`.
#[tactic(auto, unfolding(crate::specs::Nets::more_net))]
fn more_net(
    alloc: Global,
    words: &mut Words,
    total: u32,
    net: &mut OpenNet,
) -> Result<bool, DefError>
    requires few { net.old.skipped + length words.old ≤ 2 ^ 32 }
    requires wiring { All (IsRange total) net.old.wiring }
    ensures reads { Reads def_faults (λ last. turn last net.new) result words.old words.new (more_net_form total net.old) }
    ensures wiring { OnOk result (All (IsRange total) net.new.wiring) }
    ensures few { OnOk result (net.new.skipped + length words.new ≤ net.old.skipped + length words.old) }
{
    let at = here(words, total);
    let word = words.next()?;
    if word.is(b";") {
        net.close = word.first;
        return Ok(true);
    }
    if word.is(b"+") {
        net_option(alloc, words, total, at, net)?;
        return Ok(false);
    }
    Err(DefError::Expected { line: word.line })
}

/// The options of a net, and the closing `;`.
fn options(alloc: Global, words: &mut Words, total: u32, net: &mut OpenNet) -> Result<(), DefError>
    requires few { net.old.skipped + length words.old ≤ 2 ^ 32 }
    requires wiring { All (IsRange total) net.old.wiring }
    ensures reads { Reads def_faults (λ _. net.new) result words.old words.new (loop (more_net_form total) net.old) }
    ensures wiring { OnOk result (All (IsRange total) net.new.wiring) }
    ensures few { OnOk result (net.new.skipped + length words.new ≤ net.old.skipped + length words.old) }
{
    'options: while !more_net(alloc, words, total, net)? {}
    Ok(())
}

/// A net behind its `-`, in a text of so many words.
#[tactic(auto, unfolding(crate::specs::Nets::net_item))]
fn net_item(
    alloc: Global,
    words: &mut Words,
    total: u32,
    listed: &mut Listed<DefNet>,
) -> Result<(), DefError>
    requires sound { AreListed (IsNetOf total) (λ (n : DefNet). n.name) listed.old }
    requires few { listed.old.skipped + length words.old ≤ 2 ^ 32 }
    ensures reads { Reads def_faults (λ _. listed.new) result words.old words.new (net_item_form total listed.old) }
    ensures sound { OnOk result (AreListed (IsNetOf total) (λ (n : DefNet). n.name) listed.new) }
    ensures few { OnOk result (listed.new.skipped + length words.new ≤ listed.old.skipped + length words.old) }
{
    let word = name(words)?;
    joined_by_must(alloc, word)?;
    new_name(alloc, &mut listed.names, word)?;
    let pins = connections(alloc, words)?;
    let mut open = OpenNet {
        wiring: Seq::new(alloc),
        close: 0,
        skipped: listed.skipped,
    };
    options(alloc, words, total, &mut open)?;
    let net = DefNet {
        name: Name::new(alloc, word.bytes)?,
        pins,
        wiring: open.wiring,
        close: open.close,
    };
    listed.items.push(net)?;
    listed.skipped = open.skipped;
    Ok(())
}

/// One more net, or the end of the section. True where it was the end.
#[tactic(auto, unfolding(crate::specs::Sections::more_items))]
fn more_nets(
    alloc: Global,
    words: &mut Words,
    total: u32,
    said: u32,
    listed: &mut Listed<DefNet>,
) -> Result<bool, DefError>
    requires sound { AreListed (IsNetOf total) (λ (n : DefNet). n.name) listed.old }
    requires few { listed.old.skipped + length words.old ≤ 2 ^ 32 }
    ensures reads { Reads def_faults (λ last. turn last listed.new) result words.old words.new (more_items (codes "NETS") said (net_item_form total) listed.old) }
    ensures sound { OnOk result (AreListed (IsNetOf total) (λ (n : DefNet). n.name) listed.new) }
    ensures few { OnOk result (listed.new.skipped + length words.new ≤ listed.old.skipped + length words.old) }
    ensures count { IfOk result (λ last. last ≡ true → length listed.new.items ≡ said) }
{
    let word = words.next()?;
    if word.is(b"-") {
        net_item(alloc, words, total, listed)?;
        return Ok(false);
    }
    if word.is(b"END") {
        section_end(alloc, words, b"NETS", said, listed.items.len())?;
        return Ok(true);
    }
    Err(DefError::Expected { line: word.line })
}

/// The nets of a section, and its end.
pub fn nets(
    alloc: Global,
    words: &mut Words,
    total: u32,
    said: u32,
    listed: &mut Listed<DefNet>,
) -> Result<(), DefError>
    requires sound { AreListed (IsNetOf total) (λ (n : DefNet). n.name) listed.old }
    requires few { listed.old.skipped + length words.old ≤ 2 ^ 32 }
    ensures reads { Reads def_faults (λ _. listed.new) result words.old words.new (loop (more_items (codes "NETS") said (net_item_form total)) listed.old) }
    ensures sound { OnOk result (AreListed (IsNetOf total) (λ (n : DefNet). n.name) listed.new) }
    ensures few { OnOk result (listed.new.skipped + length words.new ≤ listed.old.skipped + length words.old) }
    ensures count { OnOk result (length listed.new.items ≡ said) }
{
    'nets: while !more_nets(alloc, words, total, said, listed)? {}
    Ok(())
}
