//! Command lines.
ghost use Rattle.std.specs.Prelude.{◌≡◌, ◌≤◌, ◌≤ℤ◌, ◌+◌, ◌&&◌, ◌^◌, pos, MatchResult, Ok, Err, IfOk, IfSome, None, bytes_eq, length, option_map, unwrap_or};
ghost use Rattle.router.specs.Words.{word_texts, word as word_of, is_at, is_owed, is_option, is_known, value_of, is_misvalue, fits, stands_before, is_sought, first_word, fault_of, chosen, command_of, asked_by, IsInRange, asks_for_workers, least_of, most_of};
ghost use Rattle.router.specs.declared.words.Choice.TheVariants.{Via, Tile, Rips};

use rt_words::natural;
use thiserror::Error;

/// What is wrong with a command line. Words are counted from 1, without the program's name.
#[derive(Clone, Copy, Debug, PartialEq, Eq, Error)]
pub enum WordsFault {
    /// A word that can't stand at its place; or the one behind the last, where a word is missing.
    #[error("word {word} does not fit")]
    Shape { word: u64 },
    /// An option that stands a second time.
    #[error("word {word} is an option that stands already")]
    Twice { word: u64 },
    /// The value of an option that is no number, or is out of the option's range.
    #[error("word {word} is no number that its option may have")]
    Number { word: u64 },
    /// A file that is named a second time.
    #[error("word {word} names a file that is named already")]
    SameName { word: u64 },
}

/// What an option chooses.
#[derive(Clone, Copy, Debug)]
enum Choice {
    /// `--via`: what a via costs, in DEF database units of wire.
    Via,
    /// `--tile`: the side of a tile, in DEF database units.
    Tile,
    /// `--rips`: how often a net may be ripped.
    Rips,
}

/// What may stand at a place behind the command's own word.
#[derive(Clone, Copy, Debug)]
enum Place {
    File,
    OfOption,
    OfValue,
}

/// A word that is looked for.
#[derive(Clone, Copy, Debug)]
enum Sought {
    /// A word that doesn't fit its place, or is missing.
    Misfit,
    /// An option that stands earlier, too.
    Again,
    /// A value that its option can't have.
    Misvalue,
    /// A file that is named earlier, too.
    Renamed,
    /// The option for this.
    Chosen(Choice),
}

/// What a command line says.
#[derive(Debug, Drop)]
pub struct Command<'a> {
    pub lef: &'a String,
    pub def: &'a String,
    /// The file of guides; `-` is none.
    pub guide: &'a String,
    pub out: &'a String,
    pub journal: &'a String,
    /// What a via costs.
    pub via: u64,
    /// The side of a tile, where the words say it.
    pub tile: Option<i64>,
    /// How often a net may be ripped.
    pub rips: u8,
}

/// Word n, empty where there is none.
fn word(words: &[String], n: usize) -> &str
    requires { 1 ≤ n }
    ensures { result.now ≡ word_of (word_texts words.now) n }
{
    match words.get(n - 1) {
        Some(word) => word.as_str(),
        None => "",
    }
}

/// Whether this stands at place n.
fn is_at(place: Place, n: usize) -> bool
    ensures { result ≡ is_at place n }
{
    match place {
        Place::File => 1 < n && n < 7,
        Place::OfOption => 6 < n && n % 2 == 1,
        Place::OfValue => 6 < n && n % 2 == 0,
    }
}

/// Whether word n can't be missing where those before it stand.
fn is_owed(n: usize) -> bool
    ensures { result ≡ is_owed n }
{
    n < 7 || is_at(Place::OfValue, n)
}

/// Whether a word is the option for this.
fn is_option(choice: Choice, word: &str) -> bool
    ensures { result ≡ is_option choice word.now }
{
    match choice {
        Choice::Via => word == "--via",
        Choice::Tile => word == "--tile",
        Choice::Rips => word == "--rips",
    }
}

fn is_known(word: &str) -> bool
    ensures { result ≡ is_known word.now }
{
    is_option(Choice::Via, word) || is_option(Choice::Tile, word) || is_option(Choice::Rips, word)
}

/// The number that a word chooses, where it is one in range.
fn value_of(choice: Choice, word: &str) -> Option<u64>
    ensures value { result ≡ value_of choice word.now }
    ensures least { IfSome result (λ n. least_of choice ≤ n) }
    ensures most { IfSome result (λ n. n ≤ most_of choice) }
{
    let (least, most) = match choice {
        Choice::Via => (0, 1_048_576),
        Choice::Tile => (1, 1_073_741_824),
        Choice::Rips => (0, 16),
    };
    match natural(word.as_bytes()) {
        Some(number) if least <= number && number <= most => Some(number),
        _ => None,
    }
}

/// Whether a word is no value for the option before it.
fn is_misvalue(option: &str, word: &str) -> bool
    ensures { result ≡ is_misvalue option.now word.now }
{
    if is_option(Choice::Via, option) {
        value_of(Choice::Via, word).is_none()
    } else if is_option(Choice::Tile, option) {
        value_of(Choice::Tile, word).is_none()
    } else {
        value_of(Choice::Rips, word).is_none()
    }
}

/// Whether a word fits place n.
fn fits(n: usize, word: &str) -> bool
    ensures { result ≡ fits n word.now }
{
    if n == 1 {
        word == "route"
    } else if is_at(Place::OfOption, n) {
        is_known(word)
    } else {
        true
    }
}

/// Whether word m is one of this place, and the same as word n.
fn is_same(words: &[String], place: Place, m: usize, n: usize) -> bool
    requires m { 1 ≤ m }
    requires n { 1 ≤ n }
    ensures { result ≡ (is_at place m && bytes_eq (word_of (word_texts words.now) m) (word_of (word_texts words.now) n)) }
{
    is_at(place, m) && word(words, m) == word(words, n)
}

/// Whether word n is the same as an earlier one of this place.
fn stands_before(words: &[String], place: Place, n: usize) -> bool
    requires { 1 ≤ n }
    ensures { result ≡ stands_before place (word_texts words.now) n }
{
    for m in 1..n {
        if is_same(words, place, m, n) {
            return true;
        }
    }
    false
}

/// Whether word n is one that is looked for.
fn is_sought(words: &[String], sought: Sought, n: usize) -> bool
    requires { 1 ≤ n }
    ensures { result ≡ is_sought sought (word_texts words.now) n }
{
    match sought {
        Sought::Misfit => {
            if words.len() < n {
                is_owed(n)
            } else {
                !fits(n, word(words, n))
            }
        }
        Sought::Again => is_at(Place::OfOption, n) && stands_before(words, Place::OfOption, n),
        Sought::Misvalue => {
            is_at(Place::OfValue, n) && is_misvalue(word(words, n - 1), word(words, n))
        }
        Sought::Renamed => is_at(Place::File, n) && stands_before(words, Place::File, n),
        Sought::Chosen(choice) => { is_at(Place::OfOption, n) && is_option(choice, word(words, n)) }
    }
}

/// The number of the first such word, up to the one behind the last.
fn first_word(words: &[String], sought: Sought) -> Option<usize>
    ensures word { result ≡ first_word sought (word_texts words.now) }
    ensures within { IfSome result (λ n. n ≤ length words.now + 1) }
{
    for n in 1..words.len() + 2 {
        if is_sought(words, sought, n) {
            return Some(n);
        }
    }
    None
}

/// What refuses a command line.
fn fault_of(words: &[String]) -> Option<WordsFault>
    ensures fault { result ≡ fault_of (word_texts words.now) }
    ensures whole { result ≡ None → 6 ≤ length words.now }
{
    if let Some(n) = first_word(words, Sought::Misfit) {
        return Some(WordsFault::Shape { word: n as u64 });
    }
    if let Some(n) = first_word(words, Sought::Again) {
        return Some(WordsFault::Twice { word: n as u64 });
    }
    if let Some(n) = first_word(words, Sought::Misvalue) {
        return Some(WordsFault::Number { word: n as u64 });
    }
    match first_word(words, Sought::Renamed) {
        Some(n) => Some(WordsFault::SameName { word: n as u64 }),
        None => None,
    }
}

/// The number that the words choose by this option.
fn chosen(words: &[String], choice: Choice) -> Option<u64>
    ensures value { result ≡ chosen choice (word_texts words.now) }
    ensures least { IfSome result (λ n. least_of choice ≤ n) }
    ensures most { IfSome result (λ n. n ≤ most_of choice) }
{
    match first_word(words, Sought::Chosen(choice)) {
        Some(n) => value_of(choice, word(words, n + 1)),
        None => None,
    }
}

/// What a via costs, in DEF database units of wire.
fn via_cost(words: &[String]) -> u64
    ensures value { result ≡ unwrap_or (chosen Via (word_texts words.now)) 1000 }
    ensures most { result ≤ 2 ^ 20 }
{
    match chosen(words, Choice::Via) {
        Some(cost) => cost,
        None => 1000,
    }
}

/// The side of a tile, where the words say it.
fn tile_side(words: &[String]) -> Option<i64>
    ensures value { result ≡ option_map pos (chosen Tile (word_texts words.now)) }
    ensures least { IfSome result (λ side. pos 1 ≤ℤ side) }
    ensures most { IfSome result (λ side. side ≤ℤ pos (2 ^ 30)) }
{
    match chosen(words, Choice::Tile) {
        Some(side) => Some(side as i64),
        None => None,
    }
}

/// How often a net may be ripped.
fn rip_limit(words: &[String]) -> u8
    ensures value { result ≡ unwrap_or (chosen Rips (word_texts words.now)) 3 }
    ensures most { result ≤ 16 }
{
    match chosen(words, Choice::Rips) {
        Some(rips) => rips as u8,
        None => 3,
    }
}

/// What a command line says. Refuses it by its form first (`Shape`), then for an option that stands
/// twice (`Twice`), for a value that its option can't have (`Number`), and for a file that is named
/// twice (`SameName`), `-` included; each over all words, with the number of the first such word. A
/// missing word has the number of words plus 1.
pub fn read_words(words: &[String]) -> Result<Command<'_>, WordsFault>
    ensures says { MatchResult result (λ c. command_of (word_texts words.now) ≡ Ok (asked_by c)) (λ fault. command_of (word_texts words.now) ≡ Err fault) }
    ensures in_range { IfOk result (λ c. IsInRange (asked_by c)) }
{
    if let Some(fault) = fault_of(words) {
        return Err(fault);
    }
    Ok(Command {
        lef: &words[1],
        def: &words[2],
        guide: &words[3],
        out: &words[4],
        journal: &words[5],
        via: via_cost(words),
        tile: tile_side(words),
        rips: rip_limit(words),
    })
}

/// Whether a command line asks for workers. None can yet.
pub fn needs_workers(words: &[String]) -> bool
    ensures { result ≡ asks_for_workers (word_texts words.now) }
{
    false
}
