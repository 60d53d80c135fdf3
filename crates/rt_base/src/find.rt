//! Where the first byte of some kind stands.
ghost use Rattle.std.specs.Prelude.{◌≡◌, ◌≤◌, ◌<◌, length, count_by, position, IfSome};
ghost use Rattle.std.specs.List.{position_or_len};
ghost use Rattle.rt_base.specs.Parts.{is_blank, is_feed, is_quote, is_bad};

pub fn blank(b: u8) -> bool
    ensures { result ≡ is_blank b }
{
    b == b' ' || b == b'\t' || b == b'\r' || b == b'\n'
}

fn blank_at(bytes: &[u8]) -> Option<usize>
    ensures { result ≡ position is_blank bytes.now }
{
    bytes.iter().position(|b| blank(*b))
}

fn feed_at(bytes: &[u8]) -> Option<usize>
    ensures { result ≡ position is_feed bytes.now }
{
    bytes.iter().position(|b| *b == 10)
}

fn bad_at(bytes: &[u8]) -> Option<usize>
    ensures { result ≡ position is_bad bytes.now }
{
    bytes
        .iter()
        .position(|b| *b < 32 && !blank(*b) || *b == 127)
}

/// Where the first quote stands.
pub fn quote_at(bytes: &[u8]) -> Option<usize>
    ensures place { result ≡ position is_quote bytes.now }
    ensures within { IfSome result (λ i. i < length bytes.now) }
{
    bytes.iter().position(|b| *b == 34)
}

/// How many bytes stand before the first white space.
#[tactic(auto, using(crate::proofs::Parting::first_or_len))]
pub fn before_blank(bytes: &[u8]) -> usize
    ensures before { result ≡ position_or_len is_blank bytes.now }
    ensures within { result ≤ length bytes.now }
{
    blank_at(bytes).unwrap_or(bytes.len())
}

/// How many bytes stand before the first line feed.
#[tactic(auto, using(crate::proofs::Parting::first_or_len))]
pub fn before_feed(bytes: &[u8]) -> usize
    ensures before { result ≡ position_or_len is_feed bytes.now }
    ensures within { result ≤ length bytes.now }
{
    feed_at(bytes).unwrap_or(bytes.len())
}

/// How many bytes stand before the first that isn't text.
#[tactic(auto, using(crate::proofs::Parting::first_or_len))]
pub fn before_bad(bytes: &[u8]) -> usize
    ensures before { result ≡ position_or_len is_bad bytes.now }
    ensures within { result ≤ length bytes.now }
{
    bad_at(bytes).unwrap_or(bytes.len())
}

/// How many line feeds there are.
pub fn feeds(bytes: &[u8]) -> usize
    ensures { result ≡ count_by is_feed bytes.now }
{
    bytes.iter().filter(|b| **b == 10).count()
}
