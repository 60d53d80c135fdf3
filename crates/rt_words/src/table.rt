//! Tables of words. A row means its bytes before its first space, or all of them where it has none.
ghost use Rattle.std.specs.Prelude.{◌≡◌, ℕ, ◌↔◌, IsTrue, Contains, bytes_eq, map, position, slice_get, ◌==◌};
ghost use Rattle.std.specs.List.{list_any, before_first};
ghost use Rattle.rt_words.specs.Table.{word_of, words_of, AreDistinct, are_distinct, Compares};

fn space(row: &[u8]) -> Option<usize>
    ensures { result ≡ position (λ b. b == 32) row.now }
{
    row.iter().position(|b| *b == b' ')
}

/// The bytes of a row before its first space.
fn word_of(row: &[u8]) -> &[u8]
    ensures { result.now ≡ word_of row.now }
{
    match space(row) {
        Some(n) => &row[..n],
        None => row,
    }
}

fn means(row: &[u8], word: &[u8]) -> bool
    ensures { result ≡ bytes_eq word.now (word_of row.now) }
{
    word == word_of(row)
}

fn find_row(rows: &[[u8; 20]], word: &[u8]) -> Option<usize>
    ensures { result ≡ position (λ row. bytes_eq word.now (word_of row)) rows.now }
{
    rows.iter().position(|row| means(row, word))
}

/// The row that means the word, counted from 0; `None` where no row means it. A constant table's
/// condition computes, so no caller proves anything for it.
pub fn find<const N: usize>(table: &[[u8; 20]; N], word: &[u8]) -> Option<usize>
    requires { IsTrue (are_distinct (words_of table.now)) }
    ensures found { (k : ℕ) → ((result ≡ Some k) ↔ (slice_get (words_of table.now) k ≡ Some word.now)) }
    ensures none { (result ≡ None) ↔ (¬ Contains (words_of table.now) word.now) }

    // The same for readers, which compute with it: as a place, and as one test for each row.
    ensures place { result ≡ position (bytes_eq word.now) (words_of table.now) }
    ensures compares { Compares word.now 0 (words_of table.now) result }
{
    find_row(table, word)
}

fn any_means(rows: &[[u8; 20]], word: &[u8]) -> bool
    ensures { result ≡ list_any (λ row. bytes_eq word.now (word_of row)) rows.now }
{
    rows.iter().any(|row| means(row, word))
}

fn all_distinct(rows: &[[u8; 20]]) -> bool
    ensures { result ≡ are_distinct (words_of rows.now) }
{
    match rows {
        [] => true,
        [row, after @ ..] => !any_means(after, word_of(row)) && all_distinct(after),
    }
}

/// Whether no two rows mean the same word.
pub fn distinct<const N: usize>(table: &[[u8; 20]; N]) -> bool
    ensures distinct { IsTrue result ↔ AreDistinct (words_of table.now) }
    ensures test { result ≡ are_distinct (words_of table.now) }
{
    all_distinct(table)
}
