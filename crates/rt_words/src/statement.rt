//! The match over the rows of a table.

/// Goes by the row of a table that means the word: a `match` whose patterns are the names of the
/// table's rows, each a `usize` constant, and `_` last for every other word.
///
/// In each arm it is known of every row whether the word equals the row's, so the match agrees with
/// a definition that tests the word against the same words, in whatever order and grouping.
#[macro_export]
macro_rules! statement {
    ($table:expr, $word:expr, $($($row:ident)|+ => $then:expr,)* _ => $other:expr $(,)?) => {
        match $crate::find(&$table, $word) {
            $($(Some($row))|+ => $then,)*
            _ => $other,
        }
    };
}
