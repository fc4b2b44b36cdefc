//! Words that are almost another: with a letter too many, too few or wrong, or with two neighbours exchanged. No contract
//! speaks of them.

/// Whether a word is almost another.
pub(crate) fn is_near(word: &str, other: &str) -> bool {
    let (word, other) = (word.as_bytes(), other.as_bytes());
    let same = same_front(word, other);
    differ_once(behind_front(word, same), behind_front(other, same))
}

/// How many letters in front two words share.
fn same_front(word: &[u8], other: &[u8]) -> usize {
    word.iter()
        .zip(other)
        .take_while(|pair| pair.0 == pair.1)
        .count()
}

/// What stands behind so many letters.
fn behind_front(word: &[u8], count: usize) -> &[u8] {
    word.get(count..).unwrap_or(&[])
}

/// Whether two words that begin otherwise are the same behind that: behind a letter of the first, of the other or of both, or
/// behind two that are exchanged.
fn differ_once(word: &[u8], other: &[u8]) -> bool {
    let (behind, other_behind) = (behind_front(word, 1), behind_front(other, 1));
    word != other
        && (behind == other
            || word == other_behind
            || behind == other_behind
            || is_exchange(word, other))
}

/// Whether two words differ by the exchange of their first two letters.
fn is_exchange(word: &[u8], other: &[u8]) -> bool {
    match (word, other) {
        ([a, b, behind @ ..], [c, d, other_behind @ ..]) => {
            a == d && b == c && behind == other_behind
        }
        _ => false,
    }
}
