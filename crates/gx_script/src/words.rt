//! The words of a line.
ghost use Rattle.std.specs.Prelude.{◌≡◌, [], ◌∷◌, ◌≤◌, length, MatchOption, not, position};
ghost use Rattle.std.specs.List.{prefix_len, position_or_len};
ghost use Rattle.gx_script.specs.Lines.{without_cr};
ghost use Rattle.gx_script.specs.Words.{is_separator, words};

/// The line without the one carriage return that it may end with.
pub(crate) fn trimmed(line: &[u8]) -> &[u8]
    ensures { result.now ≡ without_cr line.now }
{
    let Some((last, front)) = line.split_last() else {
        return line;
    };
    if *last == b'\r' { front } else { line }
}

/// The first word, and what follows it.
pub(crate) fn next_word(bytes: &[u8]) -> Option<(&[u8], &[u8])>
    ensures { MatchOption result (words bytes.now ≡ []) (λ p. words bytes.now ≡ p.0.now ∷ words p.1.now) }
{
    let (_, text) = bytes.split_at(word_start(bytes));
    if text.is_empty() {
        return None;
    }
    Some(text.split_at(word_end(text)))
}

fn separates(byte: u8) -> bool
    ensures { result ≡ is_separator byte }
{
    byte == b' ' || byte == b'\t'
}

// how many separators are at the front
fn word_start(bytes: &[u8]) -> usize
    ensures value { result ≡ prefix_len is_separator bytes.now }
    ensures bound { result ≤ length bytes.now }
{
    match first_of_word(bytes) {
        Some(start) => start,
        None => bytes.len(),
    }
}

// how many bytes come before the first separator
fn word_end(bytes: &[u8]) -> usize
    ensures value { result ≡ position_or_len is_separator bytes.now }
    ensures bound { result ≤ length bytes.now }
{
    match first_separator(bytes) {
        Some(end) => end,
        None => bytes.len(),
    }
}

fn first_of_word(bytes: &[u8]) -> Option<usize>
    ensures { result ≡ position (λ b. not (is_separator b)) bytes.now }
{
    bytes.iter().position(|b| !separates(*b))
}

fn first_separator(bytes: &[u8]) -> Option<usize>
    ensures { result ≡ position is_separator bytes.now }
{
    bytes.iter().position(|b| separates(*b))
}
