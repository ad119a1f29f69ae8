//! A text in lines, and what counts of a line.

ghost use Rattle.std.specs.Prelude.{◌≡◌, ◌<◌, ◌+◌, ◌∷◌, [], ◌==◌, length, take, drop, not, IfSome, MatchOption};
ghost use Rattle.std.specs.List.{position};
ghost use Rattle.std.specs.Str.{bytes_eq};
ghost use Rattle.text_fields.specs.Lines.{lines, without_return, without_comment, is_plain, are_plain};

/// Whether the bytes are that text.
pub fn is(bytes: &[u8], text: &[u8]) -> bool
    ensures { result ≡ bytes_eq bytes.now text.now }
{
    bytes == text
}

fn place(bytes: &[u8], at: u8) -> Option<usize>
    ensures is { result ≡ position (λ b. b == at) bytes.now }
    ensures within { IfSome result (λ i. i < length bytes.now) }
{
    bytes.iter().position(|byte| *byte == at)
}

/// What stands before and behind the byte at that place.
pub(crate) fn around(bytes: &[u8], place: usize) -> (&[u8], &[u8])
    requires { place < length bytes.now }
    ensures before { result.0.now ≡ take place bytes.now }
    ensures behind { result.1.now ≡ drop (place + 1) bytes.now }
{
    let (before, _) = bytes.split_at(place);
    let (_, behind) = bytes.split_at(place + 1);
    (before, behind)
}

// Without the carriage return at the end, if there is one.
#[tactic(auto, unfolding(crate::specs::Lines::without_return))]
fn without_return(line: &[u8]) -> &[u8]
    ensures { result.now ≡ without_return line.now }
{
    match line {
        [front @ .., b'\r'] => front,
        _ => line,
    }
}

/// The first line of a text, and the text behind its line feed; no text where it is the last line, which no
/// line feed ends. A carriage return right before the line feed is left out. It takes time for that line alone.
pub fn next_line(text: &[u8]) -> (&[u8], Option<&[u8]>)
    ensures first { MatchOption result.1 (lines text.now ≡ result.0.now ∷ []) (λ rest. lines text.now ≡ result.0.now ∷ lines rest.now) }
    ensures shorter { IfSome result.1 (λ rest. length rest.now < length text.now) }
{
    match place(text, b'\n') {
        Some(at) => {
            let (line, rest) = around(text, at);
            (without_return(line), Some(rest))
        }
        None => (text, None),
    }
}

/// What stands before the first `#`.
pub fn without_comment(line: &[u8]) -> &[u8]
    ensures { result.now ≡ without_comment line.now }
{
    match place(line, b'#') {
        Some(at) => &line[..at],
        None => line,
    }
}

/// Whether the byte is a printing character of ASCII, a space or a tab.
pub fn is_plain(byte: u8) -> bool
    ensures { result ≡ is_plain byte }
{
    matches!(byte, b' '..=b'~' | b'\t')
}

/// Whether all bytes are printing characters of ASCII, spaces and tabs.
pub fn are_plain(bytes: &[u8]) -> bool
    ensures { result ≡ are_plain bytes.now }
{
    bytes.iter().all(|byte| is_plain(*byte))
}
