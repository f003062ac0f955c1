//! The words that lines of scripts begin with.
ghost use Rattle.std.specs.Prelude.{◌≡◌, ◌==◌, not, option_map};
ghost use Rattle.std.specs.List.{list_all};
ghost use Rattle.net_types.specs.Marks.{is_printable};
ghost use Rattle.script_lines.specs.Words.{is_word_end, whole_word, word_at, is_text};

use net_types::strip_word;

/// What a line is, by its first word.
#[derive(Clone, Copy, PartialEq, Eq)]
pub enum Word {
    /// The first line of a script.
    Head,
    /// A line of the configuration.
    Conf,
    Interface,
    /// A row that the host holds at first.
    Row,
    /// A file that the store holds at first.
    File,
    /// A call that fails.
    Fail,
    /// What a poll of a hook answers.
    Hook,
    /// A life begins.
    Start,
    Turn,
    /// A life ends with a crash.
    Crash,
}

fn is_word_end(rest: &[u8]) -> bool
    ensures { result ≡ is_word_end rest.now }
{
    match rest.first() {
        Some(byte) => *byte == b' ',
        None => true,
    }
}

fn whole_word(word: Word, rest: &[u8]) -> Option<(Word, &[u8])>
    ensures { option_map (λ p. (p.0, p.1.now)) result ≡ whole_word word rest.now }
{
    if is_word_end(rest) {
        Some((word, rest))
    } else {
        None
    }
}

/// The first word of a line, where lines begin with it, and what follows it.
#[tactic(auto, unfolding(crate::specs::Words::word_at))]
pub fn word_of(line: &[u8]) -> Option<(Word, &[u8])>
    ensures { option_map (λ p. (p.0, p.1.now)) result ≡ word_at line.now }
{
    if let Some(rest) = strip_word(line, b"turn") {
        return whole_word(Word::Turn, rest);
    }
    if let Some(rest) = strip_word(line, b"c:") {
        return Some((Word::Conf, rest));
    }
    if let Some(rest) = strip_word(line, b"if") {
        return whole_word(Word::Interface, rest);
    }
    if let Some(rest) = strip_word(line, b"row") {
        return whole_word(Word::Row, rest);
    }
    if let Some(rest) = strip_word(line, b"file") {
        return whole_word(Word::File, rest);
    }
    if let Some(rest) = strip_word(line, b"fail") {
        return whole_word(Word::Fail, rest);
    }
    if let Some(rest) = strip_word(line, b"hook") {
        return whole_word(Word::Hook, rest);
    }
    if let Some(rest) = strip_word(line, b"start") {
        return whole_word(Word::Start, rest);
    }
    if let Some(rest) = strip_word(line, b"crash") {
        return whole_word(Word::Crash, rest);
    }
    match strip_word(line, b"dhcpcd-script") {
        Some(rest) => whole_word(Word::Head, rest),
        None => None,
    }
}

fn lacks_feeds(line: &[u8]) -> bool
    ensures { result ≡ list_all (λ b. not (b == 10)) line.now }
{
    line.iter().all(|byte| *byte != b'\n')
}

/// Whether all bytes are printable. Without a branch at each of them, so that many are judged at once.
fn is_printable(line: &[u8]) -> bool
    ensures { result ≡ list_all is_printable line.now }
{
    let mut good = true;
    for byte in line {
        good &= (b' '..=b'~').contains(byte);
    }
    good
}

/// Whether the bytes of a line are those that it may have.
#[tactic(auto, unfolding(crate::specs::Words::is_text))]
pub fn is_text(line: &[u8]) -> bool
    ensures { result ≡ is_text line.now }
{
    match strip_word(line, b"c:") {
        Some(_) => lacks_feeds(line),
        None => is_printable(line),
    }
}
