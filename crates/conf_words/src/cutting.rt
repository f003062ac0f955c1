//! Blanks and words.
ghost use Rattle.std.specs.Prelude.{◌≡◌, ◌<◌, length, IfSome};
ghost use Rattle.std.specs.List.{position};
ghost use Rattle.conf_words.specs.Marks.{front_of, is_of_word, parts_words, past};

fn parts_words(byte: u8) -> bool
    ensures { result ≡ parts_words byte }
{
    byte == b' ' || byte == b'\t'
}

fn place_of_word(text: &[u8]) -> Option<usize>
    ensures place { result ≡ position is_of_word text.now }
    ensures within { IfSome result (λ i. i < length text.now) }
{
    text.iter().position(|byte| !parts_words(*byte))
}

fn place_of_blank(text: &[u8]) -> Option<usize>
    ensures place { result ≡ position parts_words text.now }
    ensures within { IfSome result (λ i. i < length text.now) }
{
    text.iter().position(|byte| parts_words(*byte))
}

/// The text from its first word on.
pub fn past_blanks(text: &[u8]) -> &[u8]
    ensures { result.now ≡ past parts_words text.now }
{
    match place_of_word(text) {
        Some(place) => &text[place..],
        None => &text[text.len()..],
    }
}

/// The bytes before the first blank or tab, and the rest from it on.
pub fn cut_word(text: &[u8]) -> (&[u8], &[u8])
    ensures word { result.0.now ≡ front_of is_of_word text.now }
    ensures rest { result.1.now ≡ past is_of_word text.now }
{
    match place_of_blank(text) {
        Some(place) => text.split_at(place),
        None => text.split_at(text.len()),
    }
}
