//! Which lines are text.
ghost use Rattle.std.specs.Prelude.{◌≡◌};
ghost use Rattle.std.specs.List.{list_all};
ghost use Rattle.std.specs.Str.{chars};
ghost use Rattle.conf_words.specs.Characters.{is_text, may_stand};

use std::str::from_utf8;

fn may_stand(character: char) -> bool
    ensures { result ≡ may_stand character }
{
    character == '\t' || !character.is_control()
}

fn all_may_stand(line: &str) -> bool
    ensures { result ≡ list_all may_stand (chars line.now) }
{
    line.chars().all(|character| may_stand(character))
}

/// Whether a line is UTF-8 (RFC 3629) without control characters other than tabs.
pub fn is_text(line: &[u8]) -> bool
    ensures { result ≡ is_text line.now }
{
    match from_utf8(line) {
        Ok(line) => all_may_stand(line),
        Err(_) => false,
    }
}
