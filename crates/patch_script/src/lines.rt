//! The lines of a text.
ghost use Rattle.std.specs.Prelude.{◌≡◌, ◌<◌, ◌∷◌, length};
ghost use Rattle.std.specs.Iterator.{YieldsFirstBy, item_count};
ghost use Rattle.patch_script.specs.Kind.{lines_of};

use memchr::memchr;

/// The lines of a text, each without its line feed. The last one may lack it.
#[derive(Drop)]
pub struct Lines<'a>(&'a [u8]);

impl<'a> Lines<'a> {
    /// All lines of the text.
    pub fn of(text: &'a [u8]) -> Lines<'a>
        ensures { result.0 ≡ text.entry }
    {
        Lines(text)
    }
}

impl<'a> Iterator for Lines<'a> {
    type Item = &'a [u8];

    ghost next_gives = { YieldsFirstBy (λ l. l.now) (λ s. lines_of s.0.now) };

    ghost remaining = { item_count (λ s. lines_of s.0.now) };

    fn next(&mut self) -> Option<&'a [u8]> {
        let text = self.0;
        if text.is_empty() {
            return None;
        }
        let (line, rest) = first_line(text);
        self.0 = rest;
        Some(line)
    }
}

/// The first line of a text, and what follows it.
fn first_line(text: &[u8]) -> (&[u8], &[u8])
    requires { 0 < length text.now }
    ensures { lines_of text.now ≡ result.0.now ∷ lines_of result.1.now }
{
    match memchr(b'\n', text) {
        Some(end) => (&text[..end], &text[end + 1..]),
        None => (text, &text[text.len()..]),
    }
}
