// The lines of a text, and the words of a line.
ghost use Rattle.std.specs.Prelude.{length};
ghost use Rattle.std.specs.Iterator.{at_most};

// The lines of a text without their comments, which `#` begins.
#[derive(Drop)]
pub struct Lines<'a>(pub &'a [u8]);

// The words of a text, which has blanks between them.
#[derive(Drop)]
pub struct Words<'a>(pub &'a [u8]);

fn content(line: &[u8]) -> &[u8] {
    match line.iter().position(|&b| b == b'#') {
        Some(i) => &line[..i],
        None => line,
    }
}

impl<'a> Iterator for Lines<'a> {
    type Item = &'a [u8];

    ghost remaining = { λ lines. at_most (length lines.0.now) };

    fn next(&mut self) -> Option<&'a [u8]> {
        let text = self.0;
        if text.is_empty() {
            return None;
        }
        match text.iter().position(|&b| b == b'\n') {
            Some(i) => {
                self.0 = &text[i + 1..];
                Some(content(&text[..i]))
            }
            None => {
                self.0 = &[];
                Some(content(text))
            }
        }
    }
}

impl<'a> Iterator for Words<'a> {
    type Item = &'a [u8];

    ghost remaining = { λ words. at_most (length words.0.now) };

    #[tactic(auto, using(numerals::proofs::Words::falls))]
    fn next(&mut self) -> Option<&'a [u8]> {
        let text = self.0;
        let word = numerals::word(text);
        if word.is_empty() {
            return None;
        }
        self.0 = numerals::after_word(text);
        Some(word)
    }
}
