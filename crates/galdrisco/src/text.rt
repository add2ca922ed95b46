// What is printed of counts, terms and marks.
use std::fmt;
use terms::marks::Marks;

// A thing that is counted.
#[derive(Clone, Copy)]
pub enum Noun {
    List,
    Entry,
    Line,
    Comparison,
}

// A number of things, as "1 list" and "2 lists".
#[derive(Clone, Copy)]
pub struct Counted(pub usize, pub Noun);

impl fmt::Display for Counted {
    fn fmt<W: fmt::Write>(&self, f: &mut fmt::Formatter<W>) -> fmt::Result {
        let Counted(number, noun) = *self;
        let (one, many) = match noun {
            Noun::List => ("list", "lists"),
            Noun::Entry => ("entry", "entries"),
            Noun::Line => ("line", "lines"),
            Noun::Comparison => ("comparison", "comparisons"),
        };
        let word = if number == 1 { one } else { many };
        write!(f, "{number} {word}")
    }
}

// The text of a term between quotes. What could confuse a terminal is spelled by its number, as \u{9}, and where the
// bytes are no UTF-8, as \xff.
#[derive(Clone, Copy)]
pub struct Quoted<'t>(pub &'t [u8]);

impl fmt::Display for Quoted<'_> {
    fn fmt<W: fmt::Write>(&self, f: &mut fmt::Formatter<W>) -> fmt::Result {
        f.write_str("\"")?;
        match std::str::from_utf8(self.0) {
            Ok(text) => {
                for c in text.chars() {
                    write_char(c, f)?;
                }
            }
            Err(_) => {
                for b in self.0 {
                    write_byte(*b, f)?;
                }
            }
        }
        f.write_str("\"")
    }
}

fn write_char<W: fmt::Write>(c: char, f: &mut fmt::Formatter<W>) -> fmt::Result {
    let plain = matches!(c, ' '..='~') || c.is_alphanumeric();
    if plain && c != '"' && c != '\\' {
        return write!(f, "{c}");
    }
    let code = u32::from(c);
    write!(f, "\\u{{{code:x}}}")
}

fn write_byte<W: fmt::Write>(b: u8, f: &mut fmt::Formatter<W>) -> fmt::Result {
    if matches!(b, b' '..=b'~') && b != b'"' && b != b'\\' {
        let c = char::from(b);
        return write!(f, "{c}");
    }
    write!(f, "\\x{b:02x}")
}

// Marks in words, each behind two blanks: those that have a name by it, the others by the number of their bit.
#[derive(Clone, Copy)]
pub struct MarkWords(pub Marks);

impl fmt::Display for MarkWords {
    fn fmt<W: fmt::Write>(&self, f: &mut fmt::Formatter<W>) -> fmt::Result {
        for place in 0..u32::BITS {
            let bit = 1u32 << place;
            if !self.0.has(bit) {
                continue;
            }
            match bit {
                Marks::WITHDRAWN => f.write_str("  withdrawn")?,
                Marks::BANNED => f.write_str("  ban")?,
                Marks::PREFERRED => f.write_str("  preferred")?,
                _ => write!(f, "  bit {place}")?,
            }
        }
        Ok(())
    }
}
