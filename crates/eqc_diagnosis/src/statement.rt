//! At which line of a text a cover stands.
ghost use Rattle.std.specs.Prelude.{◌≤◌, length};

/// How far a text is gone through, and what is known of the statement there.
#[derive(Clone, Copy)]
struct Statement<'a> {
    model: &'a [u8],
    name: &'a [u8],
    /// The line at which it begins, and how many words of it were seen.
    line: u32,
    words: u32,
    is_names: bool,
    is_model: bool,
    /// Whether its last word is the name that is looked for.
    is_named: bool,
    /// Whether it stands in the model.
    is_inside: bool,
}

/// Whether a byte stands between words.
fn is_blank(byte: u8) -> bool {
    byte == b' ' || byte == b'\t' || byte == b'\r'
}

/// Where a byte first stands in a text, or its end.
fn find(text: &[u8], wanted: u8) -> usize
    ensures { result ≤ length text.now }
{
    for (k, byte) in text.iter().enumerate() {
        if *byte == wanted {
            return k;
        }
    }
    text.len()
}

/// Where the first blank of a line stands, or its end.
fn find_blank(line: &[u8]) -> usize
    ensures { result ≤ length line.now }
{
    for (k, byte) in line.iter().enumerate() {
        if is_blank(*byte) {
            return k;
        }
    }
    line.len()
}

/// A line without blanks at its end.
fn trimmed(line: &[u8]) -> &[u8] {
    let mut rest = line;
    'blanks: while let Some((last, front)) = rest.split_last() {
        if !is_blank(*last) {
            return rest;
        }
        rest = front;
    }
    rest
}

impl<'a> Statement<'a> {
    /// Takes its next word.
    fn take(&mut self, word: &[u8]) {
        if self.words == 0 {
            self.is_names = word == b".names".as_slice();
            self.is_model = word == b".model".as_slice();
        } else if self.is_model && self.words == 1 {
            self.is_inside = word == self.model;
        }
        self.is_named = word == self.name;
        self.words = self.words.saturating_add(1);
    }

    /// Takes the words of a line.
    fn take_line(&mut self, line: &[u8]) {
        let mut rest = line;
        'words: while !rest.is_empty() {
            let end = find_blank(rest);
            if end > 0 {
                self.take(&rest[..end]);
            }
            rest = if end < rest.len() {
                &rest[end + 1..]
            } else {
                &[]
            };
        }
    }
}

/// The line at which the cover of a signal begins in a model of a text, counted from 1, if it is
/// found.
pub(crate) fn line_of_cover(text: &[u8], model: &[u8], name: &[u8]) -> Option<u32> {
    let mut statement = Statement {
        model,
        name,
        line: 0,
        words: 0,
        is_names: false,
        is_model: false,
        is_named: false,
        is_inside: model.is_empty(),
    };
    let mut rest = text;
    let mut number = 0u32;
    'lines: while !rest.is_empty() {
        number = number.saturating_add(1);
        let end = find(rest, b'\n');
        let whole = &rest[..end];
        rest = if end < rest.len() {
            &rest[end + 1..]
        } else {
            &[]
        };
        let line = trimmed(&whole[..find(whole, b'#')]);
        if statement.words == 0 {
            statement.line = number;
        }
        if let Some((last, front)) = line.split_last()
            && *last == b'\\'
        {
            statement.take_line(front);
            continue;
        }
        statement.take_line(line);
        if statement.is_inside && statement.is_names && statement.is_named && statement.words > 1 {
            return Some(statement.line);
        }
        statement.words = 0;
        statement.is_names = false;
        statement.is_model = false;
    }
    None
}
