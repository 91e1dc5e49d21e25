//! The word that is nearest to a wrong one.

/// At how many letters apart a word is still near.
const MOST_APART: usize = 2;

/// A search for the word that is nearest to a wrong one: the first of those with the fewest letters apart.
#[derive(Drop)]
pub(crate) struct Nearest<'a> {
    wrong: &'a str,
    found: Option<&'a str>,
    apart: usize,
}

impl<'a> Nearest<'a> {
    /// No word yet.
    pub(crate) fn to(wrong: &'a str) -> Nearest<'a> {
        Nearest {
            wrong,
            found: None,
            apart: MOST_APART + 1,
        }
    }

    /// One word more that might have been meant.
    pub(crate) fn look_at(&mut self, word: &'a str) {
        let apart = letters_apart(self.wrong.as_bytes(), word.as_bytes());
        self.look_at_distance(word, apart);
    }

    /// One option more that might have been meant, by its name: its word has two dashes before that.
    pub(crate) fn look_at_option(&mut self, name: &'a str) {
        let apart = match self.wrong.strip_prefix("--") {
            Some(wrong) => letters_apart(wrong.as_bytes(), name.as_bytes()),
            None => {
                letters_apart(from(self.wrong.as_bytes(), 1), name.as_bytes()).saturating_add(1)
            }
        };
        self.look_at_distance(name, apart);
    }

    /// A word that is so many letters apart.
    fn look_at_distance(&mut self, word: &'a str, apart: usize) {
        if apart < self.apart {
            self.found = Some(word);
            self.apart = apart;
        }
    }

    /// The nearest word; None where none is near.
    pub(crate) fn found(&self) -> Option<&'a str> {
        self.found
    }
}

/// How many letters of the longer word are left without the letters with which both begin, and those with which both end.
fn letters_apart(a: &[u8], b: &[u8]) -> usize {
    let start = shared_start(a, b);
    let (a, b) = (from(a, start), from(b, start));
    a.len().max(b.len()).saturating_sub(shared_end(a, b))
}

/// How many bytes both begin with.
fn shared_start(a: &[u8], b: &[u8]) -> usize {
    a.iter().zip(b.iter()).take_while(|(x, y)| x == y).count()
}

/// How many bytes both end with.
fn shared_end(a: &[u8], b: &[u8]) -> usize {
    a.iter()
        .rev()
        .zip(b.iter().rev())
        .take_while(|(x, y)| x == y)
        .count()
}

/// The bytes from a place on.
fn from(bytes: &[u8], place: usize) -> &[u8] {
    bytes.get(place..).unwrap_or(&[])
}
