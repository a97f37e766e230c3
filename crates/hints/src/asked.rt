//! What the words of the command line name, by the line that tells how each command is written.

/// The words of a command, and how it is written: `run CELL SHIFT JOURNAL`. The form of words that are no command is empty.
#[derive(Clone, Copy)]
pub struct Asked<'a> {
    pub form: &'a str,
    pub words: &'a [String],
}

impl<'a> Asked<'a> {
    /// The words beside the form of their verb in the usage line.
    pub fn new(usage: &'a str, words: &'a [String]) -> Asked<'a> {
        let forms = usage.trim_end().trim_start_matches("usage: ");
        Asked {
            form: form_of(forms, verb_of(words)),
            words,
        }
    }

    /// The first word, or none.
    pub fn verb(&self) -> &'a str {
        verb_of(self.words)
    }

    /// The last word, or none.
    pub fn last(&self) -> &'a str {
        match self.words.last() {
            Some(word) => word.as_str(),
            None => "",
        }
    }

    /// Whether there are as many words as the form has.
    pub fn is_whole(&self) -> bool {
        self.form.split_whitespace().count() == self.words.len()
    }

    /// The word that is given for one of the form, as `CELL`, which stands for `CELL1` too; the empty one where the form has none.
    pub fn word(&self, kind: &str) -> &'a str {
        for (named, word) in self.form.split_whitespace().zip(self.words) {
            if named.trim_end_matches('1') == kind {
                return word.as_str();
            }
        }
        ""
    }
}

fn verb_of(words: &[String]) -> &str {
    match words.first() {
        Some(word) => word.as_str(),
        None => "",
    }
}

// The form that begins with a verb, of those with a comma between them.
fn form_of<'a>(forms: &'a str, verb: &str) -> &'a str {
    for form in forms.split(", ") {
        if is_of(form, verb) {
            return form;
        }
    }
    ""
}

fn is_of(form: &str, verb: &str) -> bool {
    form.split_whitespace().next() == Some(verb)
}
