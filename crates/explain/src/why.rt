//! What a program prints behind the line of a fault; most of it only with `--explain`.
use crate::bad_run::why_no_run;
use crate::story::set_up_story;
use run_file::{Run, RunFault};
use std::alloc::Global;
use std::fmt::Display;

/// What is printed on standard error behind the line of a fault: what is wrong with the words, and
/// if that is wanted all else. If memory for it is refused, nothing is printed.
#[derive(Drop)]
pub struct Why {
    alloc: Global,
    is_wanted: bool,
    text: String,
}

impl Why {
    /// Nothing yet. It is wanted exactly if an argument asks for it, whatever the others are.
    pub fn new(alloc: Global, words: &[String]) -> Why {
        Why {
            alloc,
            is_wanted: words.iter().any(|word| word.as_str() == "--explain"),
            text: String::new(alloc),
        }
    }

    /// Whether it is wanted.
    pub fn is_wanted(&self) -> bool {
        self.is_wanted
    }

    /// What is told.
    pub fn text(&self) -> &str {
        &self.text
    }

    /// Tells a text.
    pub fn tell<D: Display + Drop>(&mut self, text: D) {
        if self.is_wanted {
            self.tell_words(text);
        }
    }

    /// Tells what is wrong with the words of a command, also where nothing is wanted.
    pub fn tell_words<D: Display + Drop>(&mut self, text: D) {
        let _ = write!(self.text, "{text}");
    }

    /// Tells why a file can't be read or made.
    pub fn tell_file<D: Display + Drop>(&mut self, path: &str, error: D) {
        if self.is_wanted {
            let _ = writeln!(self.text, "{path}: {error}");
        }
    }

    /// Tells why the text of a name is no run.
    pub fn tell_text(&mut self, name: &str, text: &str, fault: RunFault) {
        if !self.is_wanted {
            return;
        }
        if let Ok(why) = why_no_run(self.alloc, name, text, fault) {
            self.tell(why.as_str());
        }
    }

    /// Tells what was replied to the set-up of a run that was not carried out.
    pub fn tell_set_up(&mut self, run: &Run, written: &[u8]) {
        if let Ok(story) = set_up_story(self.alloc, run, written) {
            self.tell(story.as_str());
        }
    }
}
