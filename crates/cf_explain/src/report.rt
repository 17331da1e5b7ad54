//! Lines of which a number is written out.
use crate::page::Page;
use std::alloc::Global;

/// How many lines are written out.
const MOST: u64 = 20;

/// Lines so far, and how many there are with those that are not written out.
#[derive(Drop)]
pub(crate) struct Report {
    pub(crate) lines: Page,
    count: u64,
}

impl Report {
    /// No lines.
    pub(crate) fn new(alloc: Global) -> Report {
        Report {
            lines: Page::new(alloc),
            count: 0,
        }
    }

    /// Counts one more line, and says whether it is written out.
    pub(crate) fn takes(&mut self) -> bool {
        let takes = self.count < MOST;
        self.count = self.count.saturating_add(1);
        takes
    }

    /// How many lines there are beside those that are written out, behind a word.
    pub(crate) fn push_more(&mut self, file: &str, word: &str) {
        if self.count > MOST {
            self.lines.push_all(&[file, word]);
            self.lines.push_number_after(" and ", self.count - MOST);
            self.lines.push(" more\n");
        }
    }
}
