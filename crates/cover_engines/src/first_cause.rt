//! Why a run has no answer.

use udp_node::{EndCause, SiteEnd};

/// Why the first site ended that didn't end with the search: the others end because of it, so it says why the run has
/// no answer.
#[derive(Clone, Copy)]
pub(crate) struct FirstCause {
    /// None as long as no site has ended so.
    text: Option<&'static str>,
}

impl FirstCause {
    /// Of a run in which no site has ended.
    pub(crate) fn new() -> FirstCause {
        FirstCause { text: None }
    }

    /// Notes that a site has ended so.
    pub(crate) fn hear(&mut self, end: &SiteEnd) {
        if end.cause != EndCause::Over && self.text.is_none() {
            self.text = Some(cause_text(end));
        }
    }

    /// Why there is no answer, with what may give one.
    pub(crate) fn why(&self) -> &'static str {
        self.text
            .unwrap_or("nothing was published: try again, or answer")
    }
}

/// Why a site ended so, with what may help.
fn cause_text(end: &SiteEnd) -> &'static str {
    match end.cause {
        EndCause::Over => "the search is over",
        EndCause::BookFull => "a book is full: try more --entries, or answer",
        EndCause::BooksFull => {
            "the books are as large as they may be: try more --megabytes, or answer"
        }
        EndCause::Faults => "a socket failed: try again, or answer",
        EndCause::Memory => "out of memory: try fewer --nodes or --workers",
        EndCause::Silence => "a site heard nothing for long: try again, or answer",
        EndCause::Time => "the time is over: try more --seconds",
        EndCause::Turns => "the turns of a site are over: try more --turns",
        EndCause::Stopped if end.is_manned => "a site was stopped by another: try again, or answer",
        EndCause::Stopped => "a thread could not be started: try fewer --nodes or --workers",
    }
}
