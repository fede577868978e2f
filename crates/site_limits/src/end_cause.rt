//! The order of the causes is their rank: of all threads of a site, and of all starts, the least is the one to tell.
//! What explains the others is before them: a book that is full stops the other threads, so `Stopped` is last.

/// Why a thread of a site ended. Of several the first of this list is the site's.
#[derive(Clone, Copy, Debug, PartialEq, Eq, PartialOrd, Ord)]
pub enum EndCause {
    /// The search is over.
    Over,
    /// The site's book has as many entries as it may have.
    BookFull,
    /// The books of all sites take as many bytes as they may together.
    BooksFull,
    /// A hundred receives in a row failed.
    Faults,
    /// Memory ran out.
    Memory,
    /// Nothing came for long that shows the run going on.
    Silence,
    /// The run has lasted as long as it may.
    Time,
    /// Its turns are over.
    Turns,
    /// It was stopped by the site's other threads or by another site, which say why, or a thread of the site couldn't
    /// be started.
    Stopped,
}
