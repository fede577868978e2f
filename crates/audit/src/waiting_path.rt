//! Which book goes on next. No contract speaks of it: whatever book is named, its next entry is tested before it is
//! taken.

use std::alloc::{AllocError, Global};

/// A book that another one waits for.
#[derive(Clone, Copy, Debug)]
pub struct AwaitedBook {
    /// Which of the books it is.
    pub number: usize,
    /// How many of its entries have to be merged.
    pub until: usize,
}

/// Books each of which waits for the next one. There is room for as many as there are books: a longer path has a
/// circle, and nobody on that can go on.
#[derive(Drop)]
pub struct WaitingPath {
    books: Vec<AwaitedBook>,
    length: usize,
}

impl WaitingPath {
    /// The empty path, with room for so many books. It fails only if memory runs out.
    pub fn new(alloc: Global, room: usize) -> Result<WaitingPath, AllocError> {
        let nobody = AwaitedBook {
            number: 0,
            until: 0,
        };
        let books = vec![in alloc; nobody; room]?;
        Ok(WaitingPath { books, length: 0 })
    }

    /// The last book, after those that have come as far as they have to are taken off.
    pub fn last(&mut self, cursors: &[usize]) -> Option<usize> {
        for _ in 0..self.length {
            let book = self.top()?;
            if is_waited_for(book, cursors) {
                return Some(book.number);
            }
            self.length = self.length.saturating_sub(1);
        }
        None
    }

    /// The last book, and until when it is waited for.
    fn top(&self) -> Option<AwaitedBook> {
        self.books.get(self.length.checked_sub(1)?).copied()
    }

    /// Adds the book that the last one waits for. Where none is known, or there is no room, nobody on the path can go
    /// on, and it is emptied.
    pub fn wait_for(&mut self, awaited: Option<AwaitedBook>) {
        match awaited {
            Some(book) if self.length < self.books.len() => {
                self.books[self.length] = book;
                self.length += 1;
            }
            _ => self.length = 0,
        }
    }

    /// A path of this book alone.
    pub fn restart(&mut self, number: usize) {
        self.length = 0;
        self.wait_for(Some(AwaitedBook {
            number,
            // (no book waits for this one, so no count of merged entries takes it off)
            until: usize::MAX,
        }));
    }
}

/// Whether the book still has to go on.
fn is_waited_for(book: AwaitedBook, cursors: &[usize]) -> bool {
    match cursors.get(book.number) {
        Some(cursor) => *cursor < book.until,
        None => false,
    }
}
