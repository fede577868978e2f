//! Steps that come again and again are stored once. Threads that find no work ask for ever, so a book of a run of days
//! has many such entries. The few such steps are searched one by one; they are too few for a hash table.

ghost use Rattle.std.specs.Prelude.{◌≡◌, IfSome};

use crate::book_room::entry_bytes;
use crate::entry::Entry;
use std::alloc::Global;

/// How many entries are kept at most: a node of sixteen has about fifty such steps.
const MOST: usize = 64;

/// Entries that a site without work repeats, and what a busy one says again. Each equal one shares the step, so that
/// their books grow little.
#[derive(Drop)]
pub struct Repeated {
    entries: Vec<Entry>,
    /// What the site said again last.
    again: Option<Entry>,
    /// Whether the last entry shares its step with an earlier one.
    is_shared: bool,
}

impl Repeated {
    /// None so far. It takes no memory.
    pub fn new(alloc: Global) -> Repeated {
        Repeated {
            entries: Vec::new(alloc),
            again: None,
            is_shared: false,
        }
    }

    /// How many bytes the entry that came last takes in its book.
    pub fn last_bytes(&self, last: &Entry) -> u64 {
        entry_bytes(last.step(), self.is_shared)
    }

    /// The entry; one that may be repeated shares its step with each equal one, or with the last if it is what is said
    /// again.
    pub fn shared(&mut self, entry: Entry) -> Entry
        ensures { result ≡ entry }
    {
        self.is_shared = false;
        // (its packets change with what is out, so it is compared with the last alone, and takes no place from idle
        // steps)
        if entry.step().is_again() {
            return self.shared_again(entry);
        }
        if !entry.step().is_idle() {
            return entry;
        }
        if let Some(twin) = self.twin(&entry) {
            self.is_shared = true;
            return twin;
        }
        self.keep(&entry);
        entry
    }

    /// The entry of what is said again: it shares its step with the last such one, if that is equal.
    fn shared_again(&mut self, entry: Entry) -> Entry
        ensures { result ≡ entry }
    {
        if let Some(last) = &self.again
            && last.step().is_same(entry.step())
            && let Ok(twin) = last.twin()
        {
            self.is_shared = true;
            return twin;
        }
        self.again = entry.twin().ok();
        entry
    }

    /// A twin of an equal entry, where one is kept.
    fn twin(&self, entry: &Entry) -> Option<Entry>
        ensures { IfSome result (λ twin. twin ≡ entry.now) }
    {
        for known in &self.entries {
            if known.step().is_same(entry.step()) {
                // (a step that can't have one owner more is not shared, which costs only memory)
                return known.twin().ok();
            }
        }
        None
    }

    /// Keeps a twin of the entry, if there is room for it and memory.
    fn keep(&mut self, entry: &Entry) {
        if self.entries.len() < MOST
            && let Ok(twin) = entry.twin()
        {
            // (what isn't kept is only not shared)
            let _ = self.entries.push(twin);
        }
    }
}
