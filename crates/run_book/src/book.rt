//! A site's history as evidence: its type says that the entries lead from the site's first view through legal steps. So
//! whoever reads a book needn't run the core once more.
//!
//! The registry's book alone says what a run publishes: the result in its first Accept.

ghost use Rattle.std.specs.Prelude.{◌≡◌, ℕ, option_map, IfOk, IfSome};
ghost use Rattle.node_core.specs.SiteView.{View};
ghost use Rattle.root_registry.specs.Published.{published_by};
ghost use Rattle.run_book.specs.Answers.{book_answer, first_accepted, first_result};
ghost use Rattle.run_book.specs.Books.{are_distinct, has_site, EndsIn};
ghost use Rattle.run_book.specs.Runs.{CountsRight};

use crate::entry::Entry;
use crate::laws::{a_book_tells_what_is_published, what_is_published_counts_right};
use crate::names::Run;
use cover_problem::{Answer, Problem};
use packet_wire::{Body, Packet};
use root_registry::answer_of;
use spawn_frame::{ChildResult, Site};
use std::alloc::{AllocError, Global};
use std::marker::{Model, PhantomData};

/// What happened at a site, from its beginning on, each event a step of the site with its reply and packets.
#[derive(Drop)]
pub struct Book<J: Run> {
    site: Site,
    entries: Vec<Entry>,
    run: PhantomData<J>,
}

impl<J: Run> Model for Book<J> {
    ghost use Rattle.run_book.specs.Books.{Book as BookValue, IsBook};

    ghost Value = { BookValue };

    ghost view = { λ b. record { site = b.site; entries = b.entries.items } };

    ghost invariant = { λ b. IsBook J.run (record { site = b.site; entries = b.entries.items }) };
}

impl<J: Run> Book<J> {
    ghost use Rattle.run_book.specs.Books.{IsBook};

    /// The book of a site and its entries.
    pub(crate) fn new(site: Site, entries: Vec<Entry>) -> Book<J>
        requires { IsBook J.run (record { site = site; entries = entries.items }) }
        ensures { result ≡ record { site = site; entries = entries.items } }
    {
        Book {
            site,
            entries,
            run: PhantomData,
        }
    }

    /// The site.
    pub fn site(&self) -> Site
        ensures site { result ≡ self.now.site }
        ensures book { IsBook J.run self.now }
    {
        self.site
    }

    /// What happened there, in its order.
    pub fn entries(&self) -> &[Entry]
        ensures { result.now ≡ self.now.entries }
    {
        self.entries.as_slice()
    }

    /// What the registry published, by its book: the result in the first Accept, as a cover with its options in the
    /// order of the file, or that there is none; nothing where there is no Accept. A cover is exact. The only error is
    /// out of memory.
    ///
    /// It asks for the registry's book, and for the problem of the book's run, which a book doesn't hold.
    pub fn answer(&self, alloc: Global, problem: &Problem) -> Result<Option<Answer>, AllocError>
        requires registry { self.now.site.node ≡ 0 }
        requires problem { problem.now ≡ J.run.problem }
        ensures first { IfOk result (λ answer.
            answer ≡ book_answer J.run.problem self.now.entries) }
        ensures published { IfOk result (λ answer. (limit : ℕ) (last : View) →
            EndsIn J.run self.now limit last →
            answer ≡ published_by J.run.problem last) }
        ensures counts_right { IfOk result (λ answer. IfSome answer (CountsRight J.run.problem)) }
    {
        // (two laws, empty at run time: their clauses are what `published` and `counts_right` rest on)
        a_book_tells_what_is_published();
        what_is_published_counts_right();
        match first_result(self.entries.as_slice()) {
            Some(child_result) => {
                let answer = answer_of(alloc, problem, child_result)?;
                Ok(Some(answer))
            }
            None => Ok(None),
        }
    }
}

/// Whether no two of the books are of one site. Those of a run aren't, by how they are made: only tests and tools ask.
pub fn distinct_sites<J: Run>(books: &[Book<J>]) -> bool
    ensures { result ≡ are_distinct books.now }
{
    for at in 0..books.len() {
        if has_site(books[at].site(), &books[at + 1..]) {
            return false;
        }
    }
    true
}

/// Whether one of the books is of the site.
pub fn has_site<J: Run>(site: Site, books: &[Book<J>]) -> bool
    ensures { result ≡ has_site site books.now }
{
    for book in books {
        if book.site() == site {
            return true;
        }
    }
    false
}

/// The result in the first Accept of these packets.
fn first_accepted(packets: &[Packet]) -> Option<&ChildResult>
    ensures { option_map (λ accepted. accepted.now) result ≡ first_accepted packets.now }
{
    for packet in packets {
        if let Body::Accept {
            result: accepted,
            ..
        } = &packet.body
        {
            return Some(accepted);
        }
    }
    None
}

/// The result in the first Accept of these entries.
fn first_result(entries: &[Entry]) -> Option<&ChildResult>
    ensures { option_map (λ accepted. accepted.now) result ≡ first_result entries.now }
{
    for entry in entries {
        // (the first is enough: each later Accept of the registry repeats the root's result, which is final)
        if let Some(accepted) = first_accepted(entry.packets()) {
            return Some(accepted);
        }
    }
    None
}
