//! Which books have to be there: that of the registry, and that of each site from which a packet was delivered. A site
//! that only sent into the void needs none, since nothing rests on it. This is asked first, as the other faults would
//! blame a site that is there.

ghost use Rattle.std.specs.Prelude.{◌≡◌, IfNone, IfSome};
ghost use Rattle.std.specs.List.{AllByRecursion};
ghost use Rattle.audit.specs.Audits.{AllHaveBooks, IsMissing, sender_in, site_before};
ghost use Rattle.run_book.specs.Books.{IsBook};
ghost use Rattle.audit.specs.Lacking.{least_lacking, missed, missed_by, missed_in};

use node_core::Event;
use run_book::{Book, Entry, Run, has_site};
use spawn_frame::Site;

/// The site of the registry.
const REGISTRY: Site = Site {
    node: 0,
    incarnation: 1,
};

/// Does nothing. Its contract gathers what the type of each book says: that it is a book of the run.
pub fn are_of_run<J: Run>(books: &[Book<J>])
    ensures { AllByRecursion (IsBook J.run) books.now }
{
    for book in books {
        // (a getter's clause is what brings in the invariant of the book's type)
        let _site = book.site();
    }
}

/// The least site that lacks a book, if there is one, among the registry and the senders of all delivered packets.
pub fn missing_book<J: Run>(books: &[Book<J>]) -> Option<Site>
    ensures none { IfNone result (AllHaveBooks books.now) }
    ensures some { IfSome result (λ site. IsMissing books.now site) }
{
    least_lacking(books)
}

/// The same by its definition.
fn least_lacking<J: Run>(books: &[Book<J>]) -> Option<Site>
    ensures { result ≡ least_lacking books.now }
{
    let mut least = missed(books, REGISTRY, None);
    for book in books {
        least = missed_by(books, book.entries(), least);
    }
    least
}

/// The least site that lacks a book, of this one and the senders of the packets that these entries deliver.
fn missed_by<J: Run>(books: &[Book<J>], entries: &[Entry], before: Option<Site>) -> Option<Site>
    ensures { result ≡ missed_by books.now entries.now before }
{
    let mut least = before;
    for entry in entries {
        if let Event::Deliver(packet) = entry.event() {
            least = missed(books, packet.from, least);
        }
    }
    least
}

/// The lesser of the two sites, where this one lacks a book.
fn missed<J: Run>(books: &[Book<J>], site: Site, least: Option<Site>) -> Option<Site>
    ensures { result ≡ missed books.now site least }
{
    if has_site(site, books) {
        return least;
    }
    match least {
        Some(other) if !is_before(site, other) => Some(other),
        _ => Some(site),
    }
}

/// Whether a site is less than another: by the node, then by the incarnation.
pub fn is_before(site: Site, other: Site) -> bool
    ensures { result ≡ site_before site other }
{
    site.node < other.node || (site.node == other.node && site.incarnation < other.incarnation)
}
