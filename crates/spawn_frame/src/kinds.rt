//! A summary of a page: a walk for the next unit looks at one summary in place of 256 children. Each change of a child
//! makes it again, in a pass through its page, and only a child that is added is put to it by itself.

ghost use Rattle.std.specs.Prelude.{◌≡◌, ◌++◌, ◌∷◌, [], List};

use crate::child::Child;
use crate::wanted::Wanted;

/// Which kinds of children stand in a page.
#[derive(Clone, Copy, Debug, PartialEq, Eq)]
pub struct Kinds {
    /// One waits for a worker.
    pub ready: bool,
    /// One is a frame that is settled.
    pub ripe: bool,
    /// A worker of this site has one.
    pub here: bool,
    /// One was given to a thief.
    pub out: bool,
}

impl Kinds {
    ghost use Rattle.spawn_frame.specs.Pages.{has_wanted, kinds_of, tells};
    ghost use Rattle.spawn_frame.specs.declared.child.Child.{Child as ChildValue};

    /// The kinds that stand among these children. It costs four passes through them at most.
    pub fn of(children: &[Child]) -> Kinds
        ensures { result ≡ kinds_of children.now }
    {
        Kinds {
            ready: has_wanted(children, Wanted::Ready),
            ripe: has_wanted(children, Wanted::Ripe),
            here: has_wanted(children, Wanted::Here),
            out: has_wanted(children, Wanted::Out),
        }
    }

    /// The kinds once this child stands behind the others.
    pub fn with(self, child: &Child) -> Kinds
        ensures { (own : List ChildValue) → self ≡ kinds_of own
            → result ≡ kinds_of (own ++ child.now ∷ []) }
    {
        Kinds {
            ready: self.ready || child.work.is_wanted(Wanted::Ready),
            ripe: self.ripe || child.work.is_wanted(Wanted::Ripe),
            here: self.here || child.work.is_wanted(Wanted::Here),
            out: self.out || child.work.is_wanted(Wanted::Out),
        }
    }

    /// Whether this kind stands there.
    pub fn has(self, wanted: Wanted) -> bool
        ensures { result ≡ tells wanted self }
    {
        match wanted {
            Wanted::Ready => self.ready,
            Wanted::Ripe => self.ripe,
            Wanted::Here => self.here,
            Wanted::Out => self.out,
        }
    }
}

ghost use Rattle.spawn_frame.specs.Pages.{has_wanted as has_one};

/// Whether one of these children is wanted.
fn has_wanted(children: &[Child], wanted: Wanted) -> bool
    ensures { result ≡ has_one wanted children.now }
{
    children.iter().any(|child| child.work.is_wanted(wanted))
}
