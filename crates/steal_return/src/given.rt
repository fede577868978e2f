//! What a thief is given.

ghost use Rattle.std.specs.Prelude.{◌≡◌, ◌∷◌, [], IfOk};
ghost use Rattle.spawn_frame.specs.Gifts.{sibling_gift, sibling_gifts};
ghost use Rattle.steal_return.specs.Shares.{gifts_of};

use cover_problem::Numbers;
use spawn_frame::{Gift, Sibling, Siblings};
use std::alloc::{AllocError, Global};

/// What a thief is given: one child, or two to eight of one parent.
#[derive(Debug, Drop)]
pub enum Given {
    /// One child.
    One(Gift),
    /// Children of one parent.
    Several {
        /// The parent's prefix.
        prefix: Numbers,
        /// The children, by serial.
        siblings: Siblings,
    },
}

impl Given {
    /// Each child that is given, with its whole prefix; the only error is out of memory.
    pub fn into_gifts(self, alloc: Global) -> Result<Vec<Gift>, AllocError>
        ensures { IfOk result (λ gifts. gifts.items ≡ gifts_of self) }
    {
        match self {
            Given::One(gift) => one_gift(alloc, gift),
            Given::Several { prefix, siblings } => {
                gifts_below(alloc, prefix.as_slice(), siblings.as_slice())
            }
        }
    }
}

/// One child by itself.
fn one_gift(alloc: Global, gift: Gift) -> Result<Vec<Gift>, AllocError>
    ensures { IfOk result (λ gifts. gifts.items ≡ gift ∷ []) }
{
    let mut gifts = Vec::with_capacity(alloc, 1)?;
    gifts.push(gift)?;
    Ok(gifts)
}

/// The children of a parent with this prefix.
fn gifts_below(alloc: Global, prefix: &[u16], siblings: &[Sibling]) -> Result<Vec<Gift>, AllocError>
    ensures { IfOk result (λ gifts. gifts.items ≡ sibling_gifts prefix.now siblings.now) }
{
    let mut gifts = Vec::with_capacity(alloc, siblings.len())?;
    for sibling in siblings {
        let gift = gift_below(alloc, prefix, *sibling)?;
        gifts.push(gift)?;
    }
    Ok(gifts)
}

/// A child of a parent with this prefix.
fn gift_below(alloc: Global, prefix: &[u16], sibling: Sibling) -> Result<Gift, AllocError>
    ensures { IfOk result (λ gift. gift ≡ sibling_gift prefix.now sibling) }
{
    // (a copy for each guest, since its parent is at another site; the sum saturates, as no contract here bounds the
    // prefix)
    let mut whole = Vec::with_capacity(alloc, prefix.len().saturating_add(1))?;
    whole.extend_from_slice(prefix)?;
    whole.push(sibling.option)?;
    Ok(Gift {
        serial: sibling.serial,
        attempt: sibling.attempt,
        prefix: Numbers::from_vec(whole),
    })
}
