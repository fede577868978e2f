//! Too little room, once cliques have items.

ghost use Rattle.std.specs.Prelude.{◌≡◌, [], true, None, IfOk, IfSome};
ghost use Rattle.cover_problem.specs.Prefix.{IsBarren};
ghost use Rattle.cover_problem.specs.Search.{first};
ghost use Rattle.cover_reasons.specs.Room.{is_too_little};
ghost use Rattle.clash_cliques.specs.Cliques.{IsWithCliques};

use crate::clique::Clique;
use crate::growing::find_cliques;
use crate::making::with_cliques_until;
use cover_problem::Problem;
use cover_reasons::{ReasonWatch, Room, find_room_until, lack_of_room_excludes_covers};
use std::alloc::{AllocError, Global};
use used_items::same_covers_have_the_same_none;

/// Room that is too little for an exact cover of a problem with items for cliques.
#[derive(Debug, Drop)]
pub struct RoomByCliques {
    /// The cliques, in the order of their items.
    pub cliques: Vec<Clique>,
    /// The problem with their items behind its own.
    pub problem: Problem,
    /// What is needed and the room for it, by the items of that problem.
    pub room: Room,
}

/// Room that is too little once these cliques have items, if it is found before the watch ends that.
fn room_by<W: ReasonWatch>(
    alloc: Global,
    problem: &Problem,
    cliques: Vec<Clique>,
    watch: &mut W,
) -> Result<Option<RoomByCliques>, AllocError>
    ensures { IfOk result (λ found. IfSome found (λ by.
        IsWithCliques problem.now by.cliques.items by.problem
        × (is_too_little by.problem by.room ≡ true))) }
{
    let Some(made) = with_cliques_until(alloc, problem, &cliques, watch)? else {
        return Ok(None);
    };
    match find_room_until(alloc, &made, watch)? {
        Some(room) => Ok(Some(RoomByCliques {
            cliques,
            problem: made,
            room,
        })),
        None => Ok(None),
    }
}

/// Those of some cliques whose items have room, where these are the ones behind so many others.
fn with_room(
    alloc: Global,
    items: usize,
    cliques: &[Clique],
    room: &Room,
) -> Result<Vec<Clique>, AllocError> {
    let mut counted = Vec::new(alloc);
    for (place, clique) in cliques.iter().enumerate() {
        if let Some(amount) = room.rooms().get(items.saturating_add(place))
            && *amount != 0
        {
            counted.push(clique.copy()?)?;
        }
    }
    Ok(counted)
}

/// The same by fewer cliques, only those that count, if that is found, too.
fn by_fewer<W: ReasonWatch>(
    alloc: Global,
    problem: &Problem,
    found: RoomByCliques,
    watch: &mut W,
) -> Result<Option<RoomByCliques>, AllocError>
    requires cliques { IsWithCliques problem.now found.cliques.items found.problem }
    requires room { is_too_little found.problem found.room ≡ true }
    ensures { IfOk result (λ found. IfSome found (λ by.
        IsWithCliques problem.now by.cliques.items by.problem
        × (is_too_little by.problem by.room ≡ true))) }
{
    let fewer = with_room(alloc, problem.items(), &found.cliques, &found.room)?;
    match room_by(alloc, problem, fewer, watch)? {
        Some(less) => Ok(Some(less)),
        None => Ok(Some(found)),
    }
}

/// The same without the laws.
fn search_room<W: ReasonWatch>(
    alloc: Global,
    problem: &Problem,
    watch: &mut W,
) -> Result<Option<RoomByCliques>, AllocError>
    ensures { IfOk result (λ found. IfSome found (λ by.
        IsWithCliques problem.now by.cliques.items by.problem
        × (is_too_little by.problem by.room ≡ true))) }
{
    let cliques = find_cliques(alloc, problem, watch)?;
    if cliques.is_empty() || watch.look() {
        return Ok(None);
    }
    match room_by(alloc, problem, cliques, watch)? {
        Some(found) => by_fewer(alloc, problem, found, watch),
        None => Ok(None),
    }
}

/// Room that is too little for an exact cover, once cliques have items that are found before the watch ends that. Then
/// there is no exact cover of the problem itself.
///
/// Where none is found there may be a cover or none. The watch is asked before each clique is grown, before each one
/// has its item, and as often as where room is looked for. The only error is out of memory.
#[tactic(auto, using(crate::proofs::Several::barren_too))]
pub fn find_room_by_cliques<W: ReasonWatch>(
    alloc: Global,
    problem: &Problem,
    watch: &mut W,
) -> Result<Option<RoomByCliques>, AllocError>
    ensures cliques { IfOk result (λ found. IfSome found (λ by.
        IsWithCliques problem.now by.cliques.items by.problem)) }
    ensures room { IfOk result (λ found. IfSome found (λ by.
        is_too_little by.problem by.room ≡ true)) }
    ensures barren { IfOk result (λ found. IfSome found (λ by. IsBarren problem.now [])) }
    ensures none { IfOk result (λ found. IfSome found (λ by. first problem.now [] ≡ None)) }
{
    lack_of_room_excludes_covers();
    same_covers_have_the_same_none();
    match search_room(alloc, problem, watch)? {
        Some(found) => {
            found.problem.recall_rules();
            Ok(Some(found))
        }
        None => Ok(None),
    }
}
