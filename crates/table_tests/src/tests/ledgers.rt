//! Ledgers of several units, as scripts of calls; what is expected is worked out by hand from the rules.

ghost use Rattle.std.specs.Prelude.{◌≡◌, ◌≤◌, IsSome, true};
ghost use Rattle.std.specs.List.{AllByRecursion};
ghost use Rattle.spawn_frame.specs.Frames.{frame, frame_result};
ghost use Rattle.spawn_frame.specs.Picks.{is_split};
ghost use Rattle.spawn_frame.specs.Tables.{has_status};
ghost use Rattle.spawn_frame.specs.Units.{unit_of};
ghost use Rattle.steal_return.specs.Shares.{gifts_of};

use super::units::{
    Came, HERE, ROOT, has_come, is_here, is_result, letter, list, may_end, result_of,
};
use abort_tree::Out;
use spawn_frame::Cause::{Aborted, Superseded, Unknown};
use spawn_frame::Heard::{Open, Settled};
use spawn_frame::Unit::{Guest, Own};
use spawn_frame::{
    Cause, ChildName, Gift, Heard, Job, Sibling, Siblings, Site, Status, Table, Unit,
};
use std::alloc::{AllocError, Global};
use std::process::Abort;
use steal_return::*;

/// A child that a thief is given: its serial, its attempt and its prefix.
type Told = (u32, u32, &'static [u16]);

/// A call of a ledger with what it answers, or what the ledger shows then.
enum Step {
    /// A child is given to this site, at the first attempt with the prefix [7]; whether it becomes a guest.
    Receive(ChildName, bool),
    /// Two children are given to this site together, at the first attempt with the prefixes [7, 8] and [7, 9]; whether
    /// any becomes a guest.
    ReceiveBoth(Site, [u32; 2], bool),
    /// The unit that is taken up, at its first attempt.
    Take(Unit),
    /// A unit is split by these options; the first child's serial.
    Split(Unit, &'static [u16], u32),
    /// A unit comes to this; what its frame says then.
    End(Unit, Came, Heard),
    /// A thief is given these: one by itself, several together; or nothing.
    Give(Site, &'static [Told]),
    /// An own child is redone.
    Redo(u32, Result<(), RedoFault>),
    /// A site returns a serial, an attempt and a result: the result that is accepted, or why it is refused.
    Return(Site, (u32, u32, Came), Result<Came, Cause>),
    /// A node says which incarnation it is.
    Hello(Site, Result<(), LearnFault>),
    /// Incarnations are learnt; whether anything changes.
    Learn(&'static [u32], bool),
    /// A guest's owner accepts this result; whether the guest settles.
    Accept(ChildName, Came, bool),
    /// A guest's owner refuses its result, or aborts it; whether it is dropped.
    Refuse(ChildName, bool),
    /// A settled frame finishes.
    Finish(Unit),
    /// A letter for the status of each own child, by serial, and its attempt.
    Children(&'static str),
    /// The same of one unit.
    Shows(Unit, &'static str),
    /// A unit has come to this.
    HasCome(Unit, Came),
    /// All that the aborts of the script reached.
    Outs(&'static [Out]),
    /// The known incarnation of a node.
    Known(u8, u32),
}

use self::Step::*;

const NODE_1: Site = Site {
    node: 1,
    incarnation: 1,
};

const NODE_2: Site = Site {
    node: 2,
    incarnation: 1,
};

const NODE_3: Site = Site {
    node: 3,
    incarnation: 1,
};

/// Later incarnations of the nodes.
const NODE_1_ANEW: Site = Site {
    node: 1,
    incarnation: 2,
};

const NODE_2_ANEW: Site = Site {
    node: 2,
    incarnation: 2,
};

const NODE_3_ANEW: Site = Site {
    node: 3,
    incarnation: 2,
};

/// Children of the other nodes.
const OF_2: ChildName = ChildName {
    site: NODE_2,
    serial: 0,
};

const LATER_OF_2: ChildName = ChildName {
    site: NODE_2,
    serial: 7,
};

const LAST_OF_2: ChildName = ChildName {
    site: NODE_2,
    serial: 9,
};

const OF_3: ChildName = ChildName {
    site: NODE_3,
    serial: 5,
};

/// The child of node 2 behind its first.
const NEXT_OF_2: ChildName = ChildName {
    site: NODE_2,
    serial: 1,
};

/// A letter for a unit's status, and its attempt.
fn told(alloc: Global, table: &Table, unit: Unit) -> Result<String, AllocError> {
    match table.unit(unit) {
        Some(view) => {
            let letter = letter(view.status);
            format!(in alloc; "{letter}{}", view.attempt)
        }
        None => format!(in alloc; "none"),
    }
}

/// Whether the table says this of a unit.
fn shows<R: Abort>(rt: &R, alloc: Global, table: &Table, unit: Unit, expected: &str) -> bool {
    told(alloc, table, unit).expect(rt, "memory").as_str() == expected
}

/// Whether the table says this of the own children, one after another.
fn shows_children<R: Abort>(rt: &R, alloc: Global, table: &Table, expected: &str) -> bool {
    let mut text = String::new(alloc);
    for serial in 0..table.issued() {
        let child = told(alloc, table, Own(serial)).expect(rt, "memory");
        text.push_str(child.as_str()).expect(rt, "memory");
    }
    text.as_str() == expected
}

/// Whether a unit, which is here, is split so.
fn splits<R: Abort>(rt: &R, ledger: &mut Ledger, unit: Unit, options: &[u16], first: u32) -> bool {
    assert!(rt; is_here(ledger.table(), unit));
    assert!(rt; !options.is_empty());
    ledger.spawn(unit, options) == Ok(first)
}

/// What the frame says of a unit, which is worked on, once it comes to this.
fn ended<R: Abort>(rt: &R, alloc: Global, ledger: &mut Ledger, unit: Unit, option: Came) -> Heard {
    let result = result_of(rt, alloc, option);
    assert!(rt; may_end(ledger.table(), unit));
    ledger.set_result(unit, result)
}

/// Whether it is this child.
fn is_gift(gift: &Gift, (serial, attempt, prefix): Told) -> bool {
    gift.serial == serial && gift.attempt == attempt && gift.prefix.as_slice() == prefix
}

/// Whether these children are given, one by itself and several together.
fn is_given<R: Abort>(rt: &R, alloc: Global, given: Given, expected: &[Told]) -> bool {
    let alone = matches!(given, Given::One(_));
    let gifts = given.into_gifts(alloc).expect(rt, "memory");
    for (gift, told) in gifts.iter().zip(expected) {
        if !is_gift(gift, *told) {
            return false;
        }
    }
    gifts.len() == expected.len() && alone == (expected.len() == 1)
}

/// Whether a thief is given these.
fn gives<R: Abort>(
    rt: &R,
    alloc: Global,
    ledger: &mut Ledger,
    thief: Site,
    expected: &[Told],
) -> bool {
    match ledger.give(thief).expect(rt, "memory") {
        Some(given) => is_given(rt, alloc, given, expected),
        None => expected.is_empty(),
    }
}

/// A child by itself, at the first attempt with the prefix [7].
fn one<R: Abort>(rt: &R, alloc: Global, serial: u32) -> Given
    ensures { AllByRecursion (λ g. 1 ≤ g.attempt) (gifts_of result) }
{
    let prefix = list(rt, alloc, &[7]);
    Given::One(Gift {
        serial,
        attempt: 1,
        prefix,
    })
}

/// Two children of a parent with the prefix [7], at the first attempt with the options 8 and 9.
fn both<R: Abort>(rt: &R, alloc: Global, serials: [u32; 2]) -> Given
    ensures { AllByRecursion (λ g. 1 ≤ g.attempt) (gifts_of result) }
{
    let [first, second] = serials;
    let child = |serial: u32, option: u16| Sibling {
        serial,
        attempt: 1,
        option,
    };
    let siblings = vec![in alloc; child(first, 8), child(second, 9)].expect(rt, "memory");
    Given::Several {
        prefix: list(rt, alloc, &[7]),
        siblings: Siblings::from_vec(siblings),
    }
}

/// Whether this is answered.
fn is_answer(reply: &ReturnReply, answer: Result<Came, Cause>) -> bool {
    match (reply, answer) {
        (ReturnReply::Accept(result), Ok(came)) => is_result(result, came),
        (ReturnReply::Refuse(cause), Err(expected)) => *cause == expected,
        _ => false,
    }
}

/// What is answered to a result that a site returns.
fn replied<R: Abort>(
    rt: &R,
    alloc: Global,
    ledger: &mut Ledger,
    from: Site,
    (serial, attempt, option): (u32, u32, Came),
) -> ReturnReply {
    let result = result_of(rt, alloc, option);
    ledger
        .receive_return(from, serial, attempt, &result)
        .expect(rt, "memory")
}

/// Whether it is a frame that is settled.
fn is_settled(table: &Table, unit: Unit) -> bool
    ensures split { result ≡ true → has_status is_split (unit_of table.now unit) ≡ true }
    ensures settled { result ≡ true → IsSome (frame_result (frame unit table.now.own)) }
{
    match table.unit(unit) {
        Some(view) => matches!(view.status, Status::Split) && table.heard(unit) == Settled,
        None => false,
    }
}

/// Whether a frame, which is settled, finishes.
fn finishes<R: Abort>(rt: &R, ledger: &mut Ledger, unit: Unit, outs: &mut Vec<Out>) -> bool {
    assert!(rt; is_settled(ledger.table(), unit));
    ledger.finish(unit, outs).is_ok()
}

/// What is answered where one of the nodes says which incarnation it is.
fn greeted<R: Abort>(rt: &R, ledger: &mut Ledger, from: Site) -> Result<(), LearnFault> {
    assert!(rt; from.node <= ledger.nodes());
    ledger.learn_hello(from)
}

/// Whether this is the known incarnation of a node.
fn knows(ledger: &Ledger, node: u8, incarnation: u32) -> bool {
    node <= ledger.nodes() && ledger.known(node) == incarnation
}

/// Whether the ledger shows what a step says.
fn is_shown<R: Abort>(rt: &R, alloc: Global, ledger: &Ledger, outs: &[Out], step: &Step) -> bool {
    match *step {
        Children(expected) => shows_children(rt, alloc, ledger.table(), expected),
        Shows(unit, expected) => shows(rt, alloc, ledger.table(), unit, expected),
        HasCome(unit, came) => has_come(ledger.table(), unit, came),
        Outs(expected) => outs == expected,
        Known(node, incarnation) => knows(ledger, node, incarnation),
        _ => false,
    }
}

/// Whether a step of one unit, own or given away, goes as it says; else the ledger is to show what it says.
fn is_done<R: Abort>(
    rt: &R,
    alloc: Global,
    ledger: &mut Ledger,
    outs: &mut Vec<Out>,
    step: &Step,
) -> bool {
    match *step {
        Take(unit) => ledger.take() == Some(Job { unit, attempt: 1 }),
        Split(unit, options, first) => splits(rt, ledger, unit, options, first),
        End(unit, came, heard) => ended(rt, alloc, ledger, unit, came) == heard,
        Finish(unit) => finishes(rt, ledger, unit, outs),
        Give(thief, given) => gives(rt, alloc, ledger, thief, given),
        Redo(serial, answer) => ledger.redo(serial) == answer,
        Hello(from, answer) => greeted(rt, ledger, from) == answer,
        _ => is_shown(rt, alloc, ledger, outs, step),
    }
}

/// Whether a step goes as it says.
fn goes<R: Abort>(
    rt: &R,
    alloc: Global,
    ledger: &mut Ledger,
    outs: &mut Vec<Out>,
    step: &Step,
) -> bool {
    match *step {
        Receive(ChildName { site, serial }, is_new) => {
            ledger.receive_give(site, one(rt, alloc, serial)) == Ok(is_new)
        }
        ReceiveBoth(site, serials, is_new) => {
            ledger.receive_give(site, both(rt, alloc, serials)) == Ok(is_new)
        }
        Return(from, child, answer) => is_answer(&replied(rt, alloc, ledger, from, child), answer),
        Learn(incarnations, moves) => ledger.learn_members(incarnations, outs) == Ok(moves),
        Accept(ChildName { site, serial }, option, settles) => {
            ledger.receive_accept(site, serial, 1, result_of(rt, alloc, option)) == settles
        }
        Refuse(ChildName { site, serial }, drops) => {
            ledger.receive_refuse(site, serial, 1, outs) == Ok(drops)
        }
        _ => is_done(rt, alloc, ledger, outs, step),
    }
}

/// Takes these steps, one after another.
fn run<R: Abort>(rt: &R, alloc: Global, mut ledger: Ledger, steps: &[Step]) {
    let mut outs = Vec::new(alloc);
    for (place, step) in steps.iter().enumerate() {
        assert!(rt;
            goes(rt, alloc, &mut ledger, &mut outs, step),
            "step {place}"
        );
    }
}

/// Takes these steps in a ledger of the first of three nodes.
fn run_node<R: Abort>(rt: &R, alloc: Global, steps: &[Step]) {
    let ledger = Ledger::start(alloc, HERE, 3, 20).expect(rt, "memory");
    run(rt, alloc, ledger, steps);
}

/// Takes these steps in the registry's ledger, over two nodes.
fn run_registry<R: Abort>(rt: &R, alloc: Global, steps: &[Step]) {
    let ledger = Ledger::with_root(alloc, 2).expect(rt, "memory");
    assert!(rt; ledger.nodes() == 2);
    run(rt, alloc, ledger, steps);
}

static RETURNS: &[Step] = &[
    // Own children of every status: 0 and 1 aborted, 2 out to node 2, 3 out to node 3 at the second attempt, 4 ready,
    // 5 done with Empty, 6 done with a cover, 7 here, 8 split, 9 here.
    Receive(OF_3, true),
    Take(Guest(OF_3, 1)),
    Split(Guest(OF_3, 1), &[20, 21], 0),
    Refuse(OF_3, true),
    Receive(ROOT, true),
    Take(Guest(ROOT, 1)),
    Split(Guest(ROOT, 1), &[0, 1, 2, 3, 4, 5, 6], 2),
    Take(Own(8)),
    Split(Own(8), &[10], 9),
    Take(Own(9)),
    Take(Own(7)),
    Take(Own(6)),
    Take(Own(5)),
    End(Own(6), Some(9), Settled),
    End(Own(5), None, Settled),
    Give(NODE_2, &[(2, 1, &[7, 0]), (3, 1, &[7, 1])]),
    Redo(3, Ok(())),
    Give(NODE_3, &[(3, 2, &[7, 1])]),
    Children("A1A1O1O2R1D1D1H1S1H1"),
    // A Return for each.
    Return(NODE_2, (10, 1, None), Err(Unknown)),
    Return(NODE_2, (0, 1, Some(3)), Err(Aborted)),
    Return(NODE_2, (0, 2, Some(3)), Err(Unknown)),
    Return(NODE_2, (4, 1, None), Err(Superseded)),
    Return(NODE_2, (4, 2, None), Err(Unknown)),
    Return(NODE_2, (7, 1, None), Err(Superseded)),
    Return(NODE_2, (7, 2, None), Err(Unknown)),
    Return(NODE_2, (8, 1, Some(3)), Err(Superseded)),
    Return(NODE_2, (8, 2, Some(3)), Err(Unknown)),
    Return(NODE_2, (6, 1, None), Ok(Some(9))),
    Return(NODE_3_ANEW, (6, 1, Some(3)), Ok(Some(9))),
    Return(NODE_2, (6, 2, Some(9)), Err(Unknown)),
    Return(NODE_2, (5, 1, Some(3)), Ok(None)),
    Return(NODE_2, (5, 2, None), Err(Unknown)),
    Return(NODE_3, (3, 1, Some(3)), Err(Superseded)),
    Return(NODE_2, (3, 1, None), Err(Superseded)),
    Return(NODE_2, (3, 2, None), Err(Superseded)),
    Return(NODE_3_ANEW, (3, 2, None), Err(Superseded)),
    Return(NODE_3, (3, 3, Some(7)), Err(Unknown)),
    Return(NODE_3, (3, 2, Some(7)), Ok(Some(7))),
    Return(NODE_3, (3, 1, None), Ok(Some(7))),
    Return(NODE_2, (2, 1, None), Ok(None)),
    Return(NODE_2, (2, 1, Some(7)), Ok(None)),
    Children("A1A1D1D2R1D1D1H1S1H1"),
];

#[test]
fn returns_meet_every_status(rt: HostRuntime) {
    run_node(&rt, rt.alloc(), RETURNS);
}

/// The ready child of least serial is given, wherever it stands among children that aren't ready, with those of its
/// parent that go with it, and no other is out then.
static LEAST_GIVEN: &[Step] = &[
    Receive(OF_3, true),
    Receive(ROOT, true),
    // The children 0 to 2 of the root, then 3 to 5 of its last, then 6 to 8 of the guest of node 3.
    Take(Guest(ROOT, 1)),
    Split(Guest(ROOT, 1), &[0, 1, 2], 0),
    Give(NODE_3, &[(0, 1, &[7, 0]), (1, 1, &[7, 1])]),
    Take(Own(2)),
    Split(Own(2), &[3, 4, 5], 3),
    Children("O1O1S1R1R1R1"),
    Return(NODE_2, (0, 1, None), Err(Superseded)),
    Return(NODE_2, (2, 1, None), Err(Superseded)),
    Return(NODE_2, (3, 1, None), Err(Superseded)),
    Return(NODE_3, (1, 1, None), Ok(None)),
    // Behind one that is out, one that is done and one that is split.
    Give(NODE_2, &[(3, 1, &[7, 2, 3]), (4, 1, &[7, 2, 4])]),
    Children("O1D1S1O1O1R1"),
    Return(NODE_2, (0, 1, Some(8)), Err(Superseded)),
    Return(NODE_2, (5, 1, Some(8)), Err(Superseded)),
    Take(Own(5)),
    Take(Guest(OF_3, 1)),
    Split(Guest(OF_3, 1), &[0, 1, 2], 6),
    Children("O1D1S1O1O1H1R1R1R1"),
    // A child that is redone is ready before the others, and goes alone: they have another parent.
    Redo(4, Ok(())),
    Give(NODE_3, &[(4, 2, &[7, 2, 4])]),
    Return(NODE_3, (3, 1, None), Err(Superseded)),
    // Behind children of all these, and one that is here.
    Give(NODE_2, &[(6, 1, &[7, 0]), (7, 1, &[7, 1])]),
    Children("O1D1S1O1O2H1O1O1R1"),
    Return(NODE_2, (5, 1, None), Err(Superseded)),
    Return(NODE_2, (8, 1, None), Err(Superseded)),
    Return(NODE_2, (6, 1, None), Ok(None)),
    // Of two that are ready one is given, then the other, and then there is none.
    Redo(7, Ok(())),
    Give(NODE_3, &[(7, 2, &[7, 1])]),
    Give(NODE_3, &[(8, 1, &[7, 2])]),
    Give(NODE_3, &[]),
    Children("O1D1S1O1O2H1D1O2O1"),
];

#[test]
fn the_least_ready_child_is_given(rt: HostRuntime) {
    run_node(&rt, rt.alloc(), LEAST_GIVEN);
}

/// A thief gets half of the ready children of one parent, rounded up, and eight at most.
static SHARES: &[Step] = &[
    Receive(ROOT, true),
    Take(Guest(ROOT, 1)),
    Split(
        Guest(ROOT, 1),
        &[0, 1, 2, 3, 4, 5, 6, 7, 8, 9, 10, 11, 12, 13, 14, 15, 16],
        0,
    ),
    Give(
        NODE_2,
        &[
            (0, 1, &[7, 0]),
            (1, 1, &[7, 1]),
            (2, 1, &[7, 2]),
            (3, 1, &[7, 3]),
            (4, 1, &[7, 4]),
            (5, 1, &[7, 5]),
            (6, 1, &[7, 6]),
            (7, 1, &[7, 7]),
        ],
    ),
    Children("O1O1O1O1O1O1O1O1R1R1R1R1R1R1R1R1R1"),
    Give(
        NODE_3,
        &[
            (8, 1, &[7, 8]),
            (9, 1, &[7, 9]),
            (10, 1, &[7, 10]),
            (11, 1, &[7, 11]),
            (12, 1, &[7, 12]),
        ],
    ),
    Give(NODE_2, &[(13, 1, &[7, 13]), (14, 1, &[7, 14])]),
    // Those that are ready need not follow one another.
    Redo(3, Ok(())),
    Give(NODE_3, &[(3, 2, &[7, 3]), (15, 1, &[7, 15])]),
    Give(NODE_3, &[(16, 1, &[7, 16])]),
    Give(NODE_3, &[]),
    Children("O1O1O1O2O1O1O1O1O1O1O1O1O1O1O1O1O1"),
    // Each comes back by itself.
    Return(NODE_2, (3, 1, None), Err(Superseded)),
    Return(NODE_3, (3, 2, None), Ok(None)),
    Return(NODE_2, (4, 1, None), Ok(None)),
    Children("O1O1O1D2D1O1O1O1O1O1O1O1O1O1O1O1O1"),
];

#[test]
fn a_thief_gets_half_of_the_ready_siblings(rt: HostRuntime) {
    run_node(&rt, rt.alloc(), SHARES);
}

/// Of children that come together those become guests that aren't there yet.
static TOGETHER: &[Step] = &[
    Receive(OF_2, true),
    ReceiveBoth(NODE_2, [0, 1], true),
    ReceiveBoth(NODE_2, [0, 1], false),
    Shows(Guest(OF_2, 1), "R1"),
    Shows(Guest(NEXT_OF_2, 1), "R1"),
    // Each has its own prefix: the first that with which it came at first.
    Take(Guest(OF_2, 1)),
    Split(Guest(OF_2, 1), &[5], 0),
    Give(NODE_3, &[(0, 1, &[7, 5])]),
    Take(Guest(NEXT_OF_2, 1)),
    Split(Guest(NEXT_OF_2, 1), &[5], 1),
    Give(NODE_3, &[(1, 1, &[7, 9, 5])]),
    // Each is dropped by itself, and stays there.
    Refuse(NEXT_OF_2, true),
    ReceiveBoth(NODE_2, [0, 1], false),
    Shows(Guest(OF_2, 1), "S1"),
    Shows(Guest(NEXT_OF_2, 1), "X1"),
    // Both are new of another node, and of an earlier incarnation neither comes.
    ReceiveBoth(NODE_3, [4, 5], true),
    Receive(OF_3, false),
    Learn(&[1, 2, 1], true),
    ReceiveBoth(NODE_2, [8, 9], false),
    Shows(Guest(LAST_OF_2, 1), "none"),
];

#[test]
fn children_come_together_and_go_by_themselves(rt: HostRuntime) {
    run_node(&rt, rt.alloc(), TOGETHER);
}

static MEMBERS: &[Step] = &[
    // Below a guest of node 2: 0 and 1 out to node 3, 2 out to node 2. Below the root: 3 out to node 2, 4 out to node
    // 3. Another guest of node 2 is ready.
    Receive(OF_2, true),
    Take(Guest(OF_2, 1)),
    Split(Guest(OF_2, 1), &[2, 3, 4], 0),
    Give(NODE_3, &[(0, 1, &[7, 2]), (1, 1, &[7, 3])]),
    Give(NODE_2, &[(2, 1, &[7, 4])]),
    Receive(ROOT, true),
    Take(Guest(ROOT, 1)),
    Split(Guest(ROOT, 1), &[5, 6], 3),
    Give(NODE_2, &[(3, 1, &[7, 5])]),
    Give(NODE_3, &[(4, 1, &[7, 6])]),
    Receive(LATER_OF_2, true),
    // Known members change nothing, nor do the own node's and those beyond the nodes that there are.
    Learn(&[9, 1, 1, 5], false),
    Outs(&[]),
    Children("O1O1O1O1O1"),
    // Node 2 restarted: what is out to it is redone, its guests are dropped, and what is below them is aborted.
    Learn(&[1, 2, 1], true),
    Children("A1A1A2R2O1"),
    Outs(OUT_TO_3),
    Shows(Guest(OF_2, 1), "X1"),
    Shows(Guest(LATER_OF_2, 1), "X1"),
    Shows(Guest(ROOT, 1), "S1"),
    // The greater incarnation is known from then on.
    Learn(&[1, 2, 1], false),
    Outs(OUT_TO_3),
    Known(1, 1),
    Known(2, 2),
    Known(3, 1),
    // An earlier incarnation gets and gives nothing, and a guest comes once.
    Give(NODE_2, &[]),
    Give(NODE_2_ANEW, &[(3, 2, &[7, 5])]),
    Receive(LAST_OF_2, false),
    Shows(Guest(LAST_OF_2, 1), "none"),
    Receive(ROOT, false),
];

/// The first two children of the guest of node 2.
const OUT_TO_3: &[Out] = &[
    Out {
        serial: 0,
        attempt: 1,
        thief: NODE_3,
    },
    Out {
        serial: 1,
        attempt: 1,
        thief: NODE_3,
    },
];

#[test]
fn members_redo_drop_and_abort(rt: HostRuntime) {
    run_node(&rt, rt.alloc(), MEMBERS);
}

/// The first two children, out to node 2.
const OUT_TO_2: &[Out] = &[
    Out {
        serial: 0,
        attempt: 1,
        thief: NODE_2,
    },
    Out {
        serial: 1,
        attempt: 1,
        thief: NODE_2,
    },
];

static FINISHED: &[Step] = &[
    Receive(ROOT, true),
    Take(Guest(ROOT, 1)),
    Split(Guest(ROOT, 1), &[0, 1, 2, 3], 0),
    Give(NODE_2, &[(0, 1, &[7, 0]), (1, 1, &[7, 1])]),
    Take(Own(3)),
    End(Own(3), Some(4), Settled),
    Finish(Guest(ROOT, 1)),
    Children("A1A1A1D1"),
    Outs(OUT_TO_2),
    Shows(Guest(ROOT, 1), "F1"),
    HasCome(Guest(ROOT, 1), Some(4)),
    // It settles once, on what its owner accepted.
    Accept(ROOT, Some(5), true),
    Accept(ROOT, None, false),
    Refuse(ROOT, false),
    Shows(Guest(ROOT, 1), "T1"),
    HasCome(Guest(ROOT, 1), Some(5)),
    Outs(OUT_TO_2),
];

#[test]
fn a_frame_finishes_and_settles_once(rt: HostRuntime) {
    run_node(&rt, rt.alloc(), FINISHED);
}

static EMPTIES: &[Step] = &[
    Receive(ROOT, true),
    Take(Guest(ROOT, 1)),
    Split(Guest(ROOT, 1), &[0, 1], 0),
    Take(Own(1)),
    End(Own(1), None, Open),
    Give(NODE_2, &[(0, 1, &[7, 0])]),
    Return(NODE_2, (0, 1, None), Ok(None)),
    Finish(Guest(ROOT, 1)),
    Children("D1D1"),
    Outs(&[]),
    Shows(Guest(ROOT, 1), "F1"),
    HasCome(Guest(ROOT, 1), None),
];

#[test]
fn a_frame_of_empties_finishes_as_empty(rt: HostRuntime) {
    run_node(&rt, rt.alloc(), EMPTIES);
}

static REFUSED: &[Step] = &[
    Receive(ROOT, true),
    Take(Guest(ROOT, 1)),
    Split(Guest(ROOT, 1), &[0, 1, 2, 3], 0),
    Give(NODE_2, &[(0, 1, &[7, 0]), (1, 1, &[7, 1])]),
    Take(Own(3)),
    Refuse(ROOT, true),
    Children("A1A1A1A1"),
    Outs(OUT_TO_2),
    Shows(Guest(ROOT, 1), "X1"),
    Refuse(ROOT, false),
    Outs(OUT_TO_2),
];

#[test]
fn an_abort_lists_what_is_out_below(rt: HostRuntime) {
    run_node(&rt, rt.alloc(), REFUSED);
}

static ROOT_RETURNS: &[Step] = &[
    Give(NODE_1, &[(0, 1, &[])]),
    Give(NODE_1, &[]),
    Return(NODE_1, (0, 2, None), Err(Unknown)),
    Return(NODE_2, (0, 1, None), Err(Superseded)),
    Return(NODE_1, (0, 1, None), Ok(None)),
    Return(NODE_1, (0, 1, Some(7)), Ok(None)),
];

#[test]
fn the_root_is_given_and_returned(rt: HostRuntime) {
    run_registry(&rt, rt.alloc(), ROOT_RETURNS);
}

static ROOT_REDONE: &[Step] = &[
    Redo(0, Err(RedoFault::NotOut)),
    Give(NODE_1, &[(0, 1, &[])]),
    Redo(0, Ok(())),
    Return(NODE_1, (0, 1, None), Err(Superseded)),
    Redo(0, Err(RedoFault::NotOut)),
    Redo(1, Err(RedoFault::NotOut)),
    Give(NODE_1, &[(0, 2, &[])]),
];

#[test]
fn a_root_that_is_redone_takes_no_earlier_result(rt: HostRuntime) {
    run_registry(&rt, rt.alloc(), ROOT_REDONE);
}

static ROOT_LOST: &[Step] = &[
    Give(NODE_1, &[(0, 1, &[])]),
    Learn(&[1, 1], false),
    Learn(&[2, 1], true),
    Children("R2"),
    Outs(&[]),
    Known(0, 1),
    Known(1, 2),
    Known(2, 1),
    Give(NODE_1, &[]),
    Give(NODE_1_ANEW, &[(0, 2, &[])]),
    Return(NODE_1, (0, 1, Some(7)), Err(Superseded)),
    Return(NODE_1_ANEW, (0, 2, Some(7)), Ok(Some(7))),
];

#[test]
fn the_root_is_redone_once_its_thief_began_anew(rt: HostRuntime) {
    run_registry(&rt, rt.alloc(), ROOT_LOST);
}

static ROOT_GREETED: &[Step] = &[
    Give(NODE_1, &[(0, 1, &[])]),
    // The thief's own incarnation, and a later one of another node, redo nothing.
    Hello(NODE_1, Ok(())),
    Hello(NODE_2_ANEW, Ok(())),
    Children("O1"),
    Known(1, 1),
    Known(2, 2),
    Hello(NODE_1_ANEW, Ok(())),
    Children("R2"),
    Known(1, 2),
    Give(NODE_1, &[]),
    Give(NODE_1_ANEW, &[(0, 2, &[])]),
    // An earlier incarnation that is heard of late is passed over.
    Hello(NODE_1, Ok(())),
    Children("O2"),
    Known(1, 2),
    Known(2, 2),
];

#[test]
fn the_root_is_redone_once_its_thief_greets_anew(rt: HostRuntime) {
    run_registry(&rt, rt.alloc(), ROOT_GREETED);
}
