//! Which column and which option each node belongs to, which colour it has, and the two lines by which it leaves its
//! column and comes back.

ghost use Rattle.std.specs.Prelude.{◌≡◌, ◌==◌, ◌<◌, ◌≤◌, ◌+◌, ◌++◌, length, map, replicate, slice_index, IfOk};
ghost use Rattle.std.specs.List.{range_with_len, concat, All};
ghost use Rattle.dancing_links.specs.Columns.{column_of, colour_at, option_of, place_at, IsLinked, IsTable};
ghost use Rattle.dancing_links.specs.Covering.{has_colour};
ghost use Rattle.dancing_links.specs.Linking.{down_of, up_of, unlinked, relinked};
ghost use Rattle.dancing_links.specs.Walking.{IsBelowIn};
ghost use Rattle.dancing_links.specs.Table.{table, column_list, colour_list, option_list, first_list, place_by, right_in, numbered};

use crate::link::Link;
use crate::place::Place;
use cover_problem::Problem;
use std::alloc::{AllocError, Global};
use std::marker::Model;

/// What never changes: the column, the colour and the option of each node, and where each option begins.
///
/// The heads of the columns come first: one for each item, and one for the column of items. Then come the nodes of the
/// items, the nodes of the options in file order, and the tails of the columns.
#[derive(Drop)]
pub struct Layout {
    /// What stands at each node: its right neighbour, its item and its colour.
    places: Vec<Place>,
    /// The option of each node; the number of options for a node that belongs to none.
    options: Vec<u16>,
    /// The first node of each option; then, twice, the first tail.
    first: Vec<u32>,
    heads: usize,
    tails: usize,
}

impl Model for Layout {
    ghost use Rattle.dancing_links.specs.Columns.{Columns, columns_by, IsTable};

    ghost Value = { Columns };

    ghost view = { λ l. columns_by l.heads l.tails l.places.items l.options.items l.first.items };

    ghost invariant = { λ l. IsTable
        (columns_by l.heads l.tails l.places.items l.options.items l.first.items) };
}

/// The layout of a problem; the only error is out of memory.
pub fn layout_of(alloc: Global, problem: &Problem) -> Result<Layout, AllocError>
    ensures { IfOk result (λ layout. layout ≡ table problem.now) }
{
    let heads = problem.items() + 1;
    let items = node_items(alloc, problem)?;
    let colours = node_colours(alloc, problem)?;
    let options = node_options(alloc, problem)?;
    let first = first_nodes(alloc, problem)?;
    let places = node_places(alloc, &items, &colours, &options, &first)?;
    let tails = items.len() - heads;
    Ok(Layout {
        places,
        options,
        first,
        heads,
        tails,
    })
}

/// The column of each node.
#[tactic(auto, unfolding(crate::specs::Table::column_list))]
fn node_items(alloc: Global, problem: &Problem) -> Result<Vec<u16>, AllocError>
    ensures { IfOk result (λ list. list.items ≡ column_list problem.now) }
{
    let items = problem.items() as u16;
    let mut list = Vec::new(alloc);
    push_range(&mut list, items + 1)?;
    push_copies(&mut list, items, items as usize)?;
    push_items(&mut list, problem)?;
    push_range(&mut list, items + 1)?;
    Ok(list)
}

/// The colour of each node.
#[tactic(auto, unfolding(crate::specs::Table::colour_list))]
fn node_colours(alloc: Global, problem: &Problem) -> Result<Vec<u16>, AllocError>
    ensures { IfOk result (λ list. list.items ≡ colour_list problem.now) }
{
    let items = problem.items();
    let mut list = Vec::new(alloc);
    push_copies(&mut list, 0, items + 1 + items)?;
    push_colours(&mut list, problem)?;
    push_copies(&mut list, 0, items + 1)?;
    Ok(list)
}

/// The option of each node.
#[tactic(auto, unfolding(crate::specs::Table::option_list))]
fn node_options(alloc: Global, problem: &Problem) -> Result<Vec<u16>, AllocError>
    ensures { IfOk result (λ list. list.items ≡ option_list problem.now) }
{
    let none = problem.options() as u16;
    let items = problem.items();
    let mut list = Vec::new(alloc);
    push_copies(&mut list, none, items + 1 + items)?;
    push_options(&mut list, problem)?;
    push_copies(&mut list, none, items + 1)?;
    Ok(list)
}

/// Appends the numbers below a bound.
#[tactic(auto, using(crate::proofs::Laid::range_push))]
fn push_range(list: &mut Vec<u16>, bound: u16) -> Result<(), AllocError>
    ensures { IfOk result (λ _. list.new.items ≡ list.old.items ++ range_with_len 0 bound) }
{
    for number in 0..bound {
        list.push(number)?;
    }
    Ok(())
}

/// Appends so many copies of a number.
#[tactic(auto, using(crate::proofs::Laid::copies_push))]
fn push_copies(list: &mut Vec<u16>, number: u16, count: usize) -> Result<(), AllocError>
    ensures { IfOk result (λ _. list.new.items ≡ list.old.items ++ replicate count number) }
{
    for _copy in 0..count {
        list.push(number)?;
    }
    Ok(())
}

/// Appends the items of each option.
#[tactic(auto, using(crate::proofs::Laid::items_push, crate::proofs::Laid::items_all_pushed))]
fn push_items(list: &mut Vec<u16>, problem: &Problem) -> Result<(), AllocError>
    ensures { IfOk result (λ _. list.new.items ≡ list.old.items ++ concat problem.now.options) }
{
    for option in 0..problem.options() as u16 {
        list.extend_from_slice(problem.option(option))?;
    }
    Ok(())
}

/// Appends the colours of each option's items.
#[tactic(auto, using(crate::proofs::Laid::items_push, crate::proofs::Laid::items_all_pushed))]
fn push_colours(list: &mut Vec<u16>, problem: &Problem) -> Result<(), AllocError>
    ensures { IfOk result (λ _. list.new.items ≡ list.old.items ++ concat problem.now.colours) }
{
    for option in 0..problem.options() as u16 {
        list.extend_from_slice(problem.colours(option))?;
    }
    Ok(())
}

/// Appends, for each item of each option, the number of the option.
#[tactic(auto, using(crate::proofs::Laid::options_push, crate::proofs::Laid::options_all_pushed))]
fn push_options(list: &mut Vec<u16>, problem: &Problem) -> Result<(), AllocError>
    ensures { IfOk result (λ _. list.new.items ≡ list.old.items ++ numbered 0 problem.now.options) }
{
    for option in 0..problem.options() as u16 {
        push_copies(list, option, problem.option(option).len())?;
    }
    Ok(())
}

/// Where each option begins, and where it ends.
#[tactic(auto, using(crate::proofs::Laid::first_push, crate::proofs::Laid::first_all_pushed, crate::proofs::Laid::left_next, crate::proofs::Laid::left_none), unfolding(crate::specs::Table::first_list))]
fn first_nodes(alloc: Global, problem: &Problem) -> Result<Vec<u32>, AllocError>
    ensures { IfOk result (λ list. list.items ≡ first_list problem.now) }
{
    let mut list = Vec::new(alloc);
    // (at most 200,000 nodes of options and 3,002 others, so 32 bits hold all numbers)
    let mut node = 2 * problem.items() + 1;
    for option in 0..problem.options() as u16 {
        list.push(node as u32)?;
        node += problem.option(option).len();
    }
    list.push(node as u32)?;
    list.push(node as u32)?;
    Ok(list)
}

/// The node to the right in a row, behind the last the first; in a row without a node a node stands alone.
fn right_in(begin: u32, end: u32, node: u32) -> u32
    requires { node + 1 < 4294967296 }
    ensures { result ≡ right_in begin end node }
{
    if begin == end {
        node
    } else if node + 1 == end {
        begin
    } else {
        node + 1
    }
}

/// What stands at each node, by the items, the colours and the options of the nodes and the first node of each option.
fn node_places(
    alloc: Global,
    items: &[u16],
    colours: &[u16],
    options: &[u16],
    first: &[u32],
) -> Result<Vec<Place>, AllocError>
    requires small { length items.now < 4294967296 }
    requires colours { length colours.now ≡ length items.now }
    requires options { length options.now ≡ length items.now }
    requires first { All (λ o. o + 1 < length first.now) options.now }
    ensures { IfOk result (λ places. places.items
        ≡ map (place_by items.now colours.now options.now first.now)
        (range_with_len 0 (length items.now))) }
{
    let mut places = Vec::new(alloc);
    for node in 0..items.len() {
        let option = options[node] as usize;
        let right = right_in(first[option], first[option + 1], node as u32);
        let item = items[node];
        let colour = colours[node];
        places.push(Place {
            right,
            item,
            colour,
        })?;
    }
    Ok(places)
}

impl Layout {
    /// How many heads there are.
    #[inline(always)]
    pub fn heads(&self) -> usize
        ensures heads { result ≡ self.now.heads }
        ensures table { IsTable self.now }
    {
        self.heads
    }

    /// What stands at each node.
    #[inline(always)]
    pub fn places(&self) -> &[Place]
        ensures places { result.now ≡ self.now.places }
        ensures table { IsTable self.now }
    {
        &self.places
    }

    /// The first tail.
    #[inline(always)]
    pub fn tails(&self) -> usize
        ensures tails { result ≡ self.now.tails }
        ensures table { IsTable self.now }
    {
        self.tails
    }

    /// The option of a node.
    #[inline(always)]
    pub fn option_at(&self, node: usize) -> u16
        requires { node < self.now.tails }
        ensures option { result ≡ option_of self.now node }
        ensures table { IsTable self.now }
    {
        self.options[node]
    }

    /// The item of a node of an option.
    pub fn item_at(&self, node: usize) -> usize
        requires node { (self.now.heads + self.now.heads ≤ node + 1) × (node < self.now.tails) }
        ensures item { result ≡ column_of self.now node }
        ensures table { IsTable self.now }
    {
        self.places[node].item as usize
    }

    /// The colour of a node of an option, 0 for none.
    pub fn colour_at(&self, node: usize) -> u16
        requires node { (self.now.heads + self.now.heads ≤ node + 1) × (node < self.now.tails) }
        ensures colour { result ≡ colour_at self.now node }
        ensures table { IsTable self.now }
    {
        self.places[node].colour
    }

    /// The nodes of an option: the first, and the one after the last.
    pub fn node_range(&self, option: u16) -> (usize, usize)
        requires { option + 1 < length self.now.first }
        ensures begin { result.0 ≡ slice_index self.now.first option }
        ensures end { result.1 ≡ slice_index self.now.first (option + 1) }
    {
        let option = option as usize;
        (self.first[option] as usize, self.first[option + 1] as usize)
    }

    /// The first node of a range that stands for an item below a bound, or the end of the range.
    pub fn node_below(&self, bound: usize, begin: usize, end: usize) -> usize
        requires range { (self.now.heads + self.now.heads ≤ begin + 1) × (begin ≤ end)
            × (end ≤ self.now.tails) }
        ensures { IsBelowIn self.now bound begin end result }
    {
        for node in begin..end {
            if self.item_at(node) < bound {
                return node;
            }
        }
        end
    }

    /// Whether the node above a node leads to it: so where it is in.
    pub fn is_known(&self, links: &[Link], node: usize) -> bool
        requires node { (self.now.heads ≤ node) × (node < self.now.tails) }
        requires linked { IsLinked self.now links.now }
        ensures { result ≡ (down_of links.now (up_of links.now node) == node) }
    {
        // (a look inside is what brings in the type's invariant)
        let _ = &self.places;
        let above = links[node].up as usize;
        links[above].down as usize == node
    }
}

/// A layout and what stands at its nodes, taken out of it once: a loop that writes links need not read it again from
/// memory.
///
/// Contracts see it as the layout.
#[derive(Drop)]
pub struct Rows<'a> {
    pub layout: &'a Layout,
    /// Those of the layout.
    pub places: &'a [Place],
}

impl<'a> Model for Rows<'a> {
    ghost use Rattle.std.specs.Prelude.{◌≡◌};
    ghost use Rattle.dancing_links.specs.Columns.{Columns, IsTable};

    ghost Value = { Columns };

    ghost view = { λ r. r.layout.now };

    ghost invariant = { λ r. (r.places.now ≡ r.layout.now.places) × IsTable r.layout.now };
}

impl<'a> Rows<'a> {
    ghost use Rattle.std.specs.Prelude.{◌≡◌, ◌<◌, ◌≤◌, ◌+◌};
    ghost use Rattle.dancing_links.specs.Columns.{column_of, place_at, IsLinked, IsTable};
    ghost use Rattle.dancing_links.specs.Covering.{has_colour};
    ghost use Rattle.dancing_links.specs.Linking.{unlinked, relinked};

    /// The node to the right of a node in its row.
    #[inline(always)]
    pub fn right_of(&self, node: usize) -> usize
        requires node { (self.now.heads ≤ node) × (node < self.now.tails) }
        ensures right { result ≡ (place_at self.now node).right }
        ensures table { IsTable self.now }
    {
        let places = self.places;
        places[node].right as usize
    }

    /// The item of a node of an option.
    #[inline(always)]
    pub fn item_at(&self, node: usize) -> usize
        requires node { (self.now.heads + self.now.heads ≤ node + 1) × (node < self.now.tails) }
        ensures item { result ≡ column_of self.now node }
        ensures table { IsTable self.now }
    {
        let places = self.places;
        places[node].item as usize
    }

    /// Whether a node has this colour; one without a colour has none.
    #[inline(always)]
    pub fn has_colour(&self, node: usize, colour: u16) -> bool
        requires node { node < self.now.tails }
        requires colour { 0 < colour }
        ensures { result ≡ has_colour self.now colour node }
    {
        let places = self.places;
        places[node].colour == colour
    }

    /// Takes a node out of its column.
    #[inline(always)]
    #[tactic(auto, unfolding(crate::specs::Linking::unlinked, crate::specs::Linking::with_up, crate::specs::Linking::with_down))]
    pub fn unlink(&self, links: &mut [Link], node: usize)
        requires node { (self.now.heads ≤ node) × (node < self.now.tails) }
        requires linked { IsLinked self.now links.old }
        ensures linked { IsLinked self.now links.new }
        ensures links { links.new ≡ unlinked links.old node }
    {
        let _places = self.places;
        // (read one by one, which takes fewer instructions than a copy of the link)
        let up = links[node].up;
        let down = links[node].down;
        links[up as usize].down = down;
        links[down as usize].up = up;
    }

    /// Puts the node that was taken out last back into its column.
    #[inline(always)]
    #[tactic(auto, unfolding(crate::specs::Linking::relinked, crate::specs::Linking::with_up, crate::specs::Linking::with_down))]
    pub fn relink(&self, links: &mut [Link], node: usize)
        requires node { (self.now.heads ≤ node) × (node < self.now.tails) }
        requires linked { IsLinked self.now links.old }
        ensures linked { IsLinked self.now links.new }
        ensures links { links.new ≡ relinked links.old node }
    {
        let _places = self.places;
        let up = links[node].up;
        let down = links[node].down;
        links[up as usize].down = node as u32;
        links[down as usize].up = node as u32;
    }
}
