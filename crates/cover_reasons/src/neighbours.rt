//! Which items stand beside which ones in options.

ghost use Rattle.std.specs.Prelude.{◌≡◌, ◌<◌, length};

use crate::bits::Bits;
use crate::reason_watch::{ReasonWatch, looks_at};
use cover_problem::Problem;
use std::alloc::{AllocError, Global};

/// What is known of a problem's items.
#[derive(Drop)]
pub struct Neighbours {
    /// Of each item the primary items beside which it is in an option, itself not among them.
    owners: Vec<Bits>,
    /// Of each item the options that name it.
    options: Vec<Vec<u16>>,
    /// The items to which some option gives a colour.
    coloured: Bits,
}

/// So many empty sets of numbers below a bound; the only error is out of memory.
pub fn empty_sets(alloc: Global, count: usize, bound: usize) -> Result<Vec<Bits>, AllocError> {
    let mut sets = Vec::with_capacity(alloc, count)?;
    for _ in 0..count {
        sets.push(Bits::empty(alloc, bound)?)?;
    }
    Ok(sets)
}

/// So many empty lists.
fn empty_lists(alloc: Global, count: usize) -> Result<Vec<Vec<u16>>, AllocError> {
    let mut lists = Vec::with_capacity(alloc, count)?;
    for _ in 0..count {
        lists.push(Vec::new(alloc))?;
    }
    Ok(lists)
}

/// Makes a set the primary items among these.
fn collect_primary(primary: usize, items: &[u16], set: &mut Bits) {
    set.clear();
    for item in items {
        if (*item as usize) < primary {
            set.insert(*item as usize);
        }
    }
}

impl Neighbours {
    /// What is known of a problem's items, by its first options where the watch ends that; the only error is out of
    /// memory.
    pub fn new<W: ReasonWatch>(
        alloc: Global,
        problem: &Problem,
        watch: &mut W,
    ) -> Result<Neighbours, AllocError> {
        let items = problem.items();
        let mut neighbours = Neighbours {
            owners: empty_sets(alloc, items, problem.primary())?,
            options: empty_lists(alloc, items)?,
            coloured: Bits::empty(alloc, items)?,
        };
        neighbours.add_options(alloc, problem, watch)?;
        neighbours.leave_out_themselves();
        Ok(neighbours)
    }

    /// Notes the items of all options, or of the first ones where the watch ends that.
    fn add_options<W: ReasonWatch>(
        &mut self,
        alloc: Global,
        problem: &Problem,
        watch: &mut W,
    ) -> Result<(), AllocError> {
        let mut primary = Bits::empty(alloc, problem.primary())?;
        for option in 0..problem.options() as u16 {
            if looks_at(option, watch) {
                break;
            }
            collect_primary(problem.primary(), problem.option(option), &mut primary);
            self.add_option(problem, option, &primary)?;
        }
        Ok(())
    }

    /// Notes the items of an option, with these primary ones among them.
    fn add_option(
        &mut self,
        problem: &Problem,
        option: u16,
        primary: &Bits,
    ) -> Result<(), AllocError>
        requires { option < length problem.now.options }
    {
        for (item, colour) in problem.option(option).iter().zip(problem.colours(option)) {
            let place = *item as usize;
            if *colour != 0 {
                self.coloured.insert(place);
            }
            if place < self.owners.len() && place < self.options.len() {
                self.owners[place].unite(primary);
                self.options[place].push(option)?;
            }
        }
        Ok(())
    }

    /// No item stands beside itself.
    fn leave_out_themselves(&mut self) {
        for item in 0..self.owners.len() {
            self.owners[item].remove(item);
        }
    }

    /// The primary items beside which an item stands, if there is such an item.
    pub fn owners(&self, item: usize) -> Option<&Bits> {
        self.owners.get(item)
    }

    /// How many primary items an item stands beside.
    pub fn owner_count(&self, item: usize) -> u32 {
        match self.owners.get(item) {
            Some(owners) => owners.count(),
            None => 0,
        }
    }

    /// The options that name an item.
    pub fn options(&self, item: usize) -> &[u16] {
        match self.options.get(item) {
            Some(options) => options,
            None => &[],
        }
    }

    /// Whether no option gives the item a colour.
    pub fn is_plain(&self, item: usize) -> bool {
        !self.coloured.has(item)
    }

    /// How like two items are, 0 to 65,535: by how many of the items beside which either stands both do, and then by
    /// how many options name them.
    pub fn likeness(&self, one: usize, other: usize) -> u16 {
        let (Some(mine), Some(theirs)) = (self.owners(one), self.owners(other)) else {
            return 0;
        };
        let common = mine.common(theirs);
        let either = mine.count().saturating_add(theirs.count());
        let either = either.saturating_sub(common);
        let mine = self.options(one).len();
        let theirs = self.options(other).len();
        let high = share(common as usize, either as usize);
        let low = share(mine.min(theirs), mine.max(theirs));
        256 * u16::from(high) + u16::from(low)
    }
}

/// What share of a whole a part is, in 255ths: 255 of all of it, and 0 where there is nothing.
fn share(part: usize, whole: usize) -> u8 {
    let share = part.min(whole).saturating_mul(255) / whole.max(1);
    share.min(255) as u8
}
