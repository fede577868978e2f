//! Classes of secondary items: no option names two of a class.

ghost use Rattle.std.specs.Prelude.{◌≡◌, ◌<◌, length};

use cover_problem::Problem;
use cover_reasons::{Bits, ReasonWatch, looks_at};
use fractional_room::Row;
use std::alloc::{AllocError, Global};

/// The class of an item that is primary, or to which some option gives a colour.
const NONE: u16 = 0;

/// The options of each item, and the class of each secondary item to which no option gives a colour, from 1.
#[derive(Drop)]
pub(crate) struct Classes {
    options: Vec<Vec<u16>>,
    classes: Row,
    count: u16,
    /// About how many items of options were looked at.
    steps: usize,
}

/// So many empty lists; the only error is out of memory.
fn empty_lists(alloc: Global, count: usize) -> Result<Vec<Vec<u16>>, AllocError> {
    let mut lists = Vec::with_capacity(alloc, count)?;
    for _ in 0..count {
        lists.push(Vec::new(alloc))?;
    }
    Ok(lists)
}

/// Adds an option to the lists of its items.
fn add_option(
    lists: &mut [Vec<u16>],
    coloured: &mut Row,
    problem: &Problem,
    option: u16,
) -> Result<(), AllocError>
    requires { option < length problem.now.options }
{
    for (item, colour) in problem.option(option).iter().zip(problem.colours(option)) {
        let place = *item as usize;
        if *colour != 0 {
            coloured.put(place, 1);
        }
        if place < lists.len() {
            lists[place].push(option)?;
        }
    }
    Ok(())
}

impl Classes {
    /// The classes of a problem's items: in their order, each item gets the first class that has none beside it in an
    /// option. Where the watch ends that, further items have none. The only error is out of memory.
    pub(crate) fn new<W: ReasonWatch>(
        alloc: Global,
        problem: &Problem,
        most_steps: usize,
        watch: &mut W,
    ) -> Result<Classes, AllocError> {
        let mut classes = Classes {
            options: empty_lists(alloc, problem.items())?,
            classes: Row::zeros(alloc, problem.items())?,
            count: 0,
            steps: 0,
        };
        let mut coloured = Row::zeros(alloc, problem.items())?;
        classes.list_options(problem, &mut coloured, watch)?;
        classes.set_classes(alloc, problem, &coloured, most_steps, watch)?;
        Ok(classes)
    }

    /// Lists the options of each item, as far as the watch doesn't end that.
    fn list_options<W: ReasonWatch>(
        &mut self,
        problem: &Problem,
        coloured: &mut Row,
        watch: &mut W,
    ) -> Result<(), AllocError> {
        for option in 0..problem.options() as u16 {
            if looks_at(option, watch) {
                break;
            }
            add_option(&mut self.options, coloured, problem, option)?;
        }
        Ok(())
    }

    /// Puts each secondary item without a colour into a class, as long as not too many items were looked at and the
    /// watch doesn't end it.
    fn set_classes<W: ReasonWatch>(
        &mut self,
        alloc: Global,
        problem: &Problem,
        coloured: &Row,
        most_steps: usize,
        watch: &mut W,
    ) -> Result<(), AllocError> {
        // (of each class the item, plus 1, that last met one of the class)
        let mut met = Row::zeros(alloc, problem.items().saturating_add(2))?;
        for item in problem.primary()..problem.items() {
            if self.steps > most_steps || watch.look() {
                break;
            }
            if coloured.at(item) == 0 {
                self.set_class(problem, &mut met, item);
            }
        }
        Ok(())
    }

    /// Puts an item into the first class that has none beside it.
    fn set_class(&mut self, problem: &Problem, met: &mut Row, item: usize) {
        let stamp = item.min(65534) as u16 + 1;
        self.meet(problem, met, item, stamp);
        let most = self.count.saturating_add(1);
        for class in 1..most {
            if met.at(class as usize) != stamp {
                self.classes.put(item, class);
                return;
            }
        }
        self.classes.put(item, most);
        self.count = most;
    }

    /// Notes the classes of the items that stand beside one.
    fn meet(&mut self, problem: &Problem, met: &mut Row, item: usize, stamp: u16) {
        let mut steps: usize = 0;
        if let Some(options) = self.options.get(item) {
            for option in options {
                if (*option as usize) < problem.options() {
                    let items = problem.option(*option);
                    steps = steps.saturating_add(items.len());
                    note_classes(&self.classes, items, met, stamp);
                }
            }
        }
        self.steps = self.steps.saturating_add(steps);
    }

    /// The options that name an item.
    pub(crate) fn options(&self, item: usize) -> &[u16] {
        match self.options.get(item) {
            Some(options) => options,
            None => &[],
        }
    }

    /// How many classes there are.
    pub(crate) fn count(&self) -> u16 {
        self.count
    }

    /// About how many items were looked at.
    pub(crate) fn steps(&self) -> usize {
        self.steps
    }

    /// The items of a class, or of any class, where that is 0. The only error is out of memory.
    pub(crate) fn members(
        &self,
        alloc: Global,
        problem: &Problem,
        class: u16,
    ) -> Result<Bits, AllocError> {
        let mut members = Bits::empty(alloc, problem.items())?;
        for item in 0..problem.items() {
            let own = self.classes.at(item);
            if own != NONE && (class == NONE || own == class) {
                members.insert(item);
            }
        }
        Ok(members)
    }
}

/// Stamps the classes of these items.
fn note_classes(classes: &Row, items: &[u16], met: &mut Row, stamp: u16) {
    for item in items {
        met.put(classes.at(*item as usize) as usize, stamp);
    }
}
