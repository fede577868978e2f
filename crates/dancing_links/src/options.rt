//! The live options that name an item.

ghost use Rattle.std.specs.Iterator.{YieldsFirst, item_count};

use crate::layout::Layout;
use crate::link::Link;
use std::marker::Model;

/// An iterator over the live options that name an item, in file order.
///
/// Contracts see it as the options that are left.
#[derive(Drop)]
pub struct OptionsOf<'a> {
    layout: &'a Layout,
    links: &'a [Link],
    node: usize,
}

impl<'a> Model for OptionsOf<'a> {
    ghost use Rattle.std.specs.Prelude.{List, ℕ};
    ghost use Rattle.dancing_links.specs.Columns.{IsLinked};
    ghost use Rattle.dancing_links.specs.Walking.{options_left};

    ghost Value = { List ℕ };

    ghost view = { λ s. options_left s.layout.now s.links.now s.node };

    ghost invariant = { λ s. IsLinked s.layout.now s.links.now };
}

impl<'a> Iterator for OptionsOf<'a> {
    type Item = u16;

    ghost next_gives = { YieldsFirst (λ s. s) };

    ghost remaining = { item_count (λ s. s) };

    fn next(&mut self) -> Option<u16> {
        if self.node >= self.layout.tails() {
            return None;
        }
        let option = self.layout.option_at(self.node);
        self.node = self.links[self.node].down as usize;
        Some(option)
    }
}

impl<'a> OptionsOf<'a> {
    ghost use Rattle.std.specs.Prelude.{◌≡◌};
    ghost use Rattle.dancing_links.specs.Columns.{IsLinked};
    ghost use Rattle.dancing_links.specs.Walking.{options_left};

    /// The options of the nodes down a column from one on.
    pub(crate) fn from_node(layout: &'a Layout, links: &'a [Link], node: usize) -> OptionsOf<'a>
        requires linked { IsLinked layout.now links.now }
        ensures { result ≡ options_left layout.now links.now node }
    {
        OptionsOf {
            layout,
            links,
            node,
        }
    }
}
