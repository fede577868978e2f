//! Live rows as what a search branches over.

use crate::sets::LiveSets;
use choices::Branching;
use cover_problem::Problem;

impl<'a> Branching for LiveSets<'a> {
    ghost choices = { λ rows. rows };

    #[inline(always)]
    fn problem(&self) -> &Problem {
        LiveSets::problem(self)
    }

    #[inline(always)]
    fn chosen(&self) -> &[u16] {
        LiveSets::chosen(self)
    }

    #[inline(always)]
    fn branch_item(&self) -> Option<u16> {
        LiveSets::branch_item(self)
    }

    #[inline(always)]
    fn key_words(&self) -> usize {
        LiveSets::key_words(self)
    }

    #[inline(always)]
    fn write_key(&self, words: &mut [u64]) -> bool {
        LiveSets::write_key(self, words)
    }

    #[inline(always)]
    fn choose(&mut self, option: u16) {
        LiveSets::choose(self, option);
    }

    #[inline(always)]
    fn choose_first(&mut self, item: u16) -> Option<u16> {
        LiveSets::choose_first(self, item)
    }

    #[inline(always)]
    fn choose_next(&mut self) -> Option<u16> {
        LiveSets::choose_next(self)
    }

    #[inline(always)]
    fn undo(&mut self) -> u16 {
        LiveSets::undo(self)
    }
}
