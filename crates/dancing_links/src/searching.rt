//! Links as what a search branches over.

use crate::links::Links;
use choices::Branching;
use cover_problem::Problem;

impl<'a> Branching for Links<'a> {
    ghost choices = { λ links. links };

    #[inline(always)]
    fn problem(&self) -> &Problem {
        Links::problem(self)
    }

    #[inline(always)]
    fn chosen(&self) -> &[u16] {
        Links::chosen(self)
    }

    #[inline(always)]
    fn branch_item(&self) -> Option<u16> {
        Links::branch_item(self)
    }

    #[inline(always)]
    fn key_words(&self) -> usize {
        Links::key_words(self)
    }

    #[inline(always)]
    fn write_key(&self, words: &mut [u64]) -> bool {
        Links::write_uncovered(self, words)
    }

    #[inline(always)]
    fn choose(&mut self, option: u16) {
        Links::choose(self, option);
    }

    #[inline(always)]
    fn choose_first(&mut self, item: u16) -> Option<u16> {
        Links::choose_first(self, item)
    }

    #[inline(always)]
    fn choose_next(&mut self) -> Option<u16> {
        Links::choose_next(self)
    }

    #[inline(always)]
    fn undo(&mut self) -> u16 {
        Links::undo(self)
    }
}
