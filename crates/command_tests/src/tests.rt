//! Words of command lines, lawful and not.

mod words;
