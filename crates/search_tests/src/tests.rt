//! Links and searches of small problems, and of random ones.

mod coloured;
mod deciding;
mod fuels;
mod keeping;
mod links;
mod plain;
mod refused;
mod search;
mod suited;
mod texts;
