//! The choice of the column that enters the basis.

use crate::line::Line;
use crate::relaxation::Relaxation;

/// How many columns are looked at, if one of them gains something, before the best of them is taken: partial pricing.
/// Of all columns the best one took up to twice as long, since each pivot then looks at all options.
const SECTION: usize = 500;

/// What a column has to gain at least: less is taken for an error of rounding. As `LEAST_PIVOT` of the simplex; chosen,
/// not measured.
const LEAST_GAIN: f64 = 1e-7;

/// A column that may enter the basis, and how much it lowers what is missing, for each part of it that is taken: its
/// reduced cost.
#[derive(Clone, Copy)]
pub(crate) struct Entering {
    pub(crate) column: usize,
    pub(crate) gain: f64,
}

/// What these rows cost together.
fn gain_of(prices: &Line, rows: &[u16]) -> f64 {
    let mut gain = 0.0;
    for row in rows {
        gain += prices.at(*row as usize);
    }
    gain
}

/// The column of most gain of some columns from one on, and then from the first one on. The number of the one is then
/// that behind them.
pub(crate) fn entering_from(
    relaxation: &Relaxation,
    prices: &Line,
    next: &mut usize,
) -> Option<Entering> {
    let mut best: Option<Entering> = None;
    let mut most = LEAST_GAIN;
    for looked in 0..relaxation.columns() {
        if looked >= SECTION && best.is_some() {
            break;
        }
        let column = if *next < relaxation.columns() {
            *next
        } else {
            0
        };
        let gain = gain_of(prices, relaxation.column(column));
        if gain > most {
            most = gain;
            best = Some(Entering { column, gain });
        }
        *next = column.saturating_add(1);
    }
    best
}
