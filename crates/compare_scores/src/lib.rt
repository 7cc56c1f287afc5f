// The score of a log that both trees are played on, and the ratio that is reported (request 12).
#![tactic(auto, using(crate::proofs::Laws::score_laws))]

ghost use Rattle.std.specs.Prelude.{◌≡◌};
ghost use Rattle.compare_scores.specs.Ratio.{greatest, ratio};
ghost use Rattle.compare_scores.specs.Scores.{stops, is_update, none_yet, counts, scored};
ghost use Rattle.compare_scores.specs.Scoring.{outcome_of, Within};

use call_answers::Row;
use log_lines::Order;

// Lines met, updates that both answered by 0, and the pages that these programmed in each tree.
#[derive(Clone, Copy)]
pub struct Score {
    pub lines: u64,
    pub updates: u64,
    pub mu: u64,
    pub plain: u64,
}

// Two whole numbers in lowest terms, or 0 and 0.
#[derive(Clone, Copy)]
pub struct Ratio {
    pub upper: u64,
    pub lower: u64,
}

pub fn none_yet() -> Score
    ensures { result ≡ none_yet }
{
    Score {
        lines: 0,
        updates: 0,
        mu: 0,
        plain: 0,
    }
}

// The greatest number that parts both, by Euclid's steps.
pub fn greatest(a: u64, b: u64) -> u64
    ensures { result ≡ greatest a b }
{
    let mut x = a;
    let mut y = b;
    // Stays a while: Euclid's steps end where nothing is left over, no range counts them.
    while y != 0 {
        let rest = x % y;
        x = y;
        y = rest;
    }
    x
}

pub fn ratio_of(a: u64, b: u64) -> Ratio
    ensures { result ≡ ratio a b }
{
    if b == 0 {
        return Ratio { upper: 0, lower: 0 };
    }
    let part = greatest(a, b);
    Ratio {
        upper: a / part,
        lower: b / part,
    }
}

// HEIGHT, ROOM or STOPPED.
pub fn stops(row: Row) -> bool
    ensures { result ≡ stops (outcome_of row) }
{
    matches!(row.answer, 5..=7)
}

fn is_update(order: Order) -> bool
    ensures { result ≡ is_update order }
{
    matches!(
        order,
        Order::Insert(_, _) | Order::Delete(_) | Order::Limited(_, _, _)
    )
}

// An update that both trees answer by 0.
fn counts(order: Order, mu: Row, plain: Row) -> bool
    ensures { result ≡ counts order (outcome_of mu) (outcome_of plain) }
{
    is_update(order) && mu.answer == 0 && plain.answer == 0
}

// The score after an order that neither tree stops at.
pub fn after_line(s: Score, order: Order, mu: Row, plain: Row) -> Score
    requires { Within s }
    ensures { result ≡ scored s order (outcome_of mu) (outcome_of plain) }
{
    if !counts(order, mu, plain) {
        return Score {
            lines: s.lines + 1,
            ..s
        };
    }
    Score {
        lines: s.lines + 1,
        updates: s.updates + 1,
        mu: s.mu + u64::from(mu.programmed),
        plain: s.plain + u64::from(plain.programmed),
    }
}
