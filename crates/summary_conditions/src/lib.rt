// Whether summaries keep the conditions.
#![tactic(auto)]

ghost use Rattle.std.specs.Prelude.{◌≡◌, ◌≤◌};
ghost use Rattle.summary.specs.Conditions.{span_good, summary_good, summaries_good};

use panel::Shape;
use summary::{Span, Summary};

// Whether the rows of a summary keep the conditions, at its count.
fn span_good(shape: Shape, black: u32, span: Option<Span>) -> bool
    ensures { result ≡ span_good shape.rows black span }
{
    match span {
        None => black == 0,
        Some(Span { first, last }) => {
            black != 0 && first <= last && (last as usize) < shape.rows
        }
    }
}

// Whether a summary does.
#[tactic(auto, unfolding(summary::specs::Conditions::summary_good))]
fn summary_good(shape: Shape, summary: Summary) -> bool
    ensures { result ≡ summary_good shape.bytes shape.rows summary }
{
    summary.black as usize <= 8 * shape.bytes * shape.rows
        && span_good(shape, summary.black, summary.span)
}

// Whether those of slots 0 to n do. Places after that of slot n are no slots.
pub fn summaries_good(shape: Shape, n: usize, summaries: [Summary; 8]) -> bool
    requires { n ≤ 7 }
    ensures { result ≡ summaries_good shape.bytes shape.rows n summaries }
{
    summaries[..=n]
        .iter()
        .all(|summary| summary_good(shape, *summary))
}
