//! How much of a page stands open. The rest is folded, so that few sheets are needed to print a large page.

ghost use Rattle.std.specs.Prelude.{◌≡◌, ◌≤◌, length};

use drawn_logs::Choice;
use evidence_set::Indication;
use sentences::{NodeExplanation, Sentence};

/// The greatest number of nodes at fault that stand open.
const MOST_NODES: u64 = 6;

/// The greatest number of sentences of a node that stand open.
const MOST_SENTENCES: usize = 12;

/// The tables are folded if more entries are drawn.
const MOST_ENTRIES: usize = 60;

/// Returns how many nodes are of the indication.
pub(crate) fn count_of(nodes: &[NodeExplanation], indication: Indication) -> u64 {
    let of_it = nodes.iter().filter(|told| told.indication == indication);
    of_it.count() as u64
}

/// Returns how many nodes of the indication stand open. Exposed nodes come first, then suspected ones. No trusted node stands open.
pub(crate) fn open_of(nodes: &[NodeExplanation], indication: Indication) -> u64
    ensures most { result ≤ MOST_NODES }
    ensures trusted { indication ≡ Indication.Trusted → result ≡ 0 }
{
    let exposed = count_of(nodes, Indication::Exposed).min(MOST_NODES);
    match indication {
        Indication::Exposed => exposed,
        Indication::Suspected => {
            count_of(nodes, Indication::Suspected).min(MOST_NODES.saturating_sub(exposed))
        }
        Indication::Trusted => 0,
    }
}

/// Returns the name of what is folded of the indication.
pub(crate) fn fold_name(indication: Indication) -> &'static str {
    match indication {
        Indication::Exposed => "further-exposed",
        Indication::Suspected => "further-suspected",
        Indication::Trusted => "trusted",
    }
}

/// Returns the words for the nodes that are folded of the indication.
pub(crate) fn fold_words(indication: Indication) -> &'static str {
    match indication {
        Indication::Exposed => "further exposed",
        Indication::Suspected => "further suspected",
        Indication::Trusted => "trusted",
    }
}

/// Returns the sentences that stand open, and those that are folded.
pub(crate) fn parted(sentences: &[Sentence]) -> (&[Sentence], &[Sentence])
    ensures { length result.0.now ≤ MOST_SENTENCES }
{
    sentences.split_at(sentences.len().min(MOST_SENTENCES))
}

/// Returns whether the tables stand open.
pub(crate) fn are_tables_open(choice: &Choice) -> bool {
    choice.cells.len() <= MOST_ENTRIES
}
