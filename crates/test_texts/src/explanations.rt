//! Each explanation has all its texts, and its code finds it.
use show_faults::{Explanation, explanation_of, sections};

/// Returns the name of the fault whose explanation is found, or `none`.
fn name_found(line: &str) -> &'static str {
    match explanation_of(line) {
        Some(explanation) => explanation.name,
        None => "none",
    }
}

/// Returns whether an explanation has all its texts, and is the one that its code finds.
fn is_whole(explanation: &Explanation) -> bool {
    ((2..=3).contains(&explanation.code.len()))
        & (name_found(explanation.code) == explanation.name)
        & !explanation.meaning.is_empty()
        & !explanation.example.is_empty()
        & !explanation.mistakes.is_empty()
}

/// Returns how many explanations are whole, or 0 if one of them is not.
fn whole() -> usize {
    let mut count = 0usize;
    for section in sections() {
        if !section.explanations.iter().all(is_whole) {
            return 0;
        }
        count = count.saturating_add(section.explanations.len());
    }
    count
}

#[test]
fn explanations_are_whole(rt: HostRuntime) {
    assert!(rt; whole() == 59);
}
