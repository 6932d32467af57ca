//! Coteries that are made and read again, and coteries that are refused.
use coterie_file::{read_coterie, write_coterie};
use std::alloc::{AllocError, Global};
use std::sync::Wait;
use std::test::Fail;
use std::thread::Threads;
use std::time::Clock;
use test_served::{Row, answer, coterie_of_letters};

/// Shapes that `make` refuses, and texts that are no coteries.
pub(crate) const REFUSED: [Row; 10] = [
    ("make grid 1 5", &[], "G1 BadSize"),
    ("make majority 15", &[], "G2 TooLarge"),
    ("make tree 4", &[], "G2 TooLarge"),
    ("make cyclic 4 0 2", &[], "E7 Disjoint 0 1"),
    ("make cyclic 2 0 1", &[], "E8 Contained 0 1"),
    (
        "plan",
        &["voters = [\"a\"]\nquorums = []\n"],
        "E3 NoQuorums",
    ),
    ("plan", &[""], "F2 Keys"),
    ("plan", &["voters = [\n"], "F1 NotToml"),
    (
        "plan",
        &["voters = [\"a b\", \"c\"]\nquorums = [[\"c\"]]\n"],
        "F3 BadName 0",
    ),
    (
        "plan",
        &[
            "voters = [[[[[[[[[[[[[[[[[[[[[[[[[[[[[[[[[[[[[[[[[[[[[[[[[[[[[[[[[[[[[[[[[[[[[[[[[[[[[[[[[[[[[[[[[[[[[[[[[[[[",
        ],
        "F1 NotToml",
    ),
];

/// Shapes, and how many lines their texts have.
const LINES: [(&str, usize); 5] = [
    ("make grid 8 8", 67),
    ("make majority 14", 3006),
    ("make tree 3", 258),
    ("make wheel 63", 67),
    ("make cyclic 13 0 1 3 9", 16),
];

/// Returns whether a text of this number of lines is written again as it was once it is read.
fn reads_back(alloc: Global, text: &str, lines: usize) -> Result<bool, AllocError> {
    match read_coterie(alloc, text) {
        Ok(named) => {
            let again = write_coterie(alloc, &named)?;
            Ok((again.as_str() == text) & (text.lines().count() == lines))
        }
        Err(_) => Ok(false),
    }
}

#[test]
fn shapes_read_back(rt: HostRuntime) -> Result<(), Fail> {
    for (line, lines) in &LINES {
        let text = answer(&rt, rt.alloc(), line, &[])?;
        assert!(rt; reads_back(rt.alloc(), text.as_str(), *lines)?);
    }
    Ok(())
}

/// Voters and quorums of letters, and how they are refused.
const LETTERS: [(&str, &str, &str); 6] = [
    ("abc", "ab c", "E7 Disjoint 0 1"),
    ("abc", "ab ab", "E8 Contained 0 1"),
    ("a", "", "E5 EmptyQuorum 0"),
    ("aa", "a", "F4 RepeatedName 1"),
    ("a", "z", "F5 UnknownName 0"),
    ("a", "aa", "F6 RepeatedMember 0"),
];

/// A wall of rows of 1, 2 and 3; two weighted majorities; a nucleus system; majorities of
/// majorities: voters, quorums, and how their plans begin.
const OTHERS: [(&str, &str, &str); 5] = [
    (
        "abcdef",
        "abd abe abf acd ace acf bcd bce bcf def",
        "quorum-plan 1\nload 1/2\n",
    ),
    (
        "abcdefg",
        "abc abd abe abf abg acde acdf acdg acef aceg acfg adef adeg adfg aefg bcdef bcdeg bcdfg bcefg bdefg",
        "quorum-plan 1\nload 3/5\n",
    ),
    (
        "abcdefghij",
        "ab ac ade adf adgh adgi adgj adhij aefgh aefgi aefgj aefhij bcde bcdf bcdgh bcdgi bcdgj bcdhij bcefgh bcefgi bcefgj bcefhij",
        "quorum-plan 1\nload 27/53\n",
    ),
    (
        "abcdefghijklmnop",
        "abcd abce abcf abde abdf abef acde acdf acef adef bcde bcdf bcef bdef cdef abcg abdh abei abfj acdk acel acfm aden adfo aefp bcdp bceo bcfn bdem bdfl befk cdej cdfi cefh defg",
        "quorum-plan 1\nload 1/2\n",
    ),
    (
        "abcdefghi",
        "abde abdf abef acde acdf acef bcde bcdf bcef abgh abgi abhi acgh acgi achi bcgh bcgi bchi degh degi dehi dfgh dfgi dfhi efgh efgi efhi",
        "quorum-plan 1\nload 4/9\n",
    ),
];

/// Returns what `plan` writes for a coterie of letters.
fn planned<T: Threads + Wait + Clock + Sync>(
    rt: &T,
    alloc: Global,
    voters: &str,
    quorums: &str,
) -> Result<String, AllocError> {
    let coterie = coterie_of_letters(alloc, voters, quorums)?;
    answer(rt, alloc, "plan", &[coterie.as_str()])
}

#[test]
fn coteries_are_refused(rt: HostRuntime) -> Result<(), Fail> {
    for (voters, quorums, fault) in &LETTERS {
        let text = planned(&rt, rt.alloc(), voters, quorums)?;
        assert!(rt; text.as_str() == *fault);
    }
    Ok(())
}

#[test]
fn other_families_have_the_known_loads(rt: HostRuntime) -> Result<(), Fail> {
    for (voters, quorums, beginning) in &OTHERS {
        let text = planned(&rt, rt.alloc(), voters, quorums)?;
        assert!(rt; text.as_str().starts_with(beginning));
    }
    Ok(())
}
