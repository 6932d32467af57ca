//! Texts of coteries: layouts of TOML, and the largest that are read.
use coterie_file::{FileFault, read_coterie, write_coterie};
use quorum_set::CoterieFault;
use std::alloc::{AllocError, Global};

/// The text of the coterie of three voters and their pairs, with these lines between and after its
/// lists.
macro_rules! majority {
    ($between:literal, $after:literal) => {
        concat!(
            "voters = [\"v0\", \"v1\", \"v2\"]\n", $between,
            "quorums = [\n  [\"v0\", \"v1\"],\n  [\"v0\", \"v2\"],\n  [\"v1\", \"v2\"],\n]\n", $after
        )
    };
}

/// The coterie as it is written.
const MAJORITY: &str = majority!("", "");

/// The same with other capacities.
const WEIGHTED: &str = majority!("capacity = [2, 1, 1]\n", "");

/// Layouts of the coterie, and how it is written.
const LAYOUTS: [(&str, &str); 4] = [
    (MAJORITY, MAJORITY),
    (
        "# three voters\nquorums=[['v1','v0'],['v2','v0'],\n  ['v2', # and\n'v1']]\r\n\"voters\"=['v0','''v1''',\"\\u0076\\u0032\"]",
        MAJORITY,
    ),
    (majority!("", "capacity = [1, 1, 1]\n"), MAJORITY),
    (
        majority!("", "capacity = [\n  0x2, # twice as often\n  1,\n  1,\n]\n"),
        WEIGHTED,
    ),
];

/// Returns whether a text is that of a coterie which is written like this.
fn is_written(alloc: Global, text: &str, wanted: &str) -> Result<bool, AllocError> {
    match read_coterie(alloc, text) {
        Ok(named) => Ok(write_coterie(alloc, &named)?.as_str() == wanted),
        Err(_) => Ok(false),
    }
}

#[test]
fn layouts_read_alike(rt: HostRuntime) {
    for (text, wanted) in &LAYOUTS {
        assert!(rt; is_written(rt.alloc(), text, wanted) == Ok(true));
    }
}

/// The names `n0` to `n63`, each in quotes and with a comma.
const NAMES: &str =
    "'n0','n1','n2','n3','n4','n5','n6','n7','n8','n9','n10','n11','n12','n13','n14','n15','n16','n17','n18','n19','n20','n21','n22','n23','n24','n25','n26','n27','n28','n29','n30','n31','n32','n33','n34','n35','n36','n37','n38','n39','n40','n41','n42','n43','n44','n45','n46','n47','n48','n49','n50','n51','n52','n53','n54','n55','n56','n57','n58','n59','n60','n61','n62','n63',";

/// Returns the fault of the text of these pieces, if it is no coterie.
fn fault_of(alloc: Global, pieces: &[&str]) -> Result<Option<FileFault>, AllocError> {
    let mut text = String::new(alloc);
    for piece in pieces {
        text.push_str(piece)?;
    }
    Ok(read_coterie(alloc, &text).err())
}

/// Texts of 64 voters and of 65, and their faults.
const LARGE: [(&[&str], Option<FileFault>); 2] = [
    (&["voters=[", NAMES, "]\nquorums=[[", NAMES, "]]"], None),
    (
        &["voters=[", NAMES, "'m']\nquorums=[['n0']]"],
        Some(FileFault::Coterie(CoterieFault::TooManyVoters)),
    ),
];

#[test]
fn voters_are_at_most_64(rt: HostRuntime) {
    for (pieces, wanted) in &LARGE {
        assert!(rt; fault_of(rt.alloc(), pieces) == Ok(*wanted));
    }
}

/// Returns the fault of 4097 quorums of one of 64 voters.
fn fault_of_many(alloc: Global) -> Result<Option<FileFault>, AllocError> {
    let quorums = "['n1'],".repeat(alloc, 4097)?;
    fault_of(alloc, &["voters=[", NAMES, "]\nquorums=[", &quorums, "]"])
}

#[test]
fn quorums_are_at_most_4096(rt: HostRuntime) {
    let wanted = Some(FileFault::Coterie(CoterieFault::TooManyQuorums));
    assert!(rt; fault_of_many(rt.alloc()) == Ok(wanted));
}
