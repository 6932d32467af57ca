//! A law: what names of voters are in HTML.
ghost use Rattle.std.specs.Prelude.{All};
ghost use Rattle.std.specs.List.{AllPass};
ghost use Rattle.coterie_file.specs.Named.{NamedSystem, IsNamed};
ghost use Rattle.show_report.specs.Names.{is_plain};

/// The names of a coterie's voters have none of the signs `<`, `>`, `&`, `"` and `'`. So HTML reads
/// them as themselves, and nothing has to be escaped.
pub fn names_are_plain_in_html()
    ensures { (named : NamedSystem) → IsNamed named → All (AllPass is_plain) named.names }
{}
