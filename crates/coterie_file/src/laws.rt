//! Laws about names, capacities, lists and the coteries of texts.
ghost use Rattle.std.specs.Prelude.{◌≡◌, ◌≢◌, ◌<◌, ◌≤◌, ◌↔◌, ℕ, List, All, [], length, map, true, None, Some, Ok, Err, Contains, MatchOption};
ghost use Rattle.numbers.specs.Bounds.{max_voters};
ghost use Rattle.numbers.specs.Sets.{has};
ghost use Rattle.quorum_set.specs.Capacities.{IsCapacity, AreCapacities};
ghost use Rattle.quorum_set.specs.declared.fault.CoterieFault.TheVariants.{VoterOutOfRange};
ghost use Rattle.toml.specs.Data.{Items, array};
ghost use Rattle.toml.specs.View.{items_of};
ghost use Rattle.coterie_file.specs.declared.fault.FileFault.TheVariants.{Coterie};
ghost use Rattle.coterie_file.specs.Capacities.{is_capacity, capacities_fault};
ghost use Rattle.coterie_file.specs.Lists.{texts_of, text_lists_of, numbers_of, strings, integers};
ghost use Rattle.coterie_file.specs.Named.{NamedSystem, IsNamed};
ghost use Rattle.coterie_file.specs.Names.{IsName, is_name, name_at, AllDiffer, AreNames, IsLeastRepeat, first_repeat, names_fault};
ghost use Rattle.coterie_file.specs.Reading.{quorum_of, coterie_at, Describes};

/// The first repeat is the smallest place whose name is at an earlier place too. If there is none,
/// all names differ.
pub fn first_repeat_is_least()
    ensures { (names : List (List ℕ)) → MatchOption (first_repeat [] names) (AllDiffer names) (IsLeastRepeat names) }
{}

/// Names have no fault if and only if each text is a name, and all differ.
pub fn names_have_no_fault()
    ensures test { (name : List ℕ) → (is_name name ≡ true) ↔ IsName name }
    ensures names { (names : List (List ℕ)) → (names_fault names ≡ None) ↔ AreNames names }
{}

/// An array is read as texts if and only if it is the array of these strings. It is read as lists
/// of texts if and only if it is the array of these arrays of strings.
pub fn lists_are_arrays_of_strings()
    ensures texts { (items : Items) (texts : List (List ℕ)) → (texts_of items ≡ Some texts) ↔ (items ≡ strings texts) }
    ensures lists { (items : Items) (lists : List (List (List ℕ)))
        → (text_lists_of items ≡ Some lists) ↔ (items ≡ items_of (map (λ texts. array (strings texts)) lists)) }
{}

/// Numbers have no fault if and only if they are capacities, one for each voter.
pub fn capacities_have_no_fault()
    ensures test { (c : ℕ) → (is_capacity c ≡ true) ↔ IsCapacity c }
    ensures capacities { (n : ℕ) (capacities : List ℕ)
        → (capacities_fault n capacities ≡ None) ↔ AreCapacities capacities n }
{}

/// An array is read as these capacities if and only if it is the array of these integers.
pub fn capacities_are_arrays_of_integers()
    ensures { (items : Items) (capacities : List ℕ) → All IsCapacity capacities
        → (numbers_of items ≡ Some capacities) ↔ (items ≡ integers capacities) }
{}

/// A voter is in the quorum that is read if and only if the quorum lists the voter's name.
pub fn quorums_have_the_listed_voters()
    ensures { (names members : List (List ℕ)) (i : ℕ) → AllDiffer names → length names ≤ max_voters
        → (has (quorum_of names members) i ≡ true) ↔ ((i < length names) × Contains members (name_at names i)) }
{}

/// A text is read as a coterie with names and capacities if and only if its lists have good names, a
/// capacity for each name, and quorums of these names that are a coterie.
pub fn texts_read_as_coteries()
    ensures exact { (text : List ℕ) (n : NamedSystem) → (coterie_at text ≡ Ok n) ↔ Describes text n }
    ensures named { (text : List ℕ) (n : NamedSystem) → coterie_at text ≡ Ok n → IsNamed n }
{}

/// `VoterOutOfRange` never comes from a text: a quorum of a text has only voters of that text.
pub fn texts_have_no_stray_voter()
    ensures { (text : List ℕ) (quorum voter : ℕ)
        → coterie_at text ≢ Err (Coterie (VoterOutOfRange quorum voter)) }
{}
