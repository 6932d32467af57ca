//! Laws about texts of plans and of weights.
ghost use Rattle.std.specs.Prelude.{◌≡◌, ◌≢◌, ◌*◌, ◌↔◌, ◌<◌, ◌≤◌, ◌++◌, ℕ, List, [], false, Some, codes, length};
ghost use Rattle.std.specs.Fmt.{decimal};
ghost use Rattle.std.specs.List.{All};
ghost use Rattle.quorum_set.specs.Capacities.{IsCapacity, are_unit};
ghost use Rattle.certificate.specs.Certificates.{Weighted, AreWeights, IsCertificate};
ghost use Rattle.plan_texts.specs.PlanTexts.{HasDigits, IsShort, plan_text, number_of, ratio_line, cycle_line, weights_line, weights_text, read_ratio, read_cycle, read_capacities, read_numbers};

/// Bytes are read as a number of at most this many digits, up to 19, if and only if they are its
/// decimal text and it has no more digits.
pub fn numbers_have_one_text()
    ensures { (digits : ℕ) (bytes : List ℕ) (n : ℕ) → digits ≤ 19
        → (number_of digits bytes ≡ Some n) ↔ ((bytes ≡ decimal n) × HasDigits digits n) }
{}

/// A line is read as a ratio after its word, a cycle's length, capacities, or weights after their word
/// if and only if it is the line that is written for these. Its numbers have at most 7 digits, and
/// those of a ratio at most `digits`, which is up to 19. Capacities are 1 to 1000, and some is not 1.
pub fn lines_are_read_as_written()
    ensures ratio { (word : List ℕ) (digits : ℕ) (line : List ℕ) (ratio : ℕ × ℕ) → digits ≤ 19
        → (read_ratio word digits line ≡ Some ratio)
        ↔ ((line ≡ ratio_line word ratio) × (HasDigits digits ratio.0 × HasDigits digits ratio.1)) }
    ensures cycle { (line : List ℕ) (n : ℕ) → (read_cycle line ≡ Some n) ↔ ((line ≡ cycle_line n) × IsShort n) }
    ensures capacities { (line capacities : List ℕ) → (read_capacities line ≡ Some capacities)
        ↔ ((line ≡ weights_line (codes "capacity ") capacities)
        × (All IsCapacity capacities × (are_unit capacities ≡ false))) }
    ensures weights { (word line weights : List ℕ) → (read_numbers word line ≡ Some weights)
        ↔ ((line ≡ weights_line word weights) × (All IsShort weights × (0 < length weights))) }
{}

/// No text of a plan or of weights is the beginning of a longer one of these.
pub fn texts_end()
    ensures plan { (v w : Weighted) (more : List ℕ) → IsCertificate v → IsCertificate w
        → plan_text v ++ more ≡ plan_text w → more ≡ [] }
    ensures weights { (v w : Weighted) (more : List ℕ) → AreWeights v → AreWeights w
        → weights_text v ++ more ≡ weights_text w → more ≡ [] }
    ensures apart { (v w : Weighted) (more : List ℕ)
        → (plan_text v ++ more ≢ weights_text w) × (weights_text v ++ more ≢ plan_text w) }
{}
