ghost use Rattle.std.specs.Prelude.{◌≡◌, ◌++◌, length, List, ℕ};
ghost use Rattle.graph_core.specs.Graph.{GraphValue, IsGraph, IsWithinSize};
ghost use Rattle.graph_text.specs.declared.refusal.Why.{Why};
ghost use Rattle.graph_text.specs.Reading.{ReadsText, IsFault, IsTextAlone, IsFaultAlone};
ghost use Rattle.graph_text.specs.PlainText.{plain_text, HasFewCosts};

/// Bytes have at most one reading: one graph and one count, or one first fault, and not both.
pub fn one_reading()
    ensures one_text { (bytes : List ℕ) (g h : GraphValue) (c d : ℕ) → ReadsText bytes g c → ReadsText bytes h d → (g ≡ h) × (c ≡ d) }
    ensures one_fault { (bytes : List ℕ) (i j : ℕ) (why other : Why) → IsFault bytes i why → IsFault bytes j other → (i ≡ j) × (why ≡ other) }
    ensures not_both { (bytes : List ℕ) (g : GraphValue) (c i : ℕ) (why : Why) → ReadsText bytes g c → IsFault bytes i why → ⊥ }
{}

/// The same for a text behind whose `end` line nothing but blank lines and comments follows.
pub fn one_reading_alone()
    ensures one_text { (bytes : List ℕ) (g h : GraphValue) → IsTextAlone bytes g → IsTextAlone bytes h → g ≡ h }
    ensures one_fault { (bytes : List ℕ) (i j : ℕ) (why other : Why) → IsFaultAlone bytes i why → IsFaultAlone bytes j other → (i ≡ j) × (why ≡ other) }
    ensures not_both { (bytes : List ℕ) (g : GraphValue) (i : ℕ) (why : Why) → IsTextAlone bytes g → IsFaultAlone bytes i why → ⊥ }
{}

/// The plain text of a graph within the limits of a text, whatever follows it, reads as the graph
/// and ends where it ends.
pub fn plain_text_reads_back()
    ensures front { (g : GraphValue) (rest : List ℕ) → IsGraph g → IsWithinSize g → HasFewCosts g → ReadsText (plain_text g ++ rest) g (length (plain_text g)) }
    ensures alone { (g : GraphValue) → IsGraph g → IsWithinSize g → HasFewCosts g → IsTextAlone (plain_text g) g }
{}
