ghost use Rattle.std.specs.Prelude.{◌≡◌, ℕ, ◌++◌, [], List, length};
ghost use Rattle.graph_core.specs.Graph.{GraphValue, IsGraph};
ghost use Rattle.problem_defs.specs.Shaped.{IsShaped};
ghost use Rattle.problem_defs.specs.declared.cert.Cert.{Cert};
ghost use Rattle.certificate_text.specs.Text.{text};
ghost use Rattle.certificate_text.specs.Front.{IsAtFront};
ghost use Rattle.certificate_text.specs.BadLine.{IsBad};

/// At the front of a text there is at most one certificate text, and of at most one certificate.
pub fn one_certificate()
    ensures { (g : GraphValue) (a b : Cert) (r s : List ℕ) → IsGraph g → IsShaped g a → IsShaped g b → text g a ++ r ≡ text g b ++ s → a ≡ b }
{}

/// No certificate text is the beginning of another one.
pub fn no_prefix()
    ensures { (g : GraphValue) (a b : Cert) (more : List ℕ) → IsGraph g → IsShaped g a → IsShaped g b → text g b ≡ text g a ++ more → more ≡ [] }
{}

/// What was written is read back, whatever follows.
pub fn reads_back()
    ensures found { (g : GraphValue) (cert found : Cert) (rest : List ℕ) (count : ℕ) → IsGraph g → IsShaped g cert → IsAtFront g (text g cert ++ rest) found count → (found ≡ cert) × (count ≡ length (text g cert)) }
    ensures never_bad { (g : GraphValue) (cert : Cert) (rest : List ℕ) (line : ℕ) → IsShaped g cert → IsBad g (text g cert ++ rest) line → ⊥ }
{}
