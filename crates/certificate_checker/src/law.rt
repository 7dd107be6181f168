ghost use Rattle.std.specs.Prelude.{◌≡◌, ◌≢◌, ℕ, List};
ghost use Rattle.graph_core.specs.Graph.{GraphValue, IsGraph};
ghost use Rattle.certificate_checker.specs.Accepted.{IsAccepted};
ghost use Rattle.certificate_checker.specs.Reason.{IsReason};
ghost use Rattle.certificate_checker.specs.declared.rejection.Rejection as rejections;
ghost use Rattle.certificate_checker.specs.declared.rejection.Rejection.TheVariants.{NoMemory};

/// No text is accepted and rejected, or rejected for two reasons, want of memory aside.
pub fn one_answer()
    ensures accepted_alone { (g : GraphValue) (bytes : List ℕ) (why : rejections.Rejection) → IsGraph g → IsAccepted g bytes → IsReason g bytes why → why ≡ NoMemory }
    ensures one_reason { (g : GraphValue) (bytes : List ℕ) (why other : rejections.Rejection) → IsGraph g → IsReason g bytes why → IsReason g bytes other → why ≢ NoMemory → other ≢ NoMemory → why ≡ other }
{}
