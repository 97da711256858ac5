//! Laws of the checker. Each is the contract of a function that does nothing.
ghost use Rattle.std.specs.Prelude.{◌≡◌, ◌↔◌, ℕ, List};
ghost use Rattle.std.specs.List.{AllByRecursion};
ghost use Rattle.task_sheet.specs.Sheet.{Task};
ghost use Rattle.task_sheet.specs.TaskSet.{IsTaskSet};
ghost use Rattle.task_sheet.specs.Verdicts.{VerdictData, IsVerdictOf};
ghost use Rattle.chain_tables.specs.Chains.{ChainData, HasChains};
ghost use Rattle.certificate.specs.Body.{Cert, CertLevelData, Best};
ghost use Rattle.certificate.specs.CertificateOf.{certificate_of};
ghost use Rattle.cert_checker.specs.Ready.{IsReady, levels_of};
ghost use Rattle.cert_checker.specs.Bounded.{AreBounded};
ghost use Rattle.cert_checker.specs.CertificateFaults.{check_fault};
ghost use Rattle.cert_checker.specs.Answers.{IsAccepted};
ghost use Rattle.cert_checker.specs.Numbers.{IsChainOf, numbers_of};

/// A certificate has no fault exactly where it is ready.
pub fn faultless_is_ready()
    ensures { (U : List Task) (chains : List ChainData) (c : Cert)
        → (check_fault U chains c ≡ None) ↔ IsReady U chains c }
{}

/// The chains that a set's text says are chains of its tasks.
pub fn chains_are_the_sets()
    ensures { (text : List ℕ) (U : List Task) (chains : List ChainData) → HasChains text U chains
        → AllByRecursion (IsChainOf U) chains }
{}

/// The certificate of each verdict, with each chain's bound in its order, is written, read back and accepted.
pub fn verdict_is_accepted()
    ensures { (U : List Task) (chains : List ChainData) (v : VerdictData) → IsTaskSet U
        → AllByRecursion (IsChainOf U) chains → IsVerdictOf U v
        → IsAccepted U chains v (certificate_of U v (numbers_of U chains v)) }
{}

/// In an accepted certificate of an order the number of each chain bounds each of its ages and reactions, in each run of
/// the kernel in that order in which its tasks act and are steady, whoever wrote it. It takes no analysis: the levels'
/// numbers show that the tasks pass.
pub fn numbers_are_bounds()
    ensures { (U : List Task) (chains : List ChainData) (c : Cert) (levels : List CertLevelData)
        → IsTaskSet U → IsReady U chains c → c.body ≡ Best levels
        → AreBounded U (levels_of U levels) chains c.chains }
{}
