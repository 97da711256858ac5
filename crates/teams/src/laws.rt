//! Laws of budgets, and of sets without a node. Each is the contract of a function that does nothing.
ghost use Rattle.std.specs.Prelude.{◌≡◌, ◌↔◌, ℕ, List, [], None, Ok};
ghost use Rattle.task_sheet.specs.declared.read.Document.{Document};
ghost use Rattle.teams.specs.Budgets.{budget_fault, IsWithin};
ghost use Rattle.teams.specs.Gathering.{ReadsGathered};
ghost use Rattle.teams.specs.Owned.{TeamSetData};
ghost use Rattle.teams.specs.ReadsText.{ReadsBounded, ReadsText, ReadsWritten, SaysNothing};
ghost use Rattle.teams.specs.declared.node.Budget.{Budget};

/// A budget has no fault exactly where its team has a document, its load in millionths is at most a thousand times the
/// limit, and its longest shared section is at most the limit.
pub fn kept_is_within()
    ensures { (sets : List TeamSetData) (b : Budget)
        → budget_fault sets b ≡ None ↔ IsWithin sets b }
{}

/// A set that is read behind a node's document which says nothing for all teams and lists no locks is the one that the
/// teams' documents are without it.
pub fn budgets_keep_set()
    ensures { (document text : List ℕ) (d : Document) → SaysNothing document
        → ReadsBounded document text (Ok d) → ReadsGathered text (Ok d) }
{}

/// Where no document says a node or interrupts, a set's text says the set that is written.
pub fn no_node_is_as_written()
    ensures { (text : List ℕ) (d : Document) → d.node ≡ None → d.interrupts.items ≡ []
        → ReadsText text (Ok d) ↔ ReadsWritten text (Ok d) }
{}
