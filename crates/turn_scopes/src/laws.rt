//! Laws of those beside a user. Each function does nothing: its contract is the law.
ghost use Rattle.std.specs.Prelude.{◌≡◌, ◌≤◌, ◌++◌, ℕ, List};
ghost use Rattle.legal_journal.specs.declared.events.Event.{Event};
ghost use Rattle.legal_journal.specs.Journal.{IsLegal};
ghost use Rattle.turn_scopes.specs.Floors.{FloorIs};
ghost use Rattle.turn_scopes.specs.Beside.{AreBeside, OthersMay, OthersTrim};
ghost use Rattle.turn_scopes.specs.Telling.{UpTo, TellsUpTo};

use crate::access::Access;
use crate::terms::Scope;

/// A journal that is legal by a scope stays so, whatever those beside add to it by the rules.
pub fn others_keep_to_a_scope<A: Access, Q: Scope>()
    ensures { (who : ℕ) → Q.law.shelf ≡ A.Law.law.shelf → OthersMay (A.beside who) A.Law.law Q.law → OthersTrim (A.beside who) A.Law.law Q.law
        → (seen others : List Event) → AreBeside (A.beside who) others → IsLegal Q.law seen
        → IsLegal A.Law.law (seen ++ others) → IsLegal Q.law (seen ++ others) }
{}

/// As long as no entry says that a node leaves, or that it needs no more than a position above m, nobody may trim the log above m: so
/// a scope that ends there binds nobody beside.
pub fn own_reports_bound_every_trim<A: Access, Q: Scope>()
    ensures { (nodes node m who : ℕ) → FloorIs A.Law.law.floor nodes → 1 ≤ node → node ≤ nodes → TellsUpTo Q.law.may node m
        → OthersTrim (A.beside who) A.Law.law (record A.Law.law { may = Q.law.may; floor = UpTo A.Law.law.floor m }) }
{}
