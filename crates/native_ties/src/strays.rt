//! What ties messages that come again to their cell. Each function does nothing: its contract is the
//! law.
ghost use Rattle.std.specs.Prelude.{◌≡◌, ℕ, ◌<◌, List, ◌&&◌, ◌++◌, ◌∷◌, [], true, false, if◌then◌else◌, length, get_or, Some, None};
ghost use Rattle.loglet_api.specs.Step.{IsAtMost};
ghost use Rattle.quorum_cell.specs.declared.message.Ask.{Ask};
ghost use Rattle.quorum_cell.specs.declared.message.Told.{Told};
ghost use Rattle.quorum_cell.specs.declared.message.Told.TheVariants.{DiskFault};
ghost use Rattle.quorum_cell.specs.declared.operation.CellStep.TheVariants.{RequestComes, RequestStops};
ghost use Rattle.quorum_cell.specs.Servers.{told, writes, written};
ghost use Rattle.quorum_cell.specs.Cells.{Cell, server};
ghost use Rattle.quorum_cell.specs.Law.{QuorumLaw, Later};
ghost use Rattle.native_plan.specs.declared.pending.Pending as pending;
ghost use Rattle.native_plan.specs.declared.message.Errand as errands;
ghost use Rattle.native_plan.specs.declared.message.Message.TheVariants.{Told as Answered};
ghost use Rattle.native_plan.specs.Members.{no_member};
ghost use Rattle.native_plan.specs.Pendings.{left_now};
ghost use Rattle.native_plan.specs.Strays.{errand_in, is_asked, HearsAgain};
ghost use Rattle.native_ties.specs.Parts.{IsPartOf, Extends};
ghost use Rattle.native_ties.specs.Steps.{GoesAs};
ghost use Rattle.native_ties.specs.Strays.{IsRequest, IsReply, HearsBy, GoesAgain, ComesAgain, ComesTo};

/// A reply of the cell that comes again to an undecided operation takes the step by which that reply
/// comes in the cell, and then the operation is decided or goes on, as after any answer. A Read
/// hears only servers that it has asked: else nothing comes of it.
pub fn replies_come_again()
    ensures heard { (cell : Cell) (k t i : ℕ) (errand : errands.Errand) (told : Told) (p new : pending.Pending) → QuorumLaw cell → IsPartOf cell t p → p.outcome ≡ None → i < length cell.servers
        → IsReply cell k t i errand told → is_asked p.phase i ≡ true → HearsAgain cell.cut i errand told p new → GoesAgain cell k t new }
    ensures goes { (cell : Cell) (k t i : ℕ) (errand : errands.Errand) (told : Told) (p new : pending.Pending) → QuorumLaw cell → IsPartOf cell t p → p.outcome ≡ None → i < length cell.servers
        → IsReply cell k t i errand told → HearsAgain cell.cut i errand told p new → GoesAs cell t cell.faults new (HearsBy (is_asked p.phase i) t k) }
{}

/// A request of the cell that comes again to its server takes the step by which it comes in the cell:
/// the server answers by its table, or its disk fails in the write that the table wants, and it is
/// down. The answer comes to the operation, where that is undecided, and leaves no more to do of it.
pub fn requests_come_again()
    ensures answered { (cell : Cell) (k t i : ℕ) (ask : Ask) (p new : pending.Pending) → QuorumLaw cell → IsPartOf cell t p → p.outcome ≡ None → i < length cell.servers
        → IsRequest cell k t i ask → HearsAgain cell.cut i (errand_in ask) (told (server cell i) ask) p new
        → ComesAgain cell (RequestComes k) t i (if (server cell i).up then written (server cell i) ask else server cell i) cell.faults p new }
    ensures failed { (cell : Cell) (k t i : ℕ) (ask : Ask) (p new : pending.Pending) → QuorumLaw cell → IsPartOf cell t p → p.outcome ≡ None → i < length cell.servers
        → IsRequest cell k t i ask → ((server cell i).up && writes (server cell i) ask) ≡ true → HearsAgain cell.cut i (errand_in ask) DiskFault p new
        → ComesAgain cell (RequestStops k) t i (record (server cell i) { up = false; torn = Some ask }) (cell.faults ++ i ∷ []) p new }
    ensures dropped { (cell : Cell) (k t i : ℕ) (ask : Ask) → IsRequest cell k t i ask
        → ComesTo cell (RequestComes k) i (if (server cell i).up then written (server cell i) ask else server cell i) cell.faults }
    ensures stopped { (cell : Cell) (k t i : ℕ) (ask : Ask) → IsRequest cell k t i ask → ((server cell i).up && writes (server cell i) ask) ≡ true
        → ComesTo cell (RequestStops k) i (record (server cell i) { up = false; torn = Some ask }) (cell.faults ++ i ∷ []) }
{}

/// No message that comes again raises what is left to do of an operation.
pub fn no_more_is_left()
    ensures { (cell : Cell) (k t i : ℕ) (errand : errands.Errand) (told : Told) (p new : pending.Pending) → QuorumLaw cell → IsPartOf cell t p → p.outcome ≡ None → i < length cell.servers
        → IsReply cell k t i errand told → HearsAgain cell.cut i errand told p new → IsAtMost (left_now new) (left_now p) }
{}

/// An answer on its way to an undecided operation is a reply of its cell, so a copy of it may come
/// again; and what is a message of the cell is one in each later cell.
pub fn copies_are_messages()
    ensures reply { (cell : Cell) (t i : ℕ) (errand : errands.Errand) (told : Told) (p : pending.Pending) → IsPartOf cell t p → p.outcome ≡ None → i < length cell.servers
        → (get_or p.members.items i no_member).message ≡ Some (Answered errand told) → (k : ℕ) × IsReply cell k t i errand told }
    ensures requests { (cell later : Cell) (k t i : ℕ) (ask : Ask) → Extends cell later → IsRequest cell k t i ask → IsRequest later k t i ask }
    ensures replies { (cell later : Cell) (k t i : ℕ) (errand : errands.Errand) (told : Told) → QuorumLaw cell → Later cell later → Extends cell later
        → IsReply cell k t i errand told → IsReply later k t i errand told }
{}
