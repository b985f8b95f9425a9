//! What ties open operations to their cell. Each function does nothing: its contract is the law.
ghost use Rattle.std.specs.Prelude.{◌≡◌, ℕ, ◌<◌, ◌≤◌, ◌+◌, ◌*◌, ◌^◌, List, ◌&&◌, ◌++◌, ◌∷◌, [], true, false, if◌then◌else◌, length, get_or, Some, None};
ghost use Rattle.quorum_cell.specs.declared.message.Ask.{Ask};
ghost use Rattle.quorum_cell.specs.declared.message.Told.TheVariants.{DiskFault};
ghost use Rattle.quorum_cell.specs.Servers.{told, writes, written};
ghost use Rattle.quorum_cell.specs.Steps.{ask_for, admit, cut_after};
ghost use Rattle.quorum_cell.specs.declared.message.Told.{Told};
ghost use Rattle.quorum_cell.specs.Cells.{Cell, operation, server};
ghost use Rattle.quorum_cell.specs.Law.{QuorumLaw, Later};
ghost use Rattle.quorum_cell.specs.declared.operation.Aim as aims;
ghost use Rattle.loglet_api.specs.Step.{IsBelow};
ghost use Rattle.cell_views.specs.Views.{op_of};
ghost use Rattle.native_plan.specs.declared.member.Member as members;
ghost use Rattle.native_plan.specs.declared.pending.Pending as pending;
ghost use Rattle.native_plan.specs.declared.pending.Start as starts;
ghost use Rattle.native_plan.specs.declared.message.Errand as errands;
ghost use Rattle.native_plan.specs.declared.message.Message.TheVariants.{Asked, Told as Answered};
ghost use Rattle.native_plan.specs.Members.{no_member, is_out, due_of};
ghost use Rattle.native_plan.specs.Pendings.{left_now, Begins, Answers, Hears, Loses};
ghost use Rattle.native_ties.specs.Parts.{StartsIn, AreKnown, Extends, IsPartOf, IsAllowed, IsBounded, wish_of};
ghost use Rattle.native_ties.specs.Steps.{GoesAs, AnswersAs, IsAnswer, IsRequest, IsStop, IsLoss};

/// What an open operation is in its cell it is in each later one that leaves it alone.
pub fn parts_stay()
    ensures { (cell later : Cell) (t : ℕ) (p : pending.Pending) → Later cell later → Extends cell later → operation later t ≡ operation cell t
        → IsPartOf cell t p → IsPartOf later t p }
{}

/// An operation that begins is a part of the cell that admits it, where it notes what holds of the
/// cell, and knows of each server no more than a length that it has. The servers are 1, 3, 5 or 7.
pub fn operations_begin()
    ensures { (cell : Cell) (aim : aims.Aim) (start : starts.Start) (known : List members.Member) (p : pending.Pending) → QuorumLaw cell
        → (k : ℕ) → length cell.servers ≡ 2 * k + 1 → length cell.servers ≤ 7 → StartsIn cell aim start → AreKnown cell known
        → Begins (op_of aim) start (cut_after cell aim) known p → IsPartOf (admit cell aim) (length cell.operations) p }
{}

/// An operation that hears an answer, and then is decided or sends on, takes these steps of its cell: the
/// answer of this server to this errand comes, and where the operation is decided the cell decides so. So whatever cell it was a
/// part of, it is a part of one that steps lead to.
pub fn answers_come()
    ensures { (cell : Cell) (t i : ℕ) (p new : pending.Pending) (errand : errands.Errand) (told : Told) → QuorumLaw cell → IsPartOf cell t p → p.outcome ≡ None → i < length cell.servers
        → (get_or p.members.items i no_member).message ≡ Some (Answered errand told) → Hears cell.cut i errand told p new → GoesAs cell t cell.faults new (IsAnswer cell t i errand told) }
{}

/// A request of an operation that comes to its server takes two steps of the cell: it is sent, and comes.
/// What is asked is the errand as the cell has it: its own entry, or, where that is below its cut, a trim to its cut. The server
/// answers by its table, or its disk fails in the write that the table wants, and it is down; and
/// the answer is on its way.
pub fn requests_come()
    ensures answered { (cell : Cell) (t i : ℕ) (p new : pending.Pending) (errand : errands.Errand) (ask : Ask) → QuorumLaw cell → IsPartOf cell t p → p.outcome ≡ None → i < length cell.servers
        → (get_or p.members.items i no_member).message ≡ Some (Asked errand) → ask_for cell (operation cell t) (wish_of (due_of cell.cut errand)) ≡ Some ask
        → Answers i (due_of cell.cut errand) (told (server cell i) ask) p new
        → AnswersAs cell t i (if (server cell i).up then written (server cell i) ask else server cell i) cell.faults new (IsRequest cell t i (due_of cell.cut errand)) }
    ensures failed { (cell : Cell) (t i : ℕ) (p new : pending.Pending) (errand : errands.Errand) (ask : Ask) → QuorumLaw cell → IsPartOf cell t p → p.outcome ≡ None → i < length cell.servers
        → (get_or p.members.items i no_member).message ≡ Some (Asked errand) → ask_for cell (operation cell t) (wish_of (due_of cell.cut errand)) ≡ Some ask
        → ((server cell i).up && writes (server cell i) ask) ≡ true → Answers i (due_of cell.cut errand) DiskFault p new
        → AnswersAs cell t i (record (server cell i) { up = false; torn = Some ask }) (cell.faults ++ i ∷ []) new (IsStop cell t i (due_of cell.cut errand)) }
{}

/// A request of an operation may be sent: its cell lets the operation ask just what the errand says, and a trim
/// in place of an entry below the cut.
pub fn requests_are_allowed()
    ensures { (cell : Cell) (t i : ℕ) (p : pending.Pending) (errand : errands.Errand) → IsPartOf cell t p → p.outcome ≡ None → i < length cell.servers
        → (get_or p.members.items i no_member).message ≡ Some (Asked errand) → IsAllowed cell t (due_of cell.cut errand) }
{}

/// A message of an operation that is lost takes these steps of the cell: it is sent, where it wasn't yet,
/// and one try of it, or of its answer, is lost, which is a fault of its server. Then the operation is
/// decided, or sends on.
pub fn messages_are_lost()
    ensures { (cell : Cell) (t i : ℕ) (p new : pending.Pending) → QuorumLaw cell → IsPartOf cell t p → p.outcome ≡ None → i < length cell.servers
        → is_out (get_or p.members.items i no_member) ≡ true → Loses cell.cut i p new → GoesAs cell t (cell.faults ++ i ∷ []) new (IsLoss cell t i (get_or p.members.items i no_member)) }
{}

/// With each message that moves less is left to do of an operation, the first number counting first.
/// While it is undecided something is left, within the bounds of every loglet.
pub fn less_is_left()
    ensures answered { (cell : Cell) (t i : ℕ) (p new : pending.Pending) (errand : errands.Errand) (told : Told) → IsPartOf cell t p → p.outcome ≡ None → i < length cell.servers
        → (get_or p.members.items i no_member).message ≡ Some (Asked errand) → Answers i (due_of cell.cut errand) told p new → IsBelow (left_now new) (left_now p) }
    ensures heard { (cell : Cell) (t i : ℕ) (p new : pending.Pending) (errand : errands.Errand) (told : Told) → QuorumLaw cell → IsPartOf cell t p → p.outcome ≡ None → i < length cell.servers
        → (get_or p.members.items i no_member).message ≡ Some (Answered errand told) → Hears cell.cut i errand told p new → IsBelow (left_now new) (left_now p) }
    ensures lost { (cell : Cell) (t i : ℕ) (p new : pending.Pending) → QuorumLaw cell → IsPartOf cell t p → p.outcome ≡ None → i < length cell.servers
        → is_out (get_or p.members.items i no_member) ≡ true → Loses cell.cut i p new → IsBelow (left_now new) (left_now p) }
    ensures bounded { (cell : Cell) (t : ℕ) (p : pending.Pending) → IsPartOf cell t p → p.outcome ≡ None → length cell.entries ≤ 2 ^ 32 → IsBounded (length cell.servers) p }
{}
