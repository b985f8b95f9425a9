//! What ties the operations of a native loglet to the quorum cell that it is. Each function does
//! nothing: its contract is the law.
ghost use Rattle.std.specs.Prelude.{◌≡◌, ℕ, ◌<◌, ◌≤◌, Bool, true, List, length, get_or, Some, sum_by};
ghost use Rattle.std.specs.List.{list_any};
ghost use Rattle.quorum_cell.specs.declared.message.Reply.{Reply};
ghost use Rattle.quorum_cell.specs.declared.message.Told.{Told};
ghost use Rattle.quorum_cell.specs.Servers.{Server};
ghost use Rattle.quorum_cell.specs.Cells.{Cell, Operation, server_before};
ghost use Rattle.quorum_cell.specs.Law.{QuorumLaw};
ghost use Rattle.quorum_cell.specs.Tallies.{gives_entry};
ghost use Rattle.native_plan.specs.declared.aims.Aims as aims;
ghost use Rattle.native_plan.specs.declared.member.Member as members;
ghost use Rattle.native_plan.specs.declared.message.Errand as errands;
ghost use Rattle.native_plan.specs.declared.message.Message.TheVariants.{Told as Answered};
ghost use Rattle.native_plan.specs.declared.message.Phase as phases;
ghost use Rattle.native_plan.specs.Members.{no_member, heard_by, left_to, most_tries};
ghost use Rattle.native_plan.specs.Plans.{is_done, errand_of, sent_on, end_of, judged};
ghost use Rattle.native_plan.specs.Course.{Knows, Comes, ToldWell, IsPlanned, EndsRead, IsOnCourse, IsAllowed, with_reply};

/// Whatever an operation comes to by what it knows, its cell allows. While it goes on, it is in the
/// same phase or in one that follows, and some server is wanted that isn't given up.
pub fn verdicts_are_allowed()
    ensures { (cell : Cell) (operation : Operation) (aims : aims.Aims) (ms : List members.Member) (got : Bool) → QuorumLaw cell → IsOnCourse cell operation aims ms
        → (got ≡ true → list_any (gives_entry aims.place) operation.heard ≡ true)
        → IsAllowed cell operation aims ms got (judged aims.phase aims.want aims.cut aims.firm aims.place got ms) }
{}

/// What an operation notes of an answer is what its tally in the cell shows once the answer came
/// there; of the other servers it knows what it knew.
pub fn answers_are_noted()
    ensures heard { (server : Server) (operation : Operation) (i : ℕ) (m : members.Member) (reply : Reply) (cut want : ℕ) (phase : phases.Phase) (errand : errands.Errand) (told : Told)
        → Knows server operation i m → operation.want ≡ want → Comes server operation i m reply errand told → ToldWell (server_before operation i) cut phase want m errand told
        → Knows server (with_reply operation reply) i (heard_by want errand told m) }
    ensures others { (server : Server) (operation : Operation) (reply : Reply) (i : ℕ) (m : members.Member) → (reply.server ≡ i → ⊥)
        → Knows server operation i m → Knows server (with_reply operation reply) i m }
{}

/// With each answer that comes less is left to do of its server, once the next message is sent,
/// unless the answer ends a Read; and where less is left of one server and no more of the others,
/// less is left of all.
pub fn work_falls()
    ensures heard { (before : Server) (cut want place i : ℕ) (m : members.Member) (phase : phases.Phase) (later : ℕ) (errand : errands.Errand) (told : Told)
        → m.message ≡ Some (Answered errand told) → m.losses < most_tries → IsPlanned phase cut want place m errand → ToldWell before cut phase want m errand told → (EndsRead errand told → ⊥)
        → let now = heard_by want errand told m in
        left_to (end_of phase want) (sent_on (is_done phase want i now) (errand_of phase later want place now) now) < left_to (end_of phase want) m }
    ensures all { (f : members.Member → ℕ) (old new : List members.Member) (i : ℕ) → length new ≡ length old
        → ((j : ℕ) → j < length old → f (get_or new j no_member) ≤ f (get_or old j no_member)) → i < length old → f (get_or new i no_member) < f (get_or old i no_member)
        → sum_by f new < sum_by f old }
{}
