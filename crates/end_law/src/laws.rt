//! Laws on how many entries and Learns a legal trace has.
ghost use Rattle.std.specs.Prelude.{◌≤◌, ℕ, List, length};
ghost use Rattle.pseudo_time.specs.StampParts.{StampParts};
ghost use Rattle.stream_port.specs.declared.fates.Asked.{Asked};
ghost use Rattle.serial_model.specs.Questions.{Tree};
ghost use Rattle.plan_form.specs.declared.plans.Plan.{Plan};
ghost use Rattle.world_core.specs.declared.traces.Trace.{Trace};
ghost use Rattle.world_core.specs.Legal.{Legal, base_of};
ghost use Rattle.end_law.specs.Bounds.{AllDecided, LearnsAreNew, entries_by, learn_count, learns_by};

/// A legal trace, over whatever logs, has no more entries than its copies, its nodes, its Ticks, its
/// crashes and its Learns allow.
pub fn few_entries()
    ensures { (script : List ℕ → Tree) (plan : Plan) (asked : List Asked) (t : Trace) → Legal script plan asked t →
        length t.entries ≤ entries_by t }
{}

/// Where each Learn is new, there are no more than each node for each of these decided attempts, and one
/// more for each crash.
pub fn few_learns()
    ensures { (script : List ℕ → Tree) (plan : Plan) (asked : List Asked) (t : Trace) (decided : List StampParts) →
        Legal script plan asked t → LearnsAreNew (base_of script plan t) t.entries →
        AllDecided (base_of script plan t) t.entries decided → learn_count t.entries ≤ learns_by t decided }
{}
