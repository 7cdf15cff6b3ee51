//! Laws of copies: none appears from nowhere, and none is forgotten.
ghost use Rattle.std.specs.Prelude.{◌≡◌, ◌<◌, ◌&&◌, not, ℕ, List, [], ◌∷◌, Some, map, slice_get, is_some};
ghost use Rattle.std.specs.List.{list_any};
ghost use Rattle.pseudo_time.specs.Nodes.{same_node};
ghost use Rattle.stream_port.specs.declared.fates.Fate.{Fate};
ghost use Rattle.stream_port.specs.Fates.{copies_of};
ghost use Rattle.message_core.specs.declared.letters.Letter.{Letter};
ghost use Rattle.message_form.specs.Posts.{Post};
ghost use Rattle.message_form.specs.declared.messages.Message.{Message};
ghost use Rattle.message_form.specs.Messages.{IsMessage, message_bytes};
ghost use Rattle.message_core.specs.Senders.{letter_of, AllInRange};
ghost use Rattle.pseudo_time.specs.declared.nodes.NodeId.{NodeId};
ghost use Rattle.message_core.specs.Flights.{State, Call, step, start, flown, waiting, sent, taken, passed, was_shut};
ghost use Rattle.message_core.specs.Tallies.{Tally, Posted, Tallied, IsDue, count, noted, blank_tally, all_noted};

use message_form::messages_apart;

/// A law: how many copies of each message are due, held or given up follows from counts alone, which
/// are the copies of its fate, the ticks since its sending, how often it was taken, and whether its
/// node is up. A front copy is due and was taken fewer times than its message has copies; where a
/// queue is empty, all copies that are due were taken.
pub fn copies_counted()
    ensures start { (nodes : List NodeId) → Tallied (start nodes) blank_tally }
    ensures step { (s : State) (l : Tally) (call : Call) → Tallied s l → Tallied (step s call) (noted s l call) }
    ensures front { (s : State) (l : Tally) → Tallied s l → (n : NodeId) (k : ℕ) (rest : List ℕ) →
        waiting s n ≡ k ∷ rest → (x : Posted) × IsDue s l n k x ×
        (count k l.taken < copies_of x.fate) }
    ensures empty { (s : State) (l : Tally) → Tallied s l → (n : NodeId) (k : ℕ) (x : Posted) →
        s.queues n ≡ Some [] → IsDue s l n k x →
        count k l.taken ≡ copies_of x.fate }
    ensures whole { (nodes : List NodeId) (calls : List Call) →
        Tallied (flown (start nodes) calls) (all_noted (start nodes) blank_tally calls) }
{}

/// A law: just the nodes of the run have a queue, each until it is shut.
pub fn queues_stay()
    ensures start { (nodes : List NodeId) (n : NodeId) →
        is_some ((start nodes).queues n) ≡ list_any (λ m. same_node m n) nodes }
    ensures sent { (s : State) (letter : Letter) (fate : Fate) (n : NodeId) →
        is_some ((sent s letter fate).queues n) ≡ is_some (s.queues n) }
    ensures taken { (s : State) (node n : NodeId) → is_some ((taken s node).queues n) ≡ is_some (s.queues n) }
    ensures passed { (s : State) (n : NodeId) → is_some ((passed s).queues n) ≡ is_some (s.queues n) }
    ensures shut { (s : State) (node n : NodeId) →
        is_some ((was_shut s node).queues n) ≡ (is_some (s.queues n) && not (same_node node n)) }
{}

/// A law: where the texts are those of these messages, the letter with a message's text is that of
/// this very message. So a taken copy's message is the one of its number among the messages sent.
pub fn copies_were_sent()
    ensures { (posts : List Post) (place : ℕ) (from to : NodeId) (message : Message) →
        AllInRange posts → IsMessage message
        → slice_get (map letter_of posts) place ≡ Some (record { from = from; to = to; text = message_bytes message })
        → slice_get posts place ≡ Some (record { from = from; to = to; message = message }) }
{
    messages_apart();
}
