//! The nodes of a run are opened with their passes, and taken apart.
ghost use Rattle.std.specs.Prelude.{◌≡◌, ◌≤◌, ◌<◌, [], ◌∷◌, ◌++◌, length, map, vec_len, vec_capacity, true, false, IsTrue, All, Some, IfOk, IfErr};
ghost use Rattle.effect_form.specs.Effects.{AreEffects};
ghost use Rattle.plan_form.specs.PlanTexts.{CanRun};
ghost use Rattle.version_store.specs.StoreWords.{medium_of, effects_in};
ghost use Rattle.seat_lock.specs.Words.{knows};
ghost use Rattle.world_core.specs.Legal.{in_plan};
ghost use Rattle.node_rounds.specs.TurnNodes.{IsAtRest, new_node};
ghost use Rattle.run_media.specs.Openings.{medium_in};
ghost use Rattle.run_media.specs.Places as order;
ghost use Rattle.run_starts.specs.Seats.{Along, CanOpen, CanSeat, IsNewNode};

use effect_form::Effect;
use medium_port::Medium;
use node_rounds::{AnyNode, RunNode, WirePass, open_broker, open_repository};
use plan_form::Plan;
use pseudo_time::{NodeId, NodeKind};
use run_media::{Opening, node_at, own_acts};
use std::alloc::{AllocError, Global};
use stream_port::{Clock, Fates};
use version_store::Store;

// A node that was opened, with its pass.
fn node_of<F: Fates, C: Clock, M: Medium>(
    alloc: Global,
    plan: &Plan,
    start: u64,
    node: NodeId,
    store: Store<M>,
    effects: Vec<Effect>,
    pass: WirePass<F, C, M>,
) -> Result<RunNode<F, C, M>, (M, WirePass<F, C, M>, AllocError)>
    requires plan { CanRun plan.now }
    requires node { in_plan plan.now node ≡ true }
    requires can { CanOpen plan.now start node effects.items (knows pass) }
    requires open { M.is_failed (medium_of store) ≡ false }
    requires log { IsTrue M.tells → effects_in M.reads store ≡ effects.items }
    requires in_range { AreEffects effects.items }
    ensures new { IfOk result (λ n. n ≡ new_node node pass (medium_of store)) }
    ensures err { IfErr result (λ e. (e.0 ≡ medium_of store) × (e.1 ≡ pass)) }
{
    match node.kind {
        NodeKind::Repository => {
            match open_repository(alloc, node.number, start, store, effects.as_slice(), pass) {
                Ok(node) => Ok(RunNode {
                    kind: AnyNode::Repository(node),
                }),
                Err(refused) => Err(refused),
            }
        }
        NodeKind::Broker => {
            let Ok(acts) = own_acts(alloc, node.number, plan.acts.as_slice()) else {
                return Err((store.release(), pass, AllocError));
            };
            match open_broker(
                alloc,
                node.number,
                plan.run,
                acts,
                store,
                effects.as_slice(),
                pass,
            ) {
                Ok(node) => Ok(RunNode {
                    kind: AnyNode::Broker(node),
                }),
                Err(refused) => Err(refused),
            }
        }
    }
}

/// Takes the nodes apart: their media and their passes, in their order, in emptied lists that have
/// room for them.
pub fn take_apart<F: Fates, C: Clock, M: Medium>(
    mut nodes: Vec<RunNode<F, C, M>>,
    media: Vec<Option<M>>,
    passes: Vec<WirePass<F, C, M>>,
) -> (Vec<Option<M>>, Vec<WirePass<F, C, M>>)
    requires empty { (media.items ≡ []) × (passes.items ≡ []) }
    requires room { (vec_len nodes ≤ vec_capacity media) × (vec_len nodes ≤ vec_capacity passes) }
    ensures media { result.0.items ≡ map (λ n. Some n.medium) nodes.items }
    ensures passes { result.1.items ≡ map (λ n. n.pass) nodes.items }
    ensures rest { All (IsAtRest M.Medium) nodes.items }
    ensures room { (vec_capacity result.0 ≡ vec_capacity media) × (vec_capacity result.1 ≡ vec_capacity passes) }
{
    let Some(node) = nodes.pop() else {
        nodes.destroy_empty();
        return (media, passes);
    };
    let (mut media, mut passes) = take_apart(nodes, media, passes);
    let RunNode { kind } = node;
    let (medium, pass) = match kind {
        AnyNode::Repository(node) => node.release(),
        AnyNode::Broker(node) => node.release(),
    };
    media.push_reserved(Some(medium));
    passes.push_reserved(pass);
    (media, passes)
}

/// What came of opening a run's nodes: all of them, or, where memory ran out, their media and their
/// passes. None of them is let go.
pub struct Seated<F: Fates, C: Clock, M: Medium> {
    pub nodes: Vec<RunNode<F, C, M>>,
    pub media: Vec<Option<M>>,
    pub passes: Vec<WirePass<F, C, M>>,
    /// Each node was opened.
    pub is_whole: bool,
}

// One node more, unless memory ran out before.
fn seat<F: Fates, C: Clock, M: Medium>(
    alloc: Global,
    plan: &Plan,
    start: u64,
    place: usize,
    opening: Opening<M>,
    pass: WirePass<F, C, M>,
    seated: Seated<F, C, M>,
) -> Seated<F, C, M>
    requires plan { CanRun plan.now }
    requires place { place < order.node_count plan.now }
    requires can { CanSeat M.Medium plan.now start place opening pass }
    requires whole { seated.is_whole ≡ true → (vec_len seated.nodes ≡ place) ×
        (vec_len seated.nodes < vec_capacity seated.nodes) ×
        (seated.media.items ≡ []) × (seated.passes.items ≡ []) }
    requires back { seated.is_whole ≡ false → (vec_len seated.media ≡ place) × (vec_len seated.passes ≡ place) }
    requires room { (place < vec_capacity seated.media) × (place < vec_capacity seated.passes) }
    ensures new { result.is_whole ≡ true → (seated.is_whole ≡ true) ×
        ((n : _) × (result.nodes.items ≡ seated.nodes.items ++ n ∷ []) × IsNewNode plan.now place opening n ×
        (n.pass ≡ pass)) }
    ensures emptied { result.is_whole ≡ true → (result.media.items ≡ []) × (result.passes.items ≡ []) }
    ensures back { result.is_whole ≡ false → seated.is_whole ≡ true →
        (result.media.items ≡ map (λ n. Some n.medium) seated.nodes.items ++ medium_in opening ∷ []) ×
        (result.passes.items ≡ map (λ n. n.pass) seated.nodes.items ++ pass ∷ []) }
    ensures more { result.is_whole ≡ false → seated.is_whole ≡ false →
        (result.media.items ≡ seated.media.items ++ medium_in opening ∷ []) ×
        (result.passes.items ≡ seated.passes.items ++ pass ∷ []) }
    ensures room { (vec_capacity result.media ≡ vec_capacity seated.media) ×
        (vec_capacity result.passes ≡ vec_capacity seated.passes) }
    ensures room_left { result.is_whole ≡ true → vec_capacity result.nodes ≡ vec_capacity seated.nodes }
    ensures none { result.is_whole ≡ false → (seated.is_whole ≡ false → vec_len seated.nodes ≡ 0) →
        vec_len result.nodes ≡ 0 }
{
    let Seated {
        mut nodes,
        mut media,
        mut passes,
        is_whole,
    } = seated;
    if !is_whole {
        media.push_reserved(opening.release());
        passes.push_reserved(pass);
        return Seated {
            nodes,
            media,
            passes,
            is_whole: false,
        };
    }
    let Opening::Open(store, effects) = opening else {
        unreachable!()
    };
    let name = node_at(plan, place);
    match node_of(alloc, plan, start, name, store, effects, pass) {
        Ok(node) => {
            nodes.push_reserved(node);
            Seated {
                nodes,
                media,
                passes,
                is_whole: true,
            }
        }
        Err((medium, pass, _)) => {
            let (mut media, mut passes) = take_apart(nodes, media, passes);
            media.push_reserved(Some(medium));
            passes.push_reserved(pass);
            Seated {
                nodes: Vec::new(alloc),
                media,
                passes,
                is_whole: false,
            }
        }
    }
}

/// Opens the nodes of what was opened, each with its pass, in their order. The emptied lists have room
/// for them.
pub fn open_nodes<F: Fates, C: Clock, M: Medium>(
    alloc: Global,
    plan: &Plan,
    start: u64,
    mut openings: Vec<Opening<M>>,
    mut passes: Vec<WirePass<F, C, M>>,
    nodes: Vec<RunNode<F, C, M>>,
    media: Vec<Option<M>>,
) -> Seated<F, C, M>
    requires plan { CanRun plan.now }
    requires count { length openings.items ≤ order.node_count plan.now }
    requires can { Along (CanSeat M.Medium plan.now start) 0 openings.items passes.items }
    requires empty { (nodes.items ≡ []) × (media.items ≡ []) }
    requires room { (vec_len openings ≤ vec_capacity nodes) × (vec_len openings ≤ vec_capacity media) }
    ensures new { result.is_whole ≡ true → Along (IsNewNode plan.now) 0 openings.items result.nodes.items }
    ensures passes { result.is_whole ≡ true → map (λ n. n.pass) result.nodes.items ≡ passes.items }
    ensures emptied { result.is_whole ≡ true → (result.media.items ≡ []) × (result.passes.items ≡ []) }
    ensures back { result.is_whole ≡ false → (result.media.items ≡ map medium_in openings.items) ×
        (result.passes.items ≡ passes.items) }
    ensures room { (vec_capacity result.media ≡ vec_capacity media) ×
        (vec_capacity result.passes ≡ vec_capacity passes) }
    ensures room_left { result.is_whole ≡ true → vec_capacity result.nodes ≡ vec_capacity nodes }
    ensures none { result.is_whole ≡ false → vec_len result.nodes ≡ 0 }
{
    let Some(opening) = openings.pop() else {
        openings.destroy_empty();
        return Seated {
            nodes,
            media,
            passes,
            is_whole: true,
        };
    };
    let Some(pass) = passes.pop() else {
        unreachable!()
    };
    let place = openings.len();
    let seated = open_nodes(alloc, plan, start, openings, passes, nodes, media);
    seat(alloc, plan, start, place, opening, pass, seated)
}
