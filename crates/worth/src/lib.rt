// A plan graph's worth: refused by 3, 5 and 6 of the tables or by 18, else the worth of a node at a state with the steps asked for.
#![tactic(auto)]

ghost use Rattle.std.specs.Prelude.{◌≡◌, ◌&&◌, ◌≤◌};
ghost use Rattle.tables.specs.Limits.{max_observations};
ghost use Rattle.tables.specs.Storage.{tables_in};
ghost use Rattle.tables.specs.Judged.{count_within};
ghost use Rattle.worths.specs.Limits.{max_nodes};
ghost use Rattle.worths.specs.Storage.{lent_graph, graph_stored};
ghost use Rattle.worth.specs.Judged.{asked_within, worth_verdict, worth_answer};

use levels::shape;
use refusals::{Refusal, Verdict};
use tables::{Counts, State, Vector, read};
use worths::{Graph, Node};

fn asked_within(nodes: usize, n: usize, v: Node, s: State, d: usize) -> bool
    ensures { result ≡ asked_within nodes n v.0 s.0 d }
{
    if nodes <= v.0 {
        return false;
    }
    if n <= s.0 {
        return false;
    }
    d <= Graph::STEPS
}

// The node count, and slices long enough for it.
fn nodes_within<'b>(actions: &'b [u8], next: &'b [u16], nodes: usize, k: usize) -> bool
    requires { k ≤ max_observations }
    ensures { result ≡ count_within max_nodes nodes && graph_stored k (lent_graph nodes actions.now next.now) }
{
    if !tables::count_within(Graph::NODES, nodes) {
        return false;
    }
    if actions.len() < nodes {
        return false;
    }
    nodes * k <= next.len()
}

// 3, 5 and 6 of the tables, then 18.
fn judge_worth<'a, 'b>(
    transition: &'a [u16],
    observation: &'a [u16],
    reward: &'a [i64],
    c: Counts,
    nodes: usize,
    actions: &'b [u8],
    next: &'b [u16],
    v: Node,
    s: State,
    d: usize,
) -> Verdict
    ensures { result
        ≡ worth_verdict (tables_in c transition.now observation.now reward.now)
        (lent_graph nodes actions.now next.now) v.0 s.0 d }
{
    validity::judge_tables(transition, observation, reward, c)?;
    if !nodes_within(actions, next, nodes, c.observations) {
        return Err(Refusal(18, 0));
    }
    shape::numbers_exist(actions, next, nodes, c.actions, c.observations, nodes, 18)?;
    if !asked_within(nodes, c.states, v, s, d) {
        return Err(Refusal(18, 0));
    }
    Ok(())
}

// The worth of a node at a state with d steps left, of tables and a graph of any content, or refused by 3, 5, 6 or 18.
pub fn worth<'a, 'b>(
    transition: &'a [u16],
    observation: &'a [u16],
    reward: &'a [i64],
    c: Counts,
    nodes: usize,
    actions: &'b [u8],
    next: &'b [u16],
    v: Node,
    s: State,
    d: usize,
) -> Result<i64, Refusal>
    ensures { result
        ≡ worth_answer (tables_in c transition.now observation.now reward.now)
        (lent_graph nodes actions.now next.now) v.0 s.0 d }
{
    judge_worth(
        transition,
        observation,
        reward,
        c,
        nodes,
        actions,
        next,
        v,
        s,
        d,
    )?;
    let all = worths::worths(transition, observation, reward, actions, next, c, nodes, d);
    Ok(read::entry_at(&all, c.states, Vector(v.0), s))
}
