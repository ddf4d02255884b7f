// The worths of a plan graph's nodes at all states: with one step left, then with two, up to the steps asked for.
#![tactic(auto)]

ghost use Rattle.std.specs.Prelude.{◌≡◌, ◌≤◌, ◌<◌, length, get_or, pos};
ghost use Rattle.integers.specs.Cells.{padded};
ghost use Rattle.tables.specs.Limits.{max_states};
ghost use Rattle.tables.specs.Storage.{model_in};
ghost use Rattle.tables.specs.Steps.{EntriesFit};
ghost use Rattle.worths.specs.Limits.{max_steps};
ghost use Rattle.worths.specs.Graph.{worth_of};
ghost use Rattle.worths.specs.Storage.{graph_in};
ghost use Rattle.worths.specs.Steps.{GraphHeld, backed_up_of, worths_by};

use levels::shape;
use tables::{Action, ByState, Counts, Tables, Vector, read};

#[derive(Clone, Copy)]
pub struct Node(pub usize);

// By node and state, packed by the number of states.
type Worths = [i64; Graph::NODES * Tables::STATES];

// A plan graph, in slices packed by the counts: actions by node, next nodes by node and observation.
#[derive(Clone, Copy)]
pub struct Graph {}

impl Graph {
    pub const NODES: usize = 32;

    pub const STEPS: usize = 4;
}

fn action_at(actions: &[u8], v: Node) -> Action
    requires { v.0 < length actions.now }
    ensures { result.0 ≡ get_or actions.now v.0 0 }
{
    let i = v.0;
    Action(shape::action(actions[i]))
}

// The worths of a node at each state: the backups, over K and rounded down, of worths with a step less. A graph's nodes are read as a level's vectors are.
fn worths_of<'a, 'b>(
    transition: &'a [u16],
    observation: &'a [u16],
    reward: &'a [i64],
    actions: &'b [u8],
    next: &'b [u16],
    before: &[i64],
    c: Counts,
    nodes: usize,
    v: Node,
) -> ByState
    requires graph_held { GraphHeld c nodes transition.now observation.now reward.now actions.now next.now }
    requires entries_fit { (EntriesFit c.states nodes before.now) × (v.0 < nodes) }
    ensures { result
        ≡ padded (pos 0) max_states c.states (backed_up_of c nodes transition.now observation.now reward.now
        actions.now next.now before.now v.0) }
{
    let n = c.states;
    let k = c.observations;
    let a = action_at(actions, v);
    let all = [u64::MAX; Graph::NODES];
    let f = vectors::foreseen(observation, n, k, &all, before, next, Vector(v.0), a);
    vectors::rounded(transition, reward, &f, n, c.discount, a)
}

// The worths of all nodes at all states with one step more: each is worked out once.
fn step<'a, 'b>(
    transition: &'a [u16],
    observation: &'a [u16],
    reward: &'a [i64],
    actions: &'b [u8],
    next: &'b [u16],
    earlier: Worths,
    c: Counts,
    nodes: usize,
) -> Worths
    requires graph_held { GraphHeld c nodes transition.now observation.now reward.now actions.now next.now }
    requires entries_fit { EntriesFit c.states nodes earlier }
    ensures { result
        ≡ worths_by c.states nodes (backed_up_of c nodes transition.now observation.now reward.now
        actions.now next.now earlier) }
{
    let n = c.states;
    let mut worths = [0i64; Graph::NODES * Tables::STATES];
    for v in 0..nodes {
        let row = worths_of(
            transition,
            observation,
            reward,
            actions,
            next,
            &earlier,
            c,
            nodes,
            Node(v),
        );
        cells::paste(&mut worths, read::start(v, n), &row, n);
    }
    worths
}

// The worths of all nodes at all states with d steps left: those with no step left are 0, then one step after the other.
pub fn worths<'a, 'b>(
    transition: &'a [u16],
    observation: &'a [u16],
    reward: &'a [i64],
    actions: &'b [u8],
    next: &'b [u16],
    c: Counts,
    nodes: usize,
    d: usize,
) -> Worths
    requires graph_held { GraphHeld c nodes transition.now observation.now reward.now actions.now next.now }
    requires d_le_max_steps { d ≤ max_steps }
    ensures { result
        ≡ worths_by c.states nodes (worth_of (model_in c transition.now observation.now reward.now)
        (graph_in c.observations nodes actions.now next.now) d) }
{
    let mut worths = [0i64; Graph::NODES * Tables::STATES];
    for _ in 0..d {
        let more = step(
            transition,
            observation,
            reward,
            actions,
            next,
            worths,
            c,
            nodes,
        );
        worths = more;
    }
    worths
}
