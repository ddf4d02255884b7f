// A solver's alpha file and policy graph file, judged: 19 and 20.
#![tactic(auto)]

ghost use Rattle.std.specs.Prelude.{◌≡◌, ℕ, ◌≤◌, eqb, length};
ghost use Rattle.integers.specs.Search.{every};
ghost use Rattle.tables.specs.Limits.{max_states, max_observations};
ghost use Rattle.alphas.specs.Alphas.{words_verdict};
ghost use Rattle.solver.specs.Files.{alphas, nodes, read_list, vectors_in, action_at, node_at, with_count, files_judged};
ghost use Rattle.solver.specs.Steps.{Past, Counted, BothAt};

use grammar::Read;
use refusals::Refusal;

// The vectors or nodes of a file, one after the other, counted; `one` reads the one of a number from an offset on.
fn count<T: Copy, F: Fn(usize, usize) -> Result<Read<T>, Refusal>>(
    file: &[u8],
    one: F,
) -> Result<usize, Refusal>
    requires may { (i : ℕ) (at : ℕ) → at ≤ length file.now → F.pre one i at }
    requires past { (i : ℕ) (at : ℕ) (r : _) → at ≤ length file.now → F.post one i at r → Past file.now at r }
    ensures { Counted file.now (F.post one) 0 0 result }
{
    let mut at: usize = 0;
    let mut v: usize = 0;
    while let Some(_) = reader::word_from(file, at) {
        let x = one(v, at)?;
        at = x.next;
        v += 1;
    }
    Ok(v)
}

// The vectors of an alpha file, counted.
fn judge_alphas(file: &[u8], n: usize) -> Result<usize, Refusal>
    requires { n ≤ max_states }
    ensures { result ≡ with_count (words_verdict (alphas n file.now)) (vectors_in n file.now) }
{
    count(file, |_, at| alphas::alpha_at(file, at, n))
}

// The nodes of a graph file, counted.
fn judge_nodes(file: &[u8], k: usize) -> Result<usize, Refusal>
    requires { k ≤ max_observations }
    ensures { result ≡ with_count (words_verdict (nodes k file.now)) (length (read_list (nodes k file.now))) }
{
    count(file, |i, at| alphas::node_at(file, at, i, k))
}

// Whether each vector has the action of its node.
fn same_actions(alpha: &[u8], graph: &[u8], n: usize, k: usize, count: usize) -> bool
    requires { (n ≤ max_states) × ((k ≤ max_observations) × (BothAt n k alpha.now graph.now count 0 0 0)) }
    ensures { result ≡ every count (λ v. eqb (action_at n alpha.now v) (node_at k graph.now v).action) }
{
    let mut p: usize = 0;
    let mut q: usize = 0;
    for v in 0..count {
        let x = alphas::alpha_at(alpha, p, n).unwrap();
        let y = alphas::node_at(graph, q, v, k).unwrap();
        if x.value.action != y.value.action {
            return false;
        }
        p = x.next;
        q = y.next;
    }
    true
}

// 19 of the alpha file, then 19 of the graph file, then 20.
pub fn judge_files(alpha: &[u8], graph: &[u8], n: usize, k: usize) -> Result<usize, Refusal>
    requires { (n ≤ max_states) × (k ≤ max_observations) }
    ensures { result ≡ files_judged n k alpha.now graph.now }
{
    let vectors = judge_alphas(alpha, n)?;
    let nodes = judge_nodes(graph, k)?;
    if vectors != nodes || !same_actions(alpha, graph, n, k, vectors) {
        return Err(Refusal(20, 0));
    }
    Ok(vectors)
}
