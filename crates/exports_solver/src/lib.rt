// The interface for C and Rust: the next level of a certifier, made of a solver's files.
#![tactic(auto)]

ghost use Rattle.std.specs.Prelude.{◌≡◌, List, ℕ};
ghost use Rattle.refusals.specs.Verdicts.{Fine};
ghost use Rattle.levels.specs.Storage.{cells, rows, lent};
ghost use Rattle.solver.specs.Files.{vectors_in};
ghost use Rattle.adoption.specs.Adopt.{adopt_verdict, adopted, adopt_answer};
ghost use Rattle.adoption.specs.Claim.{AdoptHolds};
ghost use Rattle.answers.specs.Calls.{tables_by};
ghost use Rattle.exports_solver.specs.Calls.{adoption_by};

use tables::Counts;

#[repr(C)]
#[derive(Clone, Copy)]
pub struct Adoption {
    pub number: u64,
    pub place: usize,
    pub vectors: usize,
}

// Makes the next level of a certifier of a solver's alpha file and policy graph, and of a count of points, whose weights are the level's own.
#[unsafe(no_mangle)]
pub extern "C" fn biidhaqun_adopt<'a, 'b, 'c>(
    n: usize,
    m: usize,
    k: usize,
    g: u64,
    transition: &'a [u16],
    observation: &'a [u16],
    reward: &'a [i64],
    state: &'b [usize],
    actions: &'b [u8],
    masks: &'b [u64],
    entries: &'b [i64],
    corners: &'b [i64],
    weights: &'b [u32],
    values: &'b [i64],
    informed: &'b [i64],
    qmdp: &'b [i64],
    alpha: &'c [u8],
    graph: &'c [u8],
    given: &[u32],
    count: usize,
    newactions: &mut [u8],
    newchoices: &mut [u16],
    newmasks: &mut [u64],
    newentries: &mut [i64],
    newcorners: &mut [i64],
    newvalues: &mut [i64],
) -> Adoption
    ensures { (choices : List ℕ) →
        let tables = tables_by n m k g transition.now observation.now reward.now in
        let standing = lent state.now (cells actions.now choices masks.now entries.now corners.now
        weights.now values.now) (rows informed.now qmdp.now) in
        let y = cells newactions.old newchoices.old newmasks.old newentries.old newcorners.old
        given.now newvalues.old in
        let made = cells newactions.new newchoices.new newmasks.new newentries.new newcorners.new
        given.now newvalues.new in
        let v = adopt_verdict tables standing alpha.now graph.now count y in
        (result ≡ adoption_by (adopt_answer v (vectors_in n alpha.now)))
        × ((made ≡ adopted tables standing alpha.now graph.now count y)
        × (v ≡ Fine → AdoptHolds tables standing alpha.now graph.now count y made)) }
{
    let c = Counts {
        states: n,
        actions: m,
        observations: k,
        discount: g,
    };
    match adopting::adopt(
        transition,
        observation,
        reward,
        c,
        state,
        actions,
        masks,
        entries,
        corners,
        weights,
        values,
        informed,
        qmdp,
        alpha,
        graph,
        given,
        count,
        newactions,
        newchoices,
        newmasks,
        newentries,
        newcorners,
        newvalues,
    ) {
        Ok(vectors) => Adoption {
            number: 0,
            place: 0,
            vectors,
        },
        Err(e) => {
            let refusal = answers::refusal_of(Err(e));
            Adoption {
                number: refusal.number,
                place: refusal.place,
                vectors: 0,
            }
        }
    }
}
