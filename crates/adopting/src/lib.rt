// The call that makes the level of a solver's files over the level that stands: judged, and written over lent slices.
#![tactic(auto)]

ghost use Rattle.std.specs.Prelude.{◌≡◌, List, ℕ};
ghost use Rattle.refusals.specs.Verdicts.{Fine};
ghost use Rattle.tables.specs.Storage.{tables_in};
ghost use Rattle.levels.specs.Storage.{cells, rows, lent};
ghost use Rattle.solver.specs.Files.{vectors_in};
ghost use Rattle.adoption.specs.Adopt.{adopt_verdict, adopted, adopt_answer};
ghost use Rattle.adoption.specs.Claim.{AdoptHolds};

use refusals::Refusal;
use tables::Counts;

// Makes the level of a solver's files over the level that stands, with the builder's corners and its values at a count of points of any content: it is
// accepted where it is offered to the same certifier; or refused by 1, 7, 19, 20, 8 to 12 or 21.
pub fn adopt<'a, 'b, 'c>(
    transition: &'a [u16],
    observation: &'a [u16],
    reward: &'a [i64],
    c: Counts,
    state: &'b [usize],
    actions: &'b [u8],
    masks: &'b [u64],
    entries: &'b [i64],
    corners: &'b [i64],
    weights: &'b [u32],
    values: &'b [i64],
    informed: &'b [i64],
    qmdp: &'b [i64],
    alpha: &'c [u8],
    graph: &'c [u8],
    given: &[u32],
    count: usize,
    newactions: &mut [u8],
    newchoices: &mut [u16],
    newmasks: &mut [u64],
    newentries: &mut [i64],
    newcorners: &mut [i64],
    newvalues: &mut [i64],
) -> Result<usize, Refusal>
    ensures { (choices : List ℕ) →
        let m = tables_in c transition.now observation.now reward.now in
        let standing = lent state.now (cells actions.now choices masks.now entries.now corners.now
        weights.now values.now) (rows informed.now qmdp.now) in
        let y = cells newactions.old newchoices.old newmasks.old newentries.old newcorners.old
        given.now newvalues.old in
        let made = cells newactions.new newchoices.new newmasks.new newentries.new newcorners.new
        given.now newvalues.new in
        let v = adopt_verdict m standing alpha.now graph.now count y in
        (result ≡ adopt_answer v (vectors_in c.states alpha.now))
        × ((made ≡ adopted m standing alpha.now graph.now count y)
        × (v ≡ Fine → AdoptHolds m standing alpha.now graph.now count y made)) }
{
    let vectors = adoptable::judge_files(
        transition,
        observation,
        reward,
        c,
        state,
        actions,
        masks,
        entries,
        corners,
        weights,
        values,
        informed,
        qmdp,
        alpha,
        graph,
        count,
        newactions.len(),
        newchoices.len(),
        newmasks.len(),
        newentries.len(),
        newcorners.len(),
        given.len(),
        newvalues.len(),
    )?;
    let s = levels::standing_in(state);
    adoptable::judge_level(
        transition,
        observation,
        reward,
        masks,
        entries,
        c,
        s.vectors,
        s.number,
        alpha,
        graph,
        vectors,
        given,
        count,
    )?;
    solved::write_vectors(
        transition,
        observation,
        reward,
        masks,
        entries,
        c,
        s.vectors,
        s.number,
        alpha,
        graph,
        vectors,
        newactions,
        newchoices,
        newmasks,
        newentries,
    );
    let none = [0u32; 0]; // no list of transitions
    roofing::build_roof(
        transition,
        &none,
        observation,
        reward,
        corners,
        weights,
        values,
        given,
        c,
        s.points,
        count,
        newcorners,
        newvalues,
    );
    Ok(vectors)
}
