// Rows and entries of a model file, read into the cells of their table: what T and O statements state, and the start numbers.
#![tactic(auto)]

ghost use Rattle.std.specs.Prelude.{◌≤◌, length};
ghost use Rattle.words.specs.Words.{words_in, between};
ghost use Rattle.tables.specs.Limits.{one};
ghost use Rattle.numerals.specs.Steps.{Short};
ghost use Rattle.drafts.specs.Drafts.{stated};
ghost use Rattle.grammar.specs.Grammar.{number};
ghost use Rattle.grammar.specs.Steps.{Reads};
ghost use Rattle.entries.specs.Entries.{indexed, row, entry, table};
ghost use Rattle.entries.specs.Steps.{CellsFit, Leaves};

use grammar::Read;
use numerals::Form;
use refusals::Refusal;
use tables::Tables;

// `: i`
#[tactic(auto, unfolding(crate::specs::Entries::indexed))]
pub fn indexed_at(file: &[u8], at: usize, n: usize) -> Result<Read<u64>, Refusal>
    requires { (at ≤ length file.now) × (1 ≤ n) }
    ensures { Reads file.now at n result (indexed n (words_in between file.now at)) }
{
    let pair = reader::pair_from(file, at);
    grammar::key_of(file, pair.first, b":")?;
    grammar::index_of(file, pair.second, n)
}

// A number for each place of the rows that a and s stand for.
#[tactic(auto, unfolding(crate::specs::Entries::row))]
pub fn row_at(
    file: &[u8],
    from: usize,
    cells: &mut [u16],
    m: usize,
    n: usize,
    w: usize,
    a: usize,
    s: usize,
    form: Form,
    most: u64,
) -> Result<usize, Refusal>
    requires from_in_bounds { (from ≤ length file.now) × (CellsFit m n w cells.old) }
    requires a_le_m { (a ≤ m) × ((s ≤ n) × ((Short form) × (most ≤ one))) }
    ensures { Leaves file.now from result cells.new
        (row (number form 0 most) (stated m n w a s) 0 w cells.old (words_in between file.now from)) }
{
    let mut at = from;
    for x in 0..w {
        let p = grammar::number_at(file, at, form, 0, most)?;
        drafts::state(cells, m, n, w, a, s, x, p.value as u16);
        at = p.next;
    }
    Ok(at)
}

// `x p`
#[tactic(auto, unfolding(crate::specs::Entries::entry_by))]
fn entry_at(
    file: &[u8],
    at: usize,
    cells: &mut [u16],
    m: usize,
    n: usize,
    w: usize,
    a: usize,
    s: usize,
) -> Result<usize, Refusal>
    requires at_in_bounds { (at ≤ length file.now) × (CellsFit m n w cells.old) }
    requires a_le_m { (a ≤ m) × (s ≤ n) }
    ensures { Leaves file.now at result cells.new (entry m n w a s cells.old (words_in between file.now at)) }
{
    let pair = reader::pair_from(file, at);
    let x = grammar::index_of(file, pair.first, w)?;
    let p = grammar::number_of(file, pair.second, Form::PROBABILITY, 0, Tables::ONE)?;
    drafts::state(cells, m, n, w, a, s, x.value as usize, p.value as u16);
    Ok(p.next)
}

// After `T` or `O`.
#[tactic(auto, unfolding(crate::specs::Entries::table_by))]
pub fn table_at(
    file: &[u8],
    at: usize,
    cells: &mut [u16],
    m: usize,
    n: usize,
    w: usize,
) -> Result<usize, Refusal>
    requires { (at ≤ length file.now) × (CellsFit m n w cells.old) }
    ensures { Leaves file.now at result cells.new (table m n w cells.old (words_in between file.now at)) }
{
    let a = indexed_at(file, at, m)?;
    let s = indexed_at(file, a.next, n)?;
    let Ok(next) = grammar::key_at(file, s.next, b":") else {
        return row_at(
            file,
            s.next,
            cells,
            m,
            n,
            w,
            a.value as usize,
            s.value as usize,
            Form::PROBABILITY,
            Tables::ONE,
        );
    };
    entry_at(
        file,
        next,
        cells,
        m,
        n,
        w,
        a.value as usize,
        s.value as usize,
    )
}
