// The next word of a file as a number, a key or an index: its form, then its limit.
#![tactic(auto)]

ghost use Rattle.std.specs.Prelude.{◌≡◌, ◌+◌, ◌^◌, ◌≤◌, ◌<◌, length, drop, nat_abs};
ghost use Rattle.words.specs.Words.{words_in, between, told};
ghost use Rattle.words.specs.Steps.{WordInside};
ghost use Rattle.numerals.specs.Numeral.{amount_of};
ghost use Rattle.numerals.specs.Steps.{Short};
ghost use Rattle.grammar.specs.Grammar.{number, magnitude, minus, signed_number, same, key, keys, field, index, limited};
ghost use Rattle.grammar.specs.Steps.{Passes, GoesPast, found, bytes_of, Tells, Reads, Takes};

use numerals::Form;
use refusals::Refusal;
use words::Word;

// What was read, and where reading goes on.
#[derive(Clone, Copy)]
pub struct Read<T> {
    pub value: T,
    pub next: usize,
}

// ---- a word that was found, from start to stop

// The number that it writes from an offset in it on: 2 for its form, 3 for its limit.
fn amount_in(
    file: &[u8],
    start: usize,
    stop: usize,
    from: usize,
    form: Form,
    least: u64,
    most: u64,
) -> Result<Read<u64>, Refusal>
    requires { (start + from ≤ stop) × ((stop ≤ length file.now) × (Short form)) }
    ensures { result ≡ found start stop (limited least most (amount_of form (drop from (bytes_of file.now start stop)))) }
{
    let Some(v) = amounts::amount_of(&file[start..stop], from, form) else {
        return Err(Refusal(2, start));
    };
    if v < least {
        return Err(Refusal(3, start));
    }
    if most < v {
        return Err(Refusal(3, start));
    }
    Ok(Read {
        value: v,
        next: stop,
    })
}

// It as a number.
#[tactic(auto, unfolding(crate::specs::Grammar::number))]
pub fn number_of(
    file: &[u8],
    w: Option<Word>,
    form: Form,
    least: u64,
    most: u64,
) -> Result<Read<u64>, Refusal>
    requires { (WordInside file.now 0 w) × (Short form) }
    ensures { Takes file.now w most result (number form least most (told file.now w)) }
{
    let Some(Word { start, stop }) = w else {
        return Err(Refusal(2, file.len()));
    };
    amount_in(file, start, stop, 0, form, least, most)
}

// It as a number after an optional minus, without its sign.
#[tactic(auto, unfolding(crate::specs::Grammar::magnitude))]
fn magnitude_of(file: &[u8], w: Option<Word>, form: Form, most: u64) -> Result<Read<u64>, Refusal>
    requires { (WordInside file.now 0 w) × (Short form) }
    ensures { Takes file.now w most result (magnitude form most (told file.now w)) }
{
    let Some(Word { start, stop }) = w else {
        return Err(Refusal(2, file.len()));
    };
    let from = numerals::is_negative(&file[start..stop]) as usize;
    amount_in(file, start, stop, from, form, 0, most)
}

// Whether it has a minus.
fn minus_of(file: &[u8], w: Option<Word>) -> bool
    requires { WordInside file.now 0 w }
    ensures { result ≡ minus (told file.now w) }
{
    let Some(Word { start, stop }) = w else {
        return false;
    };
    numerals::is_negative(&file[start..stop])
}

// Whether two runs of bytes are the same.
#[tactic(auto, unfolding(crate::specs::Grammar::same))]
pub fn is_same(a: &[u8], b: &[u8]) -> bool
    ensures { result ≡ same a.now b.now }
{
    a == b
}

// It, where it is the one given.
#[tactic(auto, unfolding(crate::specs::Grammar::key))]
pub fn key_of(file: &[u8], w: Option<Word>, k: &[u8]) -> Result<usize, Refusal>
    requires { WordInside file.now 0 w }
    ensures { Passes file.now w result (key k.now (told file.now w)) }
{
    let Some(Word { start, stop }) = w else {
        return Err(Refusal(2, file.len()));
    };
    if is_same(k, &file[start..stop]) {
        return Ok(stop);
    }
    Err(Refusal(2, start))
}

// It as one of n by its number, or n for a star.
#[tactic(auto, unfolding(crate::specs::Grammar::index))]
pub fn index_of(file: &[u8], w: Option<Word>, n: usize) -> Result<Read<u64>, Refusal>
    requires { (WordInside file.now 0 w) × (1 ≤ n) }
    ensures { Takes file.now w n result (index n (told file.now w)) }
{
    let Ok(next) = key_of(file, w, b"*") else {
        return number_of(file, w, Form::COUNT, 0, (n - 1) as u64);
    };
    Ok(Read {
        value: n as u64,
        next: next,
    })
}

// ---- the next words from an offset

// A number.
pub fn number_at(
    file: &[u8],
    at: usize,
    form: Form,
    least: u64,
    most: u64,
) -> Result<Read<u64>, Refusal>
    requires { (at ≤ length file.now) × (Short form) }
    ensures { Reads file.now at most result (number form least most (words_in between file.now at)) }
{
    number_of(file, reader::word_from(file, at), form, least, most)
}

// A number after an optional minus, with its sign.
#[tactic(auto, unfolding(crate::specs::Grammar::signed_number))]
pub fn signed_at(file: &[u8], at: usize, form: Form, most: u64) -> Result<Read<i64>, Refusal>
    requires { (at ≤ length file.now) × ((Short form) × (most < 2 ^ 63)) }
    ensures { Tells (λ z. nat_abs z ≤ most) (λ z. z) file.now at result
        (signed_number form most (words_in between file.now at)) }
{
    let w = reader::word_from(file, at);
    let size = magnitude_of(file, w, form, most)?;
    Ok(Read {
        value: numerals::with_sign(minus_of(file, w), size.value),
        next: size.next,
    })
}

// A word that is given.
pub fn key_at(file: &[u8], at: usize, k: &[u8]) -> Result<usize, Refusal>
    requires { at ≤ length file.now }
    ensures { GoesPast file.now at result (key k.now (words_in between file.now at)) }
{
    key_of(file, reader::word_from(file, at), k)
}

// Two words that are given.
#[tactic(auto, unfolding(crate::specs::Grammar::keys))]
pub fn keys_at(file: &[u8], at: usize, first: &[u8], second: &[u8]) -> Result<usize, Refusal>
    requires { at ≤ length file.now }
    ensures { GoesPast file.now at result (keys first.now second.now (words_in between file.now at)) }
{
    let pair = reader::pair_from(file, at);
    key_of(file, pair.first, first)?;
    key_of(file, pair.second, second)
}

// A name, a colon and a number.
#[tactic(auto, unfolding(crate::specs::Grammar::field))]
pub fn field_at(
    file: &[u8],
    at: usize,
    name: &[u8],
    form: Form,
    least: u64,
    most: u64,
) -> Result<Read<u64>, Refusal>
    requires { (at ≤ length file.now) × (Short form) }
    ensures { Reads file.now at most result (field name.now form least most (words_in between file.now at)) }
{
    let next = keys_at(file, at, name, b":")?;
    number_at(file, next, form, least, most)
}
