//! The evaluation of a script by the words that there are.
//!
//! Nothing is evaluated that decides nothing, and it stops at the first word that is not there. It takes no memory: texts stay in the
//! script.
ghost use Rattle.std.specs.Prelude.{◌≡◌, ◌^◌, ◌-◌, ◌==◌, Bool, Ok, bit_and, map, min, slice_index, slice_set};
ghost use Rattle.tag_script.specs.Courses.{choice, course_of, decided, decides, doing, in_turn, name_value, tag_bit, test_number, value_of};
ghost use Rattle.tag_script.specs.Hearing.{Hears, Takes, heard, standing_of, word_read};
ghost use Rattle.tag_script.specs.Outcomes.{is_expected, word_bit};
ghost use Rattle.tag_script.specs.Values.{datum_of, number};

use crate::results::Results;
use crate::script::{Arm, Script, Statement};
use crate::value::{Value, compared, is_true, truth, word_text};
use tag_lines::Expr;

/// The words of each test that the project expects, word w in bit w, and the words that there are.
#[derive(Clone, Copy)]
pub struct Asked<'a> {
    pub expect: &'a [u32],
    pub results: Results,
}

/// The values of a script's names by their places, and the tags that are set, tag i in bit i.
#[derive(Clone, Copy)]
pub struct State<'a> {
    pub names: [Value<'a>; 32],
    pub tags: u32,
}

/// Why an evaluation stops.
#[derive(Clone, Copy)]
pub enum Stop {
    /// The word of this test is needed.
    Need(u32),
    /// The assertion on this line fails.
    AssertFailed(u32),
    /// The word of this test is not expected.
    Unexpected(u32),
}

/// The bit of a word among those that are expected.
fn word_bit(word: u32) -> u32
    ensures { result ≡ word_bit word }
{
    match word {
        0 => 1,
        1 => 2,
        2 => 4,
        3 => 8,
        _ => 0,
    }
}

/// Whether the project expects a word of a test.
fn is_expected(expect: &[u32], test: u32, word: u32) -> bool
    ensures { result ≡ is_expected expect.now test word }
{
    match expect.get(test as usize) {
        Some(words) => *words & word_bit(word) != 0,
        None => false,
    }
}

/// The word of a test.
#[tactic(auto, unfolding(crate::specs::Hearing::word_read))]
fn word_read(asked: &Asked<'_>, test: u32) -> Result<u32, Stop>
    ensures { result ≡ word_read asked.now.expect.now asked.now.results test }
{
    match asked.results.any_word(test) {
        None => Err(Stop::Need(test)),
        Some(word) if is_expected(asked.expect, test, word) => Ok(word),
        Some(_) => Err(Stop::Unexpected(test)),
    }
}

/// A test's number in results.
fn test_number(place: usize) -> u32
    ensures { result ≡ test_number place }
{
    u32::try_from(place).unwrap_or(u32::MAX)
}

/// The value of a name.
fn name_value<'a>(names: &[Value<'a>], place: usize) -> Value<'a>
    ensures { datum_of result ≡ name_value (map datum_of names.now) place }
{
    match names.get(place) {
        Some(value) => *value,
        None => Value::Number(0),
    }
}

/// The value of an expression.
#[cycle(value_of)]
fn value_of<'a>(asked: &Asked<'_>, names: &[Value<'a>], expr: &'a Expr) -> Result<Value<'a>, Stop>
    ensures { Hears datum_of result (heard asked.now.expect.now asked.now.results (value_of expr.now (map datum_of names.now))) }
{
    match expr {
        Expr::Number(number) => Ok(Value::Number(*number)),
        Expr::Text(text) => Ok(Value::Text(text.as_slice())),
        Expr::Name(place) => Ok(name_value(names, *place)),
        Expr::Word(test) => {
            let word = word_read(asked, test_number(*test))?;
            Ok(Value::Text(word_text(word)))
        }
        Expr::Not(operand) => {
            let value = value_of(asked, names, operand.get())?;
            Ok(truth(!is_true(value)))
        }
        Expr::Compare(left, operator, right) => {
            let left = value_of(asked, names, left.get())?;
            let right = value_of(asked, names, right.get())?;
            Ok(compared(*operator, left, right))
        }
        Expr::And(operands) => decided(asked, names, false, operands.as_slice()),
        Expr::Or(operands) => decided(asked, names, true, operands.as_slice()),
    }
}

/// Whether a value has this truth.
fn decides(deciding: bool, value: Value<'_>) -> bool
    ensures { result ≡ decides deciding (datum_of value.entry) }
{
    match deciding {
        true => is_true(value),
        false => !is_true(value),
    }
}

/// The first operand with this truth, else the last one.
#[cycle(value_of)]
fn decided<'a>(
    asked: &Asked<'_>,
    names: &[Value<'a>],
    deciding: bool,
    operands: &'a [Expr],
) -> Result<Value<'a>, Stop>
    ensures { Hears datum_of result (heard asked.now.expect.now asked.now.results (decided deciding (number 0) (map value_of operands.now) (map datum_of names.now))) }
{
    let mut last = Value::Number(0);
    for operand in operands {
        last = value_of(asked, names, operand)?;
        if decides(deciding, last) {
            return Ok(last);
        }
    }
    Ok(last)
}

/// The bit of a tag.
#[tactic(auto, using(std::proofs::lemmas::Nat::one_shl))]
fn tag_bit(tag: usize) -> u32
    ensures { result ≡ tag_bit tag }
{
    if tag < 32 { 1 << tag } else { 0 }
}

/// The state with another value of a name.
fn with_value<'a>(mut state: State<'a>, place: usize, value: Value<'a>) -> State<'a>
    ensures { standing_of result ≡ record { names = slice_set (map datum_of state.entry.names) place (datum_of value.entry); tags = state.entry.tags } }
{
    if place < state.names.len() {
        state.names[place] = value;
    }
    state
}

/// What a statement does.
#[cycle(doing)]
fn doing<'a>(
    asked: &Asked<'_>,
    state: State<'a>,
    statement: &'a Statement,
) -> Result<State<'a>, Stop>
    ensures { Hears standing_of result (heard asked.now.expect.now asked.now.results (doing statement.now (standing_of state.entry))) }
{
    match statement {
        Statement::Assign(place, value) => {
            let value = value_of(asked, &state.names, value)?;
            Ok(with_value(state, *place, value))
        }
        Statement::Tag(tag) => Ok(State {
            names: state.names,
            tags: state.tags | tag_bit(*tag),
        }),
        Statement::Assert(line, condition) => {
            let value = value_of(asked, &state.names, condition)?;
            if is_true(value) {
                Ok(state)
            } else {
                Err(Stop::AssertFailed(*line))
            }
        }
        Statement::If(arms, other) => match taken(asked, state, arms.as_slice()) {
            Ok(Some(state)) => Ok(state),
            Ok(None) => in_turn(asked, state, other.as_slice()),
            Err(why) => Err(why),
        },
    }
}

/// What statements do one after the other.
#[cycle(doing)]
fn in_turn<'a>(
    asked: &Asked<'_>,
    state: State<'a>,
    statements: &'a [Statement],
) -> Result<State<'a>, Stop>
    ensures { Hears standing_of result (heard asked.now.expect.now asked.now.results (in_turn (map doing statements.now) (standing_of state.entry))) }
{
    let mut state = state;
    for statement in statements {
        state = doing(asked, state, statement)?;
    }
    Ok(state)
}

/// What the first arm does whose condition is true, if there is one.
#[cycle(doing)]
fn taken<'a>(
    asked: &Asked<'_>,
    state: State<'a>,
    arms: &'a [Arm],
) -> Result<Option<State<'a>>, Stop>
    ensures { Takes asked.now.expect.now asked.now.results (map choice arms.now) (standing_of state.entry) result }
{
    for arm in arms {
        let value = value_of(asked, &state.names, &arm.condition)?;
        if is_true(value) {
            let state = in_turn(asked, state, arm.body.as_slice())?;
            return Ok(Some(state));
        }
    }
    Ok(None)
}

/// The tags that a script sets.
#[tactic(auto, unfolding(crate::specs::Courses::course_of))]
pub fn tags_of(asked: &Asked<'_>, script: &Script) -> Result<u32, Stop>
    ensures { result ≡ heard asked.now.expect.now asked.now.results (course_of script.now) }
{
    let state = State {
        names: [Value::Number(0); 32],
        tags: 0,
    };
    let end = in_turn(asked, state, script.statements.as_slice())?;
    Ok(end.tags)
}
