ghost use Rattle.std.specs.Prelude.{◌≡◌, ◌<◌, ◌^◌, length, slice_get, IfOk};
ghost use Rattle.ps_tokens.specs.Dictionaries.{AreObjects};
ghost use Rattle.job_pages.specs.StatementSpans.{scope_of, span_at as span_spec, spans_of, offset_of, shows, stays, word_of};

use job_reader::calls::{Call, call_at};
use job_reader::operators::Operator;
use lists::list::List;
use lists::names::OutOfMemory;
use ps_tokens::dictionary::count;
use ps_tokens::object::{Body, Object, ObjectList};
use std::alloc::Global;

/// How far a statement has effect.
#[derive(Clone, Copy, Debug, Drop, PartialEq, Eq)]
pub enum Scope {
    /// What it sets stays in force on later pages.
    Persistent,
    /// It ends its page.
    Showpage,
    /// It has effect on its own page alone.
    PageLocal,
}

/// A statement among a job's bytes: from the first byte of its first operand up to, and without, the byte after its
/// operator. The operator is the object at `place`, and stands at the offset `at`.
#[derive(Clone, Copy, Debug, Drop, PartialEq, Eq)]
pub struct StatementSpan {
    pub from: usize,
    pub end: usize,
    pub place: u32,
    pub at: u32,
    pub scope: Scope,
}

/// Statements, in their order.
pub type StatementSpanList = List<StatementSpan>;

impl StatementSpan {
    /// Whether it ends a page.
    pub fn shows(&self) -> bool
        ensures { result ≡ shows self.now }
    {
        match self.scope {
            Scope::Showpage => true,
            _ => false,
        }
    }

    /// Whether what it sets stays in force on the pages after its own.
    pub fn stays(&self) -> bool
        ensures { result ≡ stays self.now }
    {
        match self.scope {
            Scope::Persistent => true,
            _ => false,
        }
    }
}

/// The statements of a job's objects, in their order.
pub fn statement_spans(
    alloc: Global,
    objects: &ObjectList,
) -> Result<StatementSpanList, OutOfMemory>
    requires { AreObjects objects.now }
    ensures { IfOk result (λ found. found ≡ spans_of objects.now) }
{
    let all = objects.as_slice();
    let mut found = List::new(alloc);
    let mut from = 0u32;
    for place in 0..count(objects) {
        match call_at(all, place as usize) {
            Some(call) => {
                if found.push(span_at(all, from, place, call)).is_err() {
                    return Err(OutOfMemory);
                }
                from = place + 1;
            }
            None => {}
        }
    }
    Ok(found)
}

// The statement whose operands stand from one place up to its operator's.
fn span_at(objects: &[Object], from: u32, place: u32, call: Call) -> StatementSpan
    ensures { result ≡ span_spec objects.now from place call }
{
    StatementSpan {
        from: offset_of(objects, from as usize),
        end: call.at as usize + word_len(objects, place as usize),
        place,
        at: call.at,
        scope: scope_of(call.operator),
    }
}

// The offset of the object at a place, 0 where none stands there.
fn offset_of(objects: &[Object], place: usize) -> usize
    ensures value { result ≡ offset_of (slice_get objects.now place) }
{
    match objects.get(place) {
        Some(object) => object.at as usize,
        None => 0,
    }
}

// How many bytes the operator at a place has, 0 where another object or none stands there.
fn word_len(objects: &[Object], place: usize) -> usize
    ensures value { result ≡ length (word_of (slice_get objects.now place)) }
    ensures small { result < 2 ^ 63 }
{
    match objects.get(place) {
        Some(object) => match &object.body {
            Body::Operator(name) => name.as_slice().len(),
            _ => 0,
        },
        None => 0,
    }
}

fn scope_of(operator: Option<Operator>) -> Scope
    ensures { result ≡ scope_of operator }
{
    match operator {
        Some(Operator::SetPageDevice | Operator::SetTrapParams) => Scope::Persistent,
        Some(Operator::ShowPage) => Scope::Showpage,
        _ => Scope::PageLocal,
    }
}
