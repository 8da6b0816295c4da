// The lines of a sheet, each read from its bytes without the byte 10 that ends it.
#![tactic(auto)]

ghost use Rattle.std.specs.Prelude.{◌≡◌, [], ◌∷◌, ◌++◌, Some, None, MatchOption};
ghost use Rattle.model.specs.declared.ComponentKind.TheVariants.{Active, Passive};
ghost use Rattle.model.specs.declared.FailurePolicy.TheVariants.{Required, Isolable, Cascading};
ghost use Rattle.text.specs.Text.{bytes, ◌⇥◌};
ghost use Rattle.text.specs.Values.{option_text};
ghost use Rattle.fields.specs.Fields.{lookup};
ghost use Rattle.lines.specs.Grammar.{kind_text, policy_text, order_line, DependencyInRange, BeginsLine};
ghost use Rattle.lines.specs.Read.{card_of, retry_of, answer_of, row_of};

use model::{
    Component, ComponentAttrs, ComponentId, ComponentKind, Event, FailurePolicy, RegionId,
};
use settling::Reply;

// What a line says: B, C, E and R.
#[derive(Clone, Copy)]
pub enum Row {
    Retry(u8),
    Card(Component),
    Begin(Event),
    Answer(Reply),
}

// A component's kind by its name.
#[tactic(auto, using(crate::proofs::Names::told), unfolding(fields::specs::Fields::lookup))]
fn kind_of(name: &[u8]) -> Option<ComponentKind>
    ensures { result ≡ lookup name.now ((bytes "Active", Some Active) ∷ (bytes "Passive", Some Passive) ∷ []) None }
{
    match name {
        b"Active" => Some(ComponentKind::Active),
        b"Passive" => Some(ComponentKind::Passive),
        _ => None,
    }
}

// A failure policy by its name.
#[tactic(auto, using(crate::proofs::Names::told), unfolding(fields::specs::Fields::lookup))]
fn policy_of(name: &[u8]) -> Option<FailurePolicy>
    ensures { result ≡ lookup name.now ((bytes "Required", Some Required) ∷ (bytes "Isolable", Some Isolable) ∷ (bytes "Cascading", Some Cascading) ∷ []) None }
{
    match name {
        b"Required" => Some(FailurePolicy::Required),
        b"Isolable" => Some(FailurePolicy::Isolable),
        b"Cascading" => Some(FailurePolicy::Cascading),
        _ => None,
    }
}

// A C line after its letter: id, kind, policy, region, and `-` or the component that it depends on.
#[tactic(auto, using(crate::proofs::Cards::card), unfolding(crate::specs::Read::card_of, crate::specs::Read::with_region))]
fn read_card(l: &[u8]) -> Option<Row>
    ensures { result ≡ card_of l.now }
{
    let id = ComponentId(fields::byte(fields::first(l))?);
    let l = fields::rest(l);
    let kind = kind_of(fields::first(l))?;
    let l = fields::rest(l);
    let failure_policy = policy_of(fields::first(l))?;
    let l = fields::rest(l);
    let recovery_region = RegionId(fields::byte(fields::first(l))?);
    let depends_on = match fields::rest(l) {
        b"-" => None,
        f => Some(ComponentId(fields::byte(f)?)),
    };
    let attrs = ComponentAttrs {
        kind,
        failure_policy,
        recovery_region,
        depends_on,
    };
    Some(Row::Card(Component { id, attrs }))
}

// A B line after its letter.
#[tactic(auto, unfolding(crate::specs::Read::retry_of))]
fn read_retry(f: &[u8]) -> Option<Row>
    ensures { result ≡ retry_of f.now }
{
    fields::byte(f).map(Row::Retry)
}

// An R line after its letter.
#[tactic(auto, using(crate::proofs::Names::told), unfolding(fields::specs::Fields::lookup, crate::specs::Read::answer_of))]
fn read_answer(l: &[u8]) -> Option<Row>
    ensures { result ≡ answer_of l.now }
{
    match l {
        b"ok" => Some(Row::Answer(Reply::Done)),
        b"no" => Some(Row::Answer(Reply::Failed)),
        _ => match fields::first(l) {
            b"then" => Some(Row::Answer(Reply::Then(events::read_event(fields::rest(l))?))),
            _ => None,
        },
    }
}

// A line of a sheet. Any bytes whatever are one of the rows, or none. Few lines are read so (`first_line` tells the others): a
// call of its own, so that its locals are not the reader's.
#[inline(never)]
#[tactic(auto, using(crate::proofs::Names::told), unfolding(fields::specs::Fields::lookup, crate::specs::Read::row_of))]
pub fn read_line(line: &[u8]) -> Option<Row>
    ensures { result ≡ row_of line.now }
{
    let others = fields::rest(line);
    match fields::first(line) {
        b"B" => read_retry(others),
        b"C" => read_card(others),
        b"E" => events::read_event(others).map(Row::Begin),
        b"R" => read_answer(others),
        _ => None,
    }
}

// ---- by the first bytes: `None` promises nothing in what follows, and such a line is read the long way

// The kind or the policy whose name and a tab a text begins with, and what follows: told by the name's first byte.
#[inline(always)]
fn first_kind(l: &[u8]) -> Option<(ComponentKind, &[u8])>
    ensures { MatchOption result (Unit {0}) (λ r. l.now ≡ kind_text r.0 ⇥ r.1.now) }
{
    match l.first()? {
        b'A' => Some((ComponentKind::Active, fields::behind(l, b"Active\t")?)),
        _ => Some((ComponentKind::Passive, fields::behind(l, b"Passive\t")?)),
    }
}

#[inline(always)]
fn first_policy(l: &[u8]) -> Option<(FailurePolicy, &[u8])>
    ensures { MatchOption result (Unit {0}) (λ r. l.now ≡ policy_text r.0 ⇥ r.1.now) }
{
    match l.first()? {
        b'R' => Some((FailurePolicy::Required, fields::behind(l, b"Required\t")?)),
        b'I' => Some((FailurePolicy::Isolable, fields::behind(l, b"Isolable\t")?)),
        _ => Some((FailurePolicy::Cascading, fields::behind(l, b"Cascading\t")?)),
    }
}

// The `-` or the component that ends a C line, and what follows the line.
#[inline(always)]
fn first_dependency(l: &[u8]) -> Option<(Option<ComponentId>, &[u8])>
    ensures { MatchOption result (Unit {0}) (λ r. (l.now ≡ option_text r.0 ++ 10 ∷ r.1.now) × DependencyInRange r.0) }
{
    match l {
        [b'-', b'\n', rest @ ..] => Some((None, rest)),
        _ => {
            let (id, rest) = fields::ended_byte(l, b'\n')?;
            Some((Some(ComponentId(id)), rest))
        }
    }
}

// The C line that a text begins with after its letter and the tab.
fn first_card(l: &[u8]) -> Option<(Row, &[u8])>
    ensures { MatchOption result (Unit {0}) (λ r. BeginsLine (bytes "C" ⇥ l.now) r.0 r.1.now) }
{
    let (id, l) = fields::ended_byte(l, b'\t')?;
    let (kind, l) = first_kind(l)?;
    let (failure_policy, l) = first_policy(l)?;
    let (region, l) = fields::ended_byte(l, b'\t')?;
    let (depends_on, rest) = first_dependency(l)?;
    let attrs = ComponentAttrs {
        kind,
        failure_policy,
        recovery_region: RegionId(region),
        depends_on,
    };
    let card = Component {
        id: ComponentId(id),
        attrs,
    };
    Some((Row::Card(card), rest))
}

// The R line with no event that a text begins with, ended by byte 10, and what follows.
#[tactic(auto, unfolding(crate::specs::Grammar::answer_line))]
fn first_reply(l: &[u8]) -> Option<(Row, &[u8])>
    ensures { MatchOption result (Unit {0}) (λ r. BeginsLine l.now r.0 r.1.now) }
{
    match l {
        [b'R', b'\t', b'o', b'k', b'\n', rest @ ..] => Some((Row::Answer(Reply::Done), rest)),
        [b'R', b'\t', b'n', b'o', b'\n', rest @ ..] => Some((Row::Answer(Reply::Failed), rest)),
        _ => None,
    }
}

// Whether a line that begins with its event's text is a reply, and that text.
#[inline(always)]
fn order_text(l: &[u8]) -> Option<(bool, &[u8])>
    ensures { MatchOption result (Unit {0}) (λ r. l.now ≡ order_line r.0 r.1.now) }
{
    match l {
        [b'E', b'\t', text @ ..] => Some((false, text)),
        _ => Some((true, fields::behind(l, b"R\tthen\t")?)),
    }
}

// The E line or the reply with an event. Both ask for the event at one place, so that its names stand once in the program and
// reading them is no call.
#[tactic(auto, unfolding(crate::specs::Grammar::begin_line, crate::specs::Grammar::answer_line))]
fn first_order(l: &[u8]) -> Option<(Row, &[u8])>
    ensures { MatchOption result (Unit {0}) (λ r. BeginsLine l.now r.0 r.1.now) }
{
    let (is_reply, text) = order_text(l)?;
    let (event, rest) = events::first_event(text)?;
    if is_reply {
        return Some((Row::Answer(Reply::Then(event)), rest));
    }
    Some((Row::Begin(event), rest))
}

// The line that a text begins with, ended by byte 10, and what follows: without looking for that byte first. What is none here may
// be a line: `read_line` decides.
#[tactic(auto, unfolding(crate::specs::Grammar::retry_line))]
pub fn first_line(l: &[u8]) -> Option<(Row, &[u8])>
    ensures { MatchOption result (Unit {0}) (λ r. BeginsLine l.now r.0 r.1.now) }
{
    match l {
        [b'B', b'\t', text @ ..] => {
            let (n, rest) = fields::ended_byte(text, b'\n')?;
            Some((Row::Retry(n), rest))
        }
        [b'C', b'\t', text @ ..] => first_card(text),
        [b'R', b'\t', b'o' | b'n', ..] => first_reply(l),
        _ => first_order(l),
    }
}
