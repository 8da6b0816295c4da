// What the two test programs read alike: a number, digit by digit, and a component, from five numbers.
#![tactic(auto)]

ghost use Rattle.std.specs.Prelude.{◌≡◌};
ghost use Rattle.cases.specs.Numbers.{with_digit, kind_of, policy_of, component_of};

use model::{Component, ComponentAttrs, ComponentId, ComponentKind, FailurePolicy, RegionId};

// The number with one digit more, or the largest number where it does not fit.
pub fn with_digit(n: u64, d: u64) -> u64
    ensures { result ≡ with_digit n d }
{
    n.saturating_mul(10).saturating_add(d)
}

// 0 Active, else Passive. No `From`, here and below: `From<u64> for ComponentKind` may stand only in the crate of
// `ComponentKind`, where numbers that only the comparisons with the Rust use do not belong.
fn kind_of(n: u64) -> ComponentKind
    ensures { result ≡ kind_of n }
{
    match n {
        0 => ComponentKind::Active,
        _ => ComponentKind::Passive,
    }
}

// 0 Required, 1 Isolable, else Cascading.
fn policy_of(n: u64) -> FailurePolicy
    ensures { result ≡ policy_of n }
{
    match n {
        0 => FailurePolicy::Required,
        1 => FailurePolicy::Isolable,
        _ => FailurePolicy::Cascading,
    }
}

// The component of five numbers. Id and region are brought into a byte; a dependency from 256 on is none.
pub fn component_of(id: u64, kind: u64, policy: u64, region: u64, dependency: u64) -> Component
    ensures { result ≡ component_of id kind policy region dependency }
{
    let region = RegionId::new((region % 256) as u8);
    let mut attrs = ComponentAttrs::plain(kind_of(kind), policy_of(policy)).with_region(region);
    if let Ok(on) = u8::try_from(dependency) {
        attrs = attrs.with_depends_on(ComponentId::new(on));
    }
    Component {
        id: ComponentId::new((id % 256) as u8),
        attrs,
    }
}
