//! The tests of the rules of a union (ISO/IEC 19500-1, unions).

ghost use Rattle.std.specs.Prelude.{◌≡◌, ◌<◌, ◌≤ℤ◌, ◌<ℤ◌, ◌+ℤ◌, ◌↔◌, ℕ, ℤ, List, All, pos, length, IsTrue, IsSomeAnd, IfOk, IfErr, IfSome, IfNone, OnOk, OnErr, slice_get};
ghost use Rattle.type_graph.specs.GraphRules.{IsSwitch, IsPart, IsUnion, label_at};
ghost use Rattle.type_graph.specs.Labels.{AreWithin, AreRising, AreValues, HasOtherWithin};
ghost use Rattle.type_graph.specs.Refusal.{DeniesIfBad, IsPlace, IsUnionOfParts, NeverFall};
ghost use Rattle.type_graph.specs.Value.{node_at};

use crate::fault::{GraphLimit, NodeRule};
use crate::items::first_fall;
use crate::node::Node;
use crate::rules::{MAX_MEMBERS, is_part};
use crate::values::Values;

/// The values of a union's discriminator.
fn switch_of(nodes: &[Node], switch: u32) -> Result<Values, NodeRule>
    ensures kind { OnOk result (IsSomeAnd (slice_get nodes.now switch) IsSwitch) }
    ensures values { IfOk result (λ values. AreValues (node_at nodes.now switch) values.least values.end values.count) }
    ensures err { OnErr result (IsSomeAnd (slice_get nodes.now switch) IsSwitch → ⊥) }
    ensures bad { IfErr result (λ rule. DeniesIfBad rule (IsPart nodes.now switch)) }
    ensures place { (arms : List (ℤ × ℕ)) → IfErr result (IsPlace nodes.now switch arms) }
{
    match nodes.get(switch as usize) {
        None | Some(Node::Frame { .. }) => Err(NodeRule::BadNode),
        Some(Node::Octet) => Err(NodeRule::BadSwitch),
        Some(node) => match node.values() {
            None => Err(NodeRule::BadSwitch),
            Some(values) => Ok(values),
        },
    }
}

/// The place of the first label that isn't among the values.
fn first_outside(values: Values, arms: &[(i128, u32)]) -> Option<usize>
    ensures within { IfSome result (λ place. place < length arms.now) }
    ensures outside { IfSome result
        (λ place. ((values.least ≤ℤ label_at arms.now place) × (label_at arms.now place <ℤ values.end)) → ⊥) }
    ensures none { IfNone result (AreWithin values.least values.end arms.now) }
{
    arms.iter().position(|arm| !values.contains(arm.0))
}

fn check_labels(
    nodes: &[Node],
    switch: u32,
    values: Values,
    arms: &[(i128, u32)],
) -> Result<(), NodeRule>
    requires { AreValues (node_at nodes.now switch) values.least values.end values.count }
    ensures ok { OnOk result (AreWithin values.least values.end arms.now) }
    ensures err { OnErr result (AreWithin values.least values.end arms.now → ⊥) }
    ensures bad { IfErr result (λ rule. DeniesIfBad rule (Unit {0})) }
    ensures place { IfErr result (IsPlace nodes.now switch arms.now) }
{
    match first_outside(values, arms) {
        None => Ok(()),
        Some(place) => Err(NodeRule::LabelRange { place }),
    }
}

fn are_parts(nodes: &[Node], arms: &[(i128, u32)]) -> bool
    ensures { IsTrue result ↔ All (λ arm. IsPart nodes.now arm.1) arms.now }
{
    arms.iter().all(|arm| is_part(nodes, arm.1))
}

fn check_rising(nodes: &[Node], switch: u32, arms: &[(i128, u32)]) -> Result<(), NodeRule>
    ensures ok { OnOk result (AreRising arms.now) }
    ensures err { OnErr result (AreRising arms.now → ⊥) }
    ensures bad { IfErr result (λ rule. DeniesIfBad rule (NeverFall arms.now)) }
    ensures place { IfErr result (IsPlace nodes.now switch arms.now) }
{
    let Some(place) = first_fall(arms) else {
        return Ok(());
    };
    if arms[place].0 == arms[place + 1].0 {
        return Err(NodeRule::LabelTwice { place: place + 1 });
    }
    Err(NodeRule::BadNode)
}

/// A value of the discriminator is no label: there are more of those than of these.
fn has_other(values: Values, arms: &[(i128, u32)]) -> bool
    requires count { values.end ≡ values.least +ℤ pos values.count }
    requires labels { AreWithin values.least values.end arms.now }
    requires rising { AreRising arms.now }
    ensures { IsTrue result ↔ HasOtherWithin values.least values.end arms.now }
{
    (arms.len() as u128) < values.count
}

fn check_default(
    nodes: &[Node],
    values: Values,
    arms: &[(i128, u32)],
    default: Option<u32>,
) -> Result<(), NodeRule>
    requires count { values.end ≡ values.least +ℤ pos values.count }
    requires labels { AreWithin values.least values.end arms.now }
    requires rising { AreRising arms.now }
    ensures part { OnOk result (IfSome default (IsPart nodes.now)) }
    ensures needed { OnOk result (IfSome default (λ member. HasOtherWithin values.least values.end arms.now)) }
    ensures err { OnErr result (IfSome default (IsPart nodes.now)
        → IfSome default (λ member. HasOtherWithin values.least values.end arms.now) → ⊥) }
    ensures bad { IfErr result (λ rule. DeniesIfBad rule (IfSome default (IsPart nodes.now))) }
    ensures place { (switch : ℕ) → IfErr result (IsPlace nodes.now switch arms.now) }
{
    let Some(member) = default else {
        return Ok(());
    };
    if !is_part(nodes, member) {
        return Err(NodeRule::BadNode);
    }
    if !has_other(values, arms) {
        return Err(NodeRule::DefaultNeedless);
    }
    Ok(())
}

/// Whether a union keeps its rules.
pub fn check_union(
    nodes: &[Node],
    switch: u32,
    arms: &[(i128, u32)],
    default: Option<u32>,
) -> Result<(), NodeRule>
    ensures ok { OnOk result (IsUnion nodes.now switch arms.now default) }
    ensures err { OnErr result (IsUnion nodes.now switch arms.now default → ⊥) }
    ensures bad { IfErr result (λ rule. DeniesIfBad rule (IsUnionOfParts nodes.now switch arms.now default)) }
    ensures place { IfErr result (IsPlace nodes.now switch arms.now) }
{
    let values = match switch_of(nodes, switch) {
        Ok(values) => values,
        Err(rule) => return Err(rule),
    };
    if arms.len() > MAX_MEMBERS {
        return Err(NodeRule::Limit {
            which: GraphLimit::Members,
        });
    }
    check_labels(nodes, switch, values, arms)?;
    check_rising(nodes, switch, arms)?;
    if !are_parts(nodes, arms) {
        return Err(NodeRule::BadNode);
    }
    check_default(nodes, values, arms, default)
}
